//! The dispatchable network of a table: the lower bounds and waits by which each point is executed.

ghost use Rattle.std.specs.Prelude.{◌≡◌, ◌<◌, length, IfOk};
ghost use Rattle.net_model.specs.Network.{IsPoint};
ghost use Rattle.strategy_model.specs.Plays.{IsInstant};
ghost use Rattle.closure_model.specs.Tables.{Graph, edges_of, IsFor, IsGraph};
ghost use Rattle.dispatch_net.specs.Dispatchable.{MayDispatch, IsDispatchBy};
ghost use Rattle.dispatch_net.specs.Dispatchable.{conditions_in, dispatchable, conditions_at};
ghost use Rattle.dispatch_net.specs.Execution.{ExecutionSatisfies};
ghost use Rattle.dispatch_net.specs.Held.{IsSlimOrWhole, link_ending};
ghost use Rattle.dispatch_net.specs.Outgoing.{conditions_from};
ghost use Rattle.dispatch_net.specs.Slim.{slimmed};

use crate::held_lists::{Held, no_conditions};
use crate::outgoing::{Outgoing, outgoing_of};
use crate::slim_lists::ranks_of;
use labelled_graph::Table;
use net_model::{Items, Link, LinkId, Network, PointId, Weight};
use std::alloc::{AllocError, Global};
use std::marker::Model;
use std::snapshot::Snapshot;

/// The lower bounds and waits by which a point is executed.
#[derive(Debug, Drop)]
pub struct Conditions {
    /// A point and n: n moments after that point.
    pub lower_bounds: Items<(PointId, Weight)>,
    /// A link and n: its contingent point, or n moments after its activation point.
    pub waits: Items<(LinkId, Weight)>,
}

/// The dispatchable network of a forward closed table (Morris, Muscettola and Vidal 2001, in this
/// project's form): the lower bounds and waits by which each executable point is executed, and the
/// links of its network. Contracts see it as the links, the lists that were made from the table,
/// one for each point, and those that are kept: all of them, or only those that no others imply.
/// Only what is kept is stored; what was made is known to clauses alone.
#[derive(Drop)]
#[derive_where(Debug)]
pub struct Dispatch {
    held: Held,
    order: Vec<PointId>,
    ranks: Vec<u32>,
    others: Vec<(PointId, Weight)>,
    #[derive_where(skip)]
    made: Snapshot<Vec<Conditions>>,
}

impl Model for Dispatch {
    ghost use Rattle.std.specs.Prelude.{vec_capacity};
    ghost use Rattle.dispatch_net.specs.Dispatchable.{DispatchLists};
    ghost use Rattle.dispatch_net.specs.Held.{IsKeptInOrder};

    ghost Value = { DispatchLists };

    ghost view = { λ dispatch. record {
      links = dispatch.held.links;
      made = dispatch.made.value.items;
      kept = dispatch.held.lists;
    } };

    ghost invariant = { λ dispatch. IsKeptInOrder dispatch.held.links dispatch.made.value.items
        dispatch.held.lists dispatch.order.items (vec_capacity dispatch.others) };
}

impl Dispatch {
    /// The dispatchable network of a forward closed table that has an order, of a network without a
    /// delay: by its lower bounds and waits the network is executed in every situation, and each
    /// execution satisfies it. One with a delay is dispatched by its shown form. That a table is
    /// sound, as `executed` requires, is a clause of `Table::weight`. `slim` follows the order, in
    /// capacity that is reserved here. `AllocError` comes only if memory is refused.
    pub fn of(
        alloc: Global,
        net: &Network,
        table: &Table,
        order: &[PointId],
    ) -> Result<Dispatch, AllocError>
        requires may { MayDispatch net.now table.now order.now }
        requires no_delay { net.now.delay ≡ 0 }
        ensures dispatchable { IfOk result (IsDispatchBy net.now table.now) }
        ensures whole { IfOk result (λ dispatch. length dispatch.made ≡ length net.now.points) }
        ensures executed { IfOk result (λ dispatch. IsInstant net.now → IsGraph table.now
            → ExecutionSatisfies net.now dispatch.made) }
    {
        let lists = conditions_by(alloc, net, table)?;
        let made = Snapshot::of(&lists);
        let others = Vec::with_capacity(alloc, lists.len())?;
        let held = Held::new(alloc, net, lists)?;
        let ranks = ranks_of(alloc, order, net.points().len() as u32)?;
        let order = Vec::from_slice(alloc, order)?;
        Ok(Dispatch {
            held,
            order,
            ranks,
            others,
            made,
        })
    }

    /// The same dispatchable network without the lower bounds and waits that others of their point
    /// imply, each tested against what is kept before the call. What is left gives the same
    /// executions and the same next due moments. It takes no memory.
    pub fn slim(self) -> Dispatch
        ensures links { result.links ≡ self.links }
        ensures made { result.made ≡ self.made }
        ensures kept { result.kept ≡ slimmed self.links self.kept }
    {
        let Dispatch {
            mut held,
            order,
            ranks,
            mut others,
            made,
        } = self;
        held.slim(order.as_slice(), ranks.as_slice(), &mut others);
        Dispatch {
            held,
            order,
            ranks,
            others,
            made,
        }
    }

    /// The links of the network, in order of number.
    pub fn links(&self) -> &[Link]
        ensures links { result.now ≡ self.now.links }
        ensures kept { IsSlimOrWhole self.now.links self.now.made self.now.kept }
    {
        self.held.links()
    }

    /// The link that ends in a point, if there is one.
    pub fn link_to(&self, point: PointId) -> Option<Link>
        requires { point.0 < length self.now.made }
        ensures { result ≡ link_ending self.now.links point }
    {
        self.held.link_to(point)
    }

    /// The lower bounds that are kept of a point, in order of number: a point and n above 0, for n
    /// moments after that point. A contingent point has none.
    pub fn lower_bounds(&self, point: PointId) -> &[(PointId, Weight)]
        requires { point.0 < length self.now.kept }
        ensures { result.now ≡ (conditions_at self.now.kept point).lower_bounds }
    {
        self.held.conditions(point).lower_bounds.as_slice()
    }

    /// The waits that are kept of a point, in order of number: a link and n above 0, for the
    /// contingent point of the link or n moments after its activation point. A contingent point has
    /// none.
    pub fn waits(&self, point: PointId) -> &[(LinkId, Weight)]
        requires { point.0 < length self.now.kept }
        ensures { result.now ≡ (conditions_at self.now.kept point).waits }
    {
        self.held.conditions(point).waits.as_slice()
    }
}

/// The lower bounds and waits by which each point is executed, in the order of the points.
fn conditions_by(alloc: Global, net: &Network, table: &Table) -> Result<Vec<Conditions>, AllocError>
    requires { IsFor net.now table.now }
    ensures made { IfOk result (λ conditions. conditions.items ≡ dispatchable net.now table.now) }
    ensures whole { IfOk result (λ conditions. length conditions.items ≡ length net.now.points) }
{
    let lists = outgoing_of(alloc, table, net.points().len() as u32)?;
    let mut conditions = Vec::with_capacity(alloc, lists.len())?;
    for (point, outgoing) in lists.into_iter().enumerate() {
        conditions.push(conditions_of(alloc, net, PointId(point as u32), outgoing))?;
    }
    Ok(conditions)
}

/// The lower bounds and waits by which a point is executed, of those that the edges of a table give
/// it.
fn conditions_of(alloc: Global, net: &Network, point: PointId, outgoing: Outgoing) -> Conditions
    requires { IsPoint net.now point }
    ensures { (table : Graph) → IsGraph table
        → outgoing ≡ conditions_from (edges_of table) point
        → result ≡ conditions_in net.now table point }
{
    if net.is_contingent(point) {
        return no_conditions(alloc);
    }
    let Outgoing {
        lower_bounds,
        mut waits,
    } = outgoing;
    // They come in the order of the points in which their links begin.
    waits.sort_unstable_by_key(|wait| wait.0.0);
    Conditions {
        lower_bounds: Items::new(lower_bounds),
        waits: Items::new(waits),
    }
}
