//! The stored lists of lower bounds and waits by which each point is executed.

ghost use Rattle.std.specs.Prelude.{◌≡◌, ◌<◌, ◌==◌, find, length, slice_set, IfOk};
ghost use Rattle.std.specs.List.{All};
ghost use Rattle.net_model.specs.Network.{IsPoint};
ghost use Rattle.net_model.specs.declared.part.Link.{Link};
ghost use Rattle.dispatch_net.specs.Dispatchable.{conditions_at, no_conditions};
ghost use Rattle.dispatch_net.specs.Held.{AreInOrder, AreEnds, link_ending};

use crate::dispatch::Conditions;
use net_model::{Items, Link, Network, PointId, Weight};
use std::alloc::{AllocError, Global};
use std::marker::Model;
use std::mem;

/// The links of a network, and the lower bounds and waits by which each point is executed. The link
/// that ends in a point is stored for each point.
#[derive(Debug, Drop)]
pub(crate) struct Held {
    pub(crate) links: Vec<Link>,
    pub(crate) ends: Vec<Option<Link>>,
    pub(crate) lists: Vec<Conditions>,
}

impl Model for Held {
    ghost use Rattle.dispatch_net.specs.Held.{HeldLists, AreHeldLists};

    ghost Value = { HeldLists };

    ghost view = { λ held. record { links = held.links.items; lists = held.lists.items } };

    ghost invariant = { λ held. AreHeldLists held.links.items held.ends.items held.lists.items };
}

impl Held {
    /// The lists that were made for a network. `AllocError` comes only if memory is refused.
    pub(crate) fn new(
        alloc: Global,
        net: &Network,
        lists: Vec<Conditions>,
    ) -> Result<Held, AllocError>
        requires in_order { All AreInOrder lists.items }
        requires whole { length lists.items ≡ length net.now.points }
        ensures { IfOk result (λ held. held ≡ record {
          links = net.now.links;
          lists = lists.items;
        }) }
    {
        let ends = ends_of(alloc, net)?;
        let links = Vec::from_slice(alloc, net.links())?;
        Ok(Held { links, ends, lists })
    }

    /// The links, in order of number.
    pub(crate) fn links(&self) -> &[Link]
        ensures { result.now ≡ self.now.links }
    {
        self.links.as_slice()
    }

    /// The link that ends in a point.
    pub(crate) fn link_to(&self, point: PointId) -> Option<Link>
        requires { point.0 < length self.now.lists }
        ensures { result ≡ link_ending self.now.links point }
    {
        self.ends[point.0 as usize]
    }

    /// The lower bounds and waits by which a point is executed.
    pub(crate) fn conditions(&self, point: PointId) -> &Conditions
        requires { point.0 < length self.now.lists }
        ensures { result.now ≡ conditions_at self.now.lists point }
    {
        &self.lists[point.0 as usize]
    }

    /// Takes out the lower bounds and waits by which a point is executed.
    pub(crate) fn take(&mut self, point: PointId) -> Conditions
        requires { point.0 < length self.old.lists }
        ensures taken { result ≡ conditions_at self.old.lists point }
        ensures in_order { AreInOrder result }
        ensures links { self.new.links ≡ self.old.links }
        ensures left { self.new.lists ≡ slice_set self.old.lists point.0 no_conditions }
    {
        let none = no_conditions(*self.lists.allocator());
        mem::replace(&mut self.lists[point.0 as usize], none)
    }

    /// Puts back the lower bounds and waits by which a point is executed.
    pub(crate) fn put(&mut self, point: PointId, conditions: Conditions)
        requires within { point.0 < length self.old.lists }
        requires in_order { AreInOrder conditions }
        ensures links { self.new.links ≡ self.old.links }
        ensures lists { self.new.lists ≡ slice_set self.old.lists point.0 conditions }
    {
        self.lists[point.0 as usize] = conditions;
    }
}

/// No lower bounds and no waits.
pub(crate) fn no_conditions(alloc: Global) -> Conditions
    ensures { result ≡ no_conditions }
{
    Conditions {
        lower_bounds: Items::new(Vec::new(alloc)),
        waits: Items::new(Vec::new(alloc)),
    }
}

/// The link that ends in a point.
fn link_to(net: &Network, point: PointId) -> Option<Link>
    requires { IsPoint net.now point }
    ensures { result ≡ link_ending net.now.links point }
{
    let link = net.activation(point)?;
    Some(net.links()[link.0 as usize])
}

/// For each of the points of a network the link that ends in it.
fn ends_of(alloc: Global, net: &Network) -> Result<Vec<Option<Link>>, AllocError>
    ensures { IfOk result (λ ends. AreEnds net.now.links (length net.now.points) ends.items) }
{
    let count = net.points().len() as u32;
    let mut ends = Vec::with_capacity(alloc, count as usize)?;
    for point in 0..count {
        ends.push(link_to(net, PointId(point)))?;
    }
    Ok(ends)
}
