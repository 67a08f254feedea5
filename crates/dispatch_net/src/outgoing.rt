//! The negative edges of a table by the points in which they begin: the lower bounds and waits that
//! they give each point.

ghost use Rattle.std.specs.Prelude.{◌≡◌, ◌<◌, ◌++◌, List, length, IfOk, OnOk, replicate};
ghost use Rattle.net_model.specs.Limits.{IsWeight};
ghost use Rattle.net_model.specs.declared.part.Edge.{Edge};
ghost use Rattle.closure_model.specs.Tables.{edges_of, row_of, IsGraph};
ghost use Rattle.dispatch_net.specs.Dispatchable.{no_conditions};
ghost use Rattle.dispatch_net.specs.Outgoing.{with_edge, AreOutgoing};

use labelled_graph::Table;
use net_model::{Edge, LinkId, PointId, Weight};
use std::alloc::{AllocError, Global};
use std::marker::Model;

/// The lower bounds and waits of a point while they are gathered, seen as their lists.
#[derive(Debug, Drop)]
pub(crate) struct Outgoing {
    pub(crate) lower_bounds: Vec<(PointId, Weight)>,
    pub(crate) waits: Vec<(LinkId, Weight)>,
}

impl Model for Outgoing {
    ghost use Rattle.dispatch_net.specs.declared.dispatch.Conditions.{Conditions};

    ghost Value = { Conditions };

    ghost view = { λ outgoing. record {
      lower_bounds = outgoing.lower_bounds.items;
      waits = outgoing.waits.items;
    } };
}

impl Outgoing {
    fn none(alloc: Global) -> Outgoing
        ensures { result ≡ no_conditions }
    {
        Outgoing {
            lower_bounds: Vec::new(alloc),
            waits: Vec::new(alloc),
        }
    }

    /// The lower bound or wait of one edge more, if its weight is negative.
    fn push(&mut self, edge: &Edge) -> Result<(), AllocError>
        requires { IsWeight edge.now.weight }
        ensures { OnOk result (self.new ≡ with_edge edge.now self.old) }
    {
        if edge.weight >= 0 {
            return Ok(());
        }
        let n = -edge.weight;
        match edge.label {
            None => self.lower_bounds.push((edge.to, n))?,
            Some(label) => self.waits.push((label, n))?,
        }
        Ok(())
    }
}

/// For each of the points of a table the lower bounds and waits that its edges give, in the order
/// of their keys. It reads each entry of the table once.
pub(crate) fn outgoing_of(
    alloc: Global,
    table: &Table,
    points: u32,
) -> Result<Vec<Outgoing>, AllocError>
    requires { points ≡ table.now.shape.points }
    ensures lists { IfOk result (λ lists. AreOutgoing points (edges_of table.now) lists.items) }
    ensures sound { IsGraph table.now }
{
    table.sound();
    let mut lists = no_outgoing(alloc, points)?;
    for to in 0..points {
        push_row(lists.as_mut_slice(), table, PointId(to))?;
    }
    Ok(lists)
}

/// Empty lists for so many points.
fn no_outgoing(alloc: Global, points: u32) -> Result<Vec<Outgoing>, AllocError>
    ensures { IfOk result (λ lists. lists.items ≡ replicate points no_conditions) }
{
    let mut lists = Vec::new(alloc);
    for _point in 0..points {
        lists.push(Outgoing::none(alloc))?;
    }
    Ok(lists)
}

/// Adds what the edges that end in a point give those in which they begin.
fn push_row(lists: &mut [Outgoing], table: &Table, to: PointId) -> Result<(), AllocError>
    requires to_point { to.0 < table.now.shape.points }
    requires count { length lists.old ≡ table.now.shape.points }
    ensures { OnOk result ((edges : List Edge) → AreOutgoing (length lists.old) edges lists.old
        → AreOutgoing (length lists.old) (edges ++ row_of table.now to) lists.new) }
{
    let entries = table.entries(to);
    for entry in entries {
        lists[entry.from.0 as usize].push(&entry.edge_into(to))?;
    }
    Ok(())
}
