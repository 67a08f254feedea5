//! A dense table that is relaxed.

ghost use Rattle.std.specs.Prelude.{◌≡◌, IfOk};
ghost use Rattle.network_closure.specs.Saturation.{IsPartialClosure};

use crate::dense::DenseTable;
use crate::depth_first::DepthFirst;
use crate::relaxable::Relaxable;
use net_model::{Edge, LinkId, Network, PointId, Weight};
use std::alloc::{AllocError, Global};
use std::marker::Model;

/// Relaxes a table depth first. It ends when it comes to a row in progress. That few edges or none
/// are unsaturated afterwards is tested, not proved.
pub(crate) fn relax_depth_first(
    alloc: Global,
    net: &Network,
    table: DenseTable,
) -> Result<DenseTable, AllocError>
    requires { IsPartialClosure net.now table }
    ensures { IfOk result (IsPartialClosure net.now) }
{
    let mut depth_first = DepthFirst::of(alloc, Relaxing::of(net, table))?;
    depth_first.make_all()?;
    Ok(depth_first.into_table().into_table())
}

/// A partial closure of a network, in which derivable edges are relaxed. Contracts see it as its
/// network, and how far its weights can still be lowered.
#[derive(Drop)]
struct Relaxing<'a> {
    net: &'a Network,
    table: DenseTable,
}

impl<'a> Model for Relaxing<'a> {
    ghost use Rattle.network_closure.specs.Saturation.{IsPartialClosure};
    ghost use Rattle.network_closure.specs.Progress.{Progress, relaxing_of};

    ghost Value = { Progress (Unit {0}) };

    ghost view = { λ relaxing. relaxing_of relaxing.net.now relaxing.table };

    ghost invariant = { λ relaxing. IsPartialClosure relaxing.net.now relaxing.table };
}

impl<'a> Relaxing<'a> {
    /// A table of a network, to be relaxed.
    fn of(net: &'a Network, table: DenseTable) -> Relaxing<'a>
        requires { IsPartialClosure net.now table }
        ensures { result.net ≡ net.now }
    {
        Relaxing { net, table }
    }

    /// The table as it is.
    fn into_table(self) -> DenseTable
        ensures { IsPartialClosure self.entry.net result }
    {
        self.table
    }
}

impl<'a> Relaxable for Relaxing<'a> {
    type Place = ();

    const IS_SHARED: bool = false;

    ghost progress = { λ relaxing. relaxing };

    fn net(&self) -> &Network {
        self.net
    }

    fn weight(&mut self, from: PointId, to: PointId, label: Option<LinkId>) -> Option<Weight> {
        match label {
            None => self.table.weight(from, to),
            Some(link) => self.table.upper(from, link),
        }
    }

    fn lower_to(&mut self, edge: &Edge) -> bool {
        self.table.lower_to(edge)
    }

    fn may_improve(&self, edge: &Edge, from: u32, end: u32) -> bool {
        edge.weight < 0 && self.table.improves_before(edge, from, end)
    }
}
