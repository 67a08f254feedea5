//! The test of a table: whether it is closed.

ghost use Rattle.std.specs.Prelude.{◌≡◌, ◌≤◌, length, IfOk};
ghost use Rattle.network_closure.specs.RowTest.{points_below};
ghost use Rattle.network_closure.specs.Saturation.{IsPartialClosure, TestsTo};

use crate::dense_copies::dense_of;
use crate::sequence::Sequence;
use crate::shared_test::unsaturated;
use labelled_graph::Table;
use net_model::{Edge, Network, PointId};
use std::alloc::{AllocError, Global};
use std::thread::Threads;

/// An edge that follows from edges of a table and is unsaturated, if there is one: the table lacks
/// its key or has it at a greater weight. If there is none, the table is closed. The table is a
/// partial closure of the network: it has the base edges, and all its edges are derivable. So many
/// workers, at least one, share the rows, or fewer if there are few rows. It takes four bytes for
/// each key of the network while it works. `AllocError` comes only for want of memory.
pub fn unsaturated_edge<R: Threads + Sync>(
    rt: &R,
    alloc: Global,
    table: &Table,
    net: &Network,
    workers: u32,
) -> Result<Option<Edge>, AllocError>
    requires partial_closure { IsPartialClosure net.now table.now }
    requires workers { 1 ≤ workers }
    ensures { IfOk result (TestsTo net.now table.now) }
{
    let dense = dense_of(alloc, net, table)?;
    let points = all_points(alloc, net)?;
    let sequence = Sequence {
        points: points.as_slice(),
        is_order: false,
    };
    unsaturated(rt, alloc, &dense, net, sequence, workers)
}

/// The points of a network, by their numbers.
fn all_points(alloc: Global, net: &Network) -> Result<Vec<PointId>, AllocError>
    ensures { IfOk result (λ points. points.items ≡ points_below (length net.now.points)) }
{
    let mut all = Vec::new(alloc);
    for point in 0..net.points().len() as u32 {
        all.push(PointId(point))?;
    }
    Ok(all)
}
