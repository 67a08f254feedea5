//! The closure of a network, and the order of its points.

ghost use Rattle.std.specs.Prelude.{◌≤◌, IfOk};
ghost use Rattle.network_closure.specs.Saturation.{ClosesTo};

use crate::dense_copies::{dense_of, lower_to_dense};
use crate::relaxation::relax_depth_first;
use crate::sequence::Sequence;
use crate::shared_test::unsaturated;
use labelled_graph::Table;
use loop_finder::{Found, order};
use net_model::{Items, Network, PointId};
use std::alloc::{AllocError, Global};
use std::thread::Threads;

/// The closed table of a network, and the order of its points.
#[derive(Debug, Drop)]
pub struct Closed {
    /// The closure: for each key its least derivable weight.
    pub table: Table,
    /// Each point once; each negative ordinary edge of the table goes from a later point to an
    /// earlier one.
    pub order: Items<PointId>,
}

/// The closure of a network (Morris and Muscettola 2005, in this project's form) and the order of
/// its points, or `None` exactly if a cycle of negative ordinary edges is derivable. A table is
/// relaxed with derivable edges, target by target, depth first (Morris 2014), and then tested by so
/// many workers: it has whatever follows from it, at a weight that is no greater. The order is that
/// of the reference rounds (`placed_points`). The answer is the same for every number of workers,
/// at least one, since the closure and this order are. `AllocError` comes only for want of memory.
///
/// In which order the table is relaxed, and how much is left when it is tested, no clause says: it
/// is lowered by derivable edges alone, and the closure is answered only if the test finds nothing
/// left. That the search before the test ends is proved without a count of its turns: each turn
/// leaves less to do (`Progress`), since it finishes a row, begins one, or takes a queued key, and
/// a key is queued only if its weight improved or its row begins.
pub fn close<R: Threads + Sync>(
    rt: &R,
    alloc: Global,
    net: &Network,
    workers: u32,
) -> Result<Option<Closed>, AllocError>
    requires { 1 ≤ workers }
    ensures { IfOk result (ClosesTo net.now) }
{
    let points = net.points().len() as u32;
    let mut table = Table::of(alloc, net)?;
    let dense = dense_of(alloc, net, &table)?;
    let mut dense = relax_depth_first(alloc, net, dense)?;
    loop {
        lower_to_dense(alloc, &mut table, net, &dense)?;
        match order(alloc, &table, points)? {
            Found::Cycle(_) => return Ok(None),
            Found::Order(order) => {
                let sequence = Sequence {
                    points: order.as_slice(),
                    is_order: true,
                };
                match unsaturated(rt, alloc, &dense, net, sequence, workers)? {
                    None => return Ok(Some(Closed { table, order })),
                    Some(edge) => {
                        dense.lower_to(&edge);
                    }
                }
            }
        }
    }
}
