//! A loop, listed from its lowest point on.

ghost use Rattle.std.specs.Prelude.{◌<◌, length, IfOk};
ghost use Rattle.std.specs.List.{All};
ghost use Rattle.earliest_times.specs.Least.{IsLoop, IsLowestAt, IsLoopFromLowest};
ghost use Rattle.earliest_times.specs.FirstLoops.{IsTurnedToLowest};

use net_model::Edge;
use std::alloc::{AllocError, Global};

/// A loop from its lowest point on, the one of least number.
pub(crate) fn from_lowest(
    alloc: Global,
    edges: &[Edge],
    walk: &[usize],
) -> Result<Vec<usize>, AllocError>
    requires { IsLoop edges.now walk.now }
    ensures from_lowest { IfOk result (λ turned. IsLoopFromLowest edges.now turned.items) }
    ensures turned { IfOk result (λ turned. IsTurnedToLowest edges.now walk.now turned.items) }
{
    let first = lowest(edges, walk);
    let mut turned = Vec::from_slice(alloc, &walk[first..])?;
    turned.extend_from_slice(&walk[..first])?;
    Ok(turned)
}

/// The place in a walk of the edge that begins in its lowest point.
fn lowest(edges: &[Edge], walk: &[usize]) -> usize
    requires within { All (λ place. place < length edges.now) walk.now }
    requires some { 0 < length walk.now }
    ensures { IsLowestAt edges.now walk.now result }
{
    let mut lowest = 0;
    for at in 1..walk.len() {
        if edges[walk[at]].from.0 < edges[walk[lowest]].from.0 {
            lowest = at;
        }
    }
    lowest
}
