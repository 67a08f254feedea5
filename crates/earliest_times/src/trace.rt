//! The loop of edges behind a point that was raised too often.

ghost use Rattle.std.specs.Prelude.{◌≡◌, ◌==◌, ◌<◌, ◌+◌, ◌-◌, [], ℕ, List, length, drop, ◌≤◌, IfOk};
ghost use Rattle.std.specs.Prelude.{None, Some, is_some};
ghost use Rattle.std.specs.List.{All, position, slice_index_or};
ghost use Rattle.std.specs.Option.{IsSome};
ghost use Rattle.earliest_times.specs.Rounds.{edge_at_place};
ghost use Rattle.earliest_times.specs.History.{IsHistory, AreWithin};
ghost use Rattle.earliest_times.specs.Least.{IsLoop};
ghost use Rattle.earliest_times.specs.FirstLoops.{IsLoopOfFirstWalk};

use net_model::{Edge, Items, PointId};
use std::alloc::{AllocError, Global};

/// The place in a walk of the first edge that begins in a point.
fn place_of(edges: &[Edge], walk: &[usize], point: PointId) -> Option<usize>
    requires { All (λ place. place < length edges.now) walk.now }
    ensures { result ≡ position (λ place. (edge_at_place edges.now place).from.0 == point.0)
        walk.now }
{
    walk.iter().position(|place| edges[*place].from == point)
}

/// A loop of edges that raised points, traced back from the first point that was raised in the last
/// of one round more than there are points. The edge that raised a point in a round ends in a point
/// that was raised in the round before; so they are the first shortest walk from that point.
pub(crate) fn trace(
    alloc: Global,
    edges: &[Edge],
    points: usize,
    levels: &[Items<Option<usize>>],
    start: PointId,
) -> Result<Vec<usize>, AllocError>
    requires history { (now : List ℕ) × IsHistory edges.now points levels.now now }
    requires within { AreWithin points edges.now }
    requires many { length levels.now ≡ points + 1 }
    requires start { start.0 < points }
    requires raised { IsSome (slice_index_or (slice_index_or levels.now (length levels.now - 1) [])
        start.0 None) }
    requires first { position (λ by. is_some by) (slice_index_or levels.now points [])
        ≡ Some start.0 }
    ensures is_loop { IfOk result (λ walk. IsLoop edges.now walk.items) }
    ensures is_first { IfOk result (λ walk. IsLoopOfFirstWalk points edges.now walk.items) }
{
    let mut walk = Vec::new(alloc);
    let mut point = start;
    let mut left = levels.len();
    while left > 0 {
        if let Some(first) = place_of(edges, walk.as_slice(), point) {
            return part_from(alloc, walk.as_slice(), first);
        }
        left -= 1;
        let place = levels[left].as_slice()[point.0 as usize].unwrap();
        walk.push(place)?;
        point = edges[place].to;
    }
    Ok(walk)
}

/// A walk from a step on.
fn part_from(alloc: Global, walk: &[usize], first: usize) -> Result<Vec<usize>, AllocError>
    requires { first ≤ length walk.now }
    ensures { IfOk result (λ part. part.items ≡ drop first walk.now) }
{
    Vec::from_slice(alloc, &walk[first..])
}
