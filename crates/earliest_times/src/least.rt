//! The least moments that keep edges, or a loop of negative total.

ghost use Rattle.std.specs.Prelude.{◌≡◌, ◌≤◌, ◌<◌, ℕ, length, unsigned_abs, is_some, IfOk};
ghost use Rattle.std.specs.List.{All, position};
ghost use Rattle.earliest_times.specs.History.{AreWithin};
ghost use Rattle.earliest_times.specs.FirstLoops.{FindsLeast};

use crate::rounds::raise;
use crate::trace::trace;
use crate::turn::from_lowest;
use net_model::{Edge, Items, PointId};
use std::alloc::{AllocError, Global};

/// What is found of edges.
#[derive(Debug, Drop)]
pub enum MomentsOrLoop {
    /// The least moments that keep them, one for each point.
    Moments(Items<u64>),
    /// The places of edges that are a closed walk of negative total, in which no point comes twice,
    /// from its point of least number on: the first loop on the first shortest walk of more edges
    /// than there are points.
    Loop(Items<usize>),
}

/// The least moments that keep edges (`to - from <= weight` for each) between so many points, at
/// most 2,000, one for each: no others that keep them have a point sooner. Or a loop of edges of
/// negative total; such a loop excludes moments that keep the edges (`law_loops_exclude_schedules`
/// of strategy_model), so it comes exactly if there are none. Which loop comes, if there are
/// several, the edges in their order tell (`law_first_loop_is_one`). Weights are at most
/// 5,000,000,000,000 moments in size. It makes at most one round over the edges more than there are
/// points, which is a count in its body and no clause. `AllocError` comes only for want of memory.
pub fn least_moments(
    alloc: Global,
    points: usize,
    edges: &[Edge],
) -> Result<MomentsOrLoop, AllocError>
    requires few { points ≤ 2000 }
    requires within { AreWithin points edges.now }
    requires sizes { All (λ edge. unsigned_abs edge.weight ≤ 5000000000000) edges.now }
    ensures { IfOk result (FindsLeast points edges.now) }
{
    let mut now = vec![in alloc; 0; points]?;
    let mut levels = Vec::new(alloc);
    for _ in 0..points + 1 {
        let made = raise(alloc, edges, now.as_slice())?;
        if first_raised(made.raised.as_slice()).is_none() {
            return Ok(MomentsOrLoop::Moments(Items::new(now)));
        }
        now = made.after;
        levels.push(Items::new(made.raised))?;
    }
    let levels = levels.as_slice();
    let start = first_raised(levels[points].as_slice()).unwrap();
    let walk = trace(alloc, edges, points, levels, PointId(start as u32))?;
    let turned = from_lowest(alloc, edges, walk.as_slice())?;
    Ok(MomentsOrLoop::Loop(Items::new(turned)))
}

/// The first point that was raised.
fn first_raised(raised: &[Option<usize>]) -> Option<usize>
    ensures { result ≡ position (λ by. is_some by) raised.now }
{
    raised.iter().position(|by| by.is_some())
}
