//! Rounds that raise points along edges.

ghost use Rattle.std.specs.Prelude.{◌≡◌, ◌<◌, ◌≤◌, ◌^◌, ℕ, length, unsigned_abs, IfOk};
ghost use Rattle.std.specs.List.{All};
ghost use Rattle.earliest_times.specs.Rounds.{required_moment, IsRoundOver};

use net_model::Edge;
use std::alloc::{AllocError, Global};

/// What a round makes: the moments after it, and for each point the place of the edge that raised
/// it, if one did.
#[derive(Debug, Drop)]
pub(crate) struct RoundResult {
    pub(crate) after: Vec<u64>,
    pub(crate) raised: Vec<Option<usize>>,
}

/// How late an edge requires its first point to be.
fn required_moment(before: &[u64], edge: &Edge) -> u64
    requires to { edge.now.to.0 < length before.now }
    requires small { All (λ moment. moment < 2 ^ 62) before.now }
    requires size { unsigned_abs edge.now.weight < 2 ^ 62 }
    ensures { result ≡ required_moment before.now edge.now }
{
    let to = before[edge.to.0 as usize];
    let size = edge.weight.unsigned_abs();
    if edge.weight < 0 {
        to + size
    } else {
        to.saturating_sub(size)
    }
}

/// Raises each point as far as the moments before require.
pub(crate) fn raise(
    alloc: Global,
    edges: &[Edge],
    before: &[u64],
) -> Result<RoundResult, AllocError>
    requires inside { All (λ edge. (edge.from.0 < length before.now)
        × (edge.to.0 < length before.now)) edges.now }
    requires small { All (λ moment. moment < 2 ^ 62) before.now }
    requires sizes { All (λ edge. unsigned_abs edge.weight < 2 ^ 62) edges.now }
    ensures { IfOk result (λ round. IsRoundOver edges.now
        (length edges.now) before.now round.after.items round.raised.items) }
{
    let mut after = Vec::from_slice(alloc, before)?;
    let mut raised = vec![in alloc; None; before.len()]?;
    for (place, edge) in edges.iter().enumerate() {
        let required_moment = required_moment(before, edge);
        let from = edge.from.0 as usize;
        if after[from] < required_moment {
            after[from] = required_moment;
            raised[from] = Some(place);
        }
    }
    Ok(RoundResult { after, raised })
}
