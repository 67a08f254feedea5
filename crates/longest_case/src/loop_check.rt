//! Whether edges are a closed walk of negative total: so nothing has to be known of the search for
//! them.

ghost use Rattle.std.specs.Prelude.{◌≡◌, true};
ghost use Rattle.strategy_model.specs.Edges.{IsNegativeLoop};

use net_model::{Edge, Weight};

/// Whether each of these edges begins in the point in which the one before ends, the first in that
/// in which the last ends, and their total is below 0. It may say no if the total is beyond 64
/// bits.
pub(crate) fn is_negative_loop(walk: &[Edge]) -> bool
    ensures { result ≡ true → IsNegativeLoop walk.now }
{
    let Some(first) = walk.first() else {
        return false;
    };
    let begin = first.from;
    let mut at = begin;
    let mut total: Weight = 0;
    for edge in walk {
        if edge.from != at {
            return false;
        }
        let Some(sum) = total.checked_add(edge.weight) else {
            return false;
        };
        total = sum;
        at = edge.to;
    }
    at == begin && total < 0
}
