//! Whether a schedule satisfies a network.

ghost use Rattle.std.specs.Prelude.{◌≡◌, ◌<◌, ◌↔◌, length, IsTrue};
ghost use Rattle.strategy_model.specs.Situations.{Keeps, Satisfies};

use crate::Schedule;
use net_model::{Bound, Network};

/// Whether a schedule satisfies a network, that is keeps each of its bounds. It has one moment for
/// each point. It takes no memory.
pub fn satisfies(schedule: &Schedule, net: &Network) -> bool
    requires { length schedule.now.items ≡ length net.now.points }
    ensures { IsTrue result ↔ Satisfies net.now schedule.now.items }
{
    for bound in net.bounds() {
        if !keeps(schedule.as_slice(), bound) {
            return false;
        }
    }
    true
}

/// Whether a schedule keeps a bound between two of its points.
fn keeps(schedule: &[u64], bound: &Bound) -> bool
    requires from { bound.now.from.0 < length schedule.now }
    requires to { bound.now.to.0 < length schedule.now }
    ensures { IsTrue result ↔ Keeps schedule.now bound.now }
{
    let from = i128::from(schedule[bound.from.0 as usize]);
    let to = i128::from(schedule[bound.to.0 as usize]);
    to - from <= i128::from(bound.most)
}
