//! From when on lower bounds and waits are met.

ghost use Rattle.std.specs.Prelude.{◌≤◌, [], length, unsigned_abs};
ghost use Rattle.net_model.specs.Limits.{most_size};
ghost use Rattle.std.specs.List.{All, list_all};
ghost use Rattle.execution_model.specs.Execution.{meets_bound, meets_wait, meets_wait_for};
ghost use Rattle.live_executor.specs.Due.{PassesFrom};
ghost use Rattle.live_executor.specs.Sound.{IsLowerBound, IsWait, IsLinkWithin};

use crate::moments::Moments;
use net_model::{Link, LinkId, PointId, Weight};

/// The moment from which on lower bounds are met, or `None` if the point of one has no moment.
pub(crate) fn bounds_met(moments: &Moments, bounds: &[(PointId, Weight)]) -> Option<u64>
    requires { All (IsLowerBound (length moments.now)) bounds.now }
    ensures { PassesFrom (λ t. list_all (meets_bound moments.now t) bounds.now) result }
{
    let mut first = 0;
    for (point, n) in bounds {
        let moment = moments.of(*point)?;
        first = first.max(moment + n.unsigned_abs());
    }
    Some(first)
}

/// The moment from which on a wait is met, or `None` if the activation point of its link has no
/// moment.
fn wait_met(moments: &Moments, links: &[Link], wait: (LinkId, Weight)) -> Option<u64>
    requires links { All (IsLinkWithin (length moments.now)) links.now }
    requires wait { IsWait (length links.now) wait }
    ensures { PassesFrom (λ t. meets_wait (record { links = links.now; dispatch = [] }) moments.now
        t wait) result }
{
    let link = links[wait.0.0 as usize];
    let activated = moments.of(link.from)?;
    if moments.of(link.to).is_some() {
        return Some(0);
    }
    Some(activated + wait.1.unsigned_abs())
}

/// The moment from which on waits are met, or `None` if the activation point of the link of one has
/// no moment.
pub(crate) fn waits_met(
    moments: &Moments,
    links: &[Link],
    waits: &[(LinkId, Weight)],
) -> Option<u64>
    requires links { All (IsLinkWithin (length moments.now)) links.now }
    requires waits { All (IsWait (length links.now)) waits.now }
    ensures { PassesFrom (λ t. list_all
        (meets_wait (record { links = links.now; dispatch = [] }) moments.now t) waits.now) result }
{
    let mut first = 0;
    for wait in waits {
        let met = wait_met(moments, links, *wait)?;
        first = first.max(met);
    }
    Some(first)
}
