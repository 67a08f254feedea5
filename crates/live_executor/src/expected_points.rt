//! The contingent points that are expected to complete.

ghost use Rattle.std.specs.Prelude.{◌≡◌, ◌<◌, true, length, replicate, IfOk, None};
ghost use Rattle.net_model.specs.declared.ids.PointId.{PointId};
ghost use Rattle.execution_model.specs.Execution.{has_come};
ghost use Rattle.execution_model.specs.Feeds.{first_overdue};
ghost use Rattle.live_executor.specs.ExpectedPoints.{AreLatest, IsLatestOrKept};
ghost use Rattle.live_executor.specs.Sound.{made_setting};

use crate::dispatched_network::Dispatched;
use crate::moments::Moments;
use execution_model::Why;
use net_model::PointId;
use std::alloc::{AllocError, Global};
use tournament_queue::DueQueue;

/// The contingent points that are active and have not completed, by the latest moments at which
/// they may.
#[derive(Drop)]
pub(crate) struct Expected {
    pub(crate) latest: DueQueue,
}

impl Expected {
    /// The expected points of a network of whose points none has come. `AllocError` comes only if
    /// memory is refused.
    pub(crate) fn initial(alloc: Global, dispatched: &Dispatched) -> Result<Expected, AllocError>
        ensures { IfOk result (λ expected. AreLatest dispatched.now.setting
            (replicate (length dispatched.now.setting.dispatch) None) expected.latest) }
    {
        let latest = DueQueue::new(alloc, dispatched.points())?;
        Ok(Expected { latest })
    }

    /// A point has come: it is no longer expected, and those that it activates are from now on.
    pub(crate) fn come(&mut self, dispatched: &Dispatched, moments: &Moments, point: PointId)
        requires point { point.0 < length dispatched.now.setting.dispatch }
        requires moments { length moments.now ≡ length dispatched.now.setting.dispatch }
        requires count { length self.old.latest ≡ length dispatched.now.setting.dispatch }
        requires come { has_come moments.now point ≡ true }
        ensures each { (other : PointId)
            → IsLatestOrKept dispatched.now.setting moments.now point self.old.latest
            self.new.latest other }
        ensures count { length self.new.latest ≡ length self.old.latest }
    {
        self.latest.set(point, None);
        for other in dispatched.activated(point) {
            let latest = dispatched.latest_of(moments, *other);
            self.latest.set(*other, latest);
        }
    }

    /// The lowest point that should have completed by a moment, if there is one, as a refusal. If
    /// there is none it takes constant time.
    pub(crate) fn first_overdue(
        &self,
        dispatched: &Dispatched,
        moments: &Moments,
        moment: u64,
    ) -> Option<Why>
        requires latest { AreLatest dispatched.now.setting moments.now self.now.latest }
        requires count { length moments.now ≡ length dispatched.now.setting.dispatch }
        ensures { result ≡ first_overdue (made_setting dispatched.now) moments.now moment }
    {
        // The proof reads here how many points there are.
        let _ = dispatched.points();
        let (latest, _) = self.latest.first()?;
        if moment < latest {
            return None;
        }
        lowest_overdue(dispatched, moments, moment)
    }
}

/// The lowest point that should have completed by a moment, if there is one, as a refusal: of all
/// points.
fn lowest_overdue(dispatched: &Dispatched, moments: &Moments, moment: u64) -> Option<Why>
    requires { length moments.now ≡ length dispatched.now.setting.dispatch }
    ensures { result ≡ first_overdue (made_setting dispatched.now) moments.now moment }
{
    for number in 0..dispatched.points() {
        let point = PointId(number);
        if let Some(latest) = dispatched.latest_of(moments, point) {
            if latest <= moment {
                return Some(Why::Overdue(point, latest));
            }
        }
    }
    None
}
