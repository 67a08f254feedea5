//! The completions of a feed, and why it is refused.

ghost use Rattle.std.specs.Prelude.{◌≡◌, ◌+◌, ◌<◌, ◌≤◌, IfSome, find, length};
ghost use Rattle.std.specs.Prelude.{unsigned_abs};
ghost use Rattle.net_model.specs.Limits.{most_size};
ghost use Rattle.execution_model.specs.Execution.{points_of};
ghost use Rattle.execution_model.specs.Feeds.{refusal_of_duration, refusal_of_completion};
ghost use Rattle.execution_model.specs.Feeds.{refusal_of, activated_before, is_open};
ghost use Rattle.live_executor.specs.ExecutionStates.{StandsAt};
ghost use Rattle.live_executor.specs.Limits.{end_of_time};
ghost use Rattle.live_executor.specs.Sound.{IsLinkWithin, made_setting};
ghost use Rattle.live_executor.specs.FeedParts.{MayBeListed, Completes};

use crate::dispatched_network::Dispatched;
use crate::execution_state::ExecutionState;
use execution_model::Why;
use net_model::{Link, PointId};

/// Why a point is refused by its link, activated at some moment, if it completes at another.
fn refusal_of_duration(moment: u64, point: PointId, link: &Link, activated: u64) -> Option<Why>
    requires link { unsigned_abs link.now.low ≤ most_size }
    requires high { unsigned_abs link.now.high ≤ most_size }
    requires early { activated < end_of_time }
    ensures { result ≡ refusal_of_duration moment point link.now activated }
{
    let earliest = activated + link.low.unsigned_abs();
    let latest = activated + link.high.unsigned_abs();
    if moment < earliest {
        Some(Why::TooSoon(point, earliest))
    } else if latest < moment {
        Some(Why::Overdue(point, latest))
    } else {
        None
    }
}

impl ExecutionState {
    /// The moment of the activation of a link, if it was before a moment.
    fn activated_before(&self, moment: u64, link: &Link) -> Option<u64>
        requires { link.now.from.0 < length self.now.moments }
        ensures moment { result ≡ activated_before self.now.moments moment link.now }
        ensures early { IfSome result (λ activated. activated < end_of_time) }
    {
        self.moment_of(link.from)
            .filter(|activated| *activated < moment)
    }

    /// Why a point is refused by its link, if it completes at a moment.
    fn refusal_over(&self, moment: u64, point: PointId, link: &Link) -> Option<Why>
        requires point { point.0 < length self.now.moments }
        requires link { IsLinkWithin (length self.now.moments) link.now }
        ensures { result ≡ refusal_of_completion self.now.moments moment point link.now }
    {
        if let Some(completed) = self.moment_of(point) {
            return Some(Why::Twice(point, completed));
        }
        match self.activated_before(moment, link) {
            Some(activated) => refusal_of_duration(moment, point, link, activated),
            None => Some(Why::NotActive(point)),
        }
    }

    /// Why a point is refused, if it completes at a moment.
    fn refusal_of(&self, dispatched: &Dispatched, moment: u64, point: PointId) -> Option<Why>
        requires stands { StandsAt dispatched.now moment self.now }
        requires point { point.0 < length dispatched.now.made }
        ensures { result ≡ refusal_of (made_setting dispatched.now) self.now.moments moment point }
    {
        // The proof reads here how many points there are.
        let _ = dispatched.points();
        match dispatched.link_to(point) {
            Some(link) => self.refusal_over(moment, point, &link),
            None => Some(Why::NotContingent(point)),
        }
    }

    /// Completes the listed points, each of which wakes the points with conditions on it, or gives
    /// the first refusal.
    pub(crate) fn complete(
        &mut self,
        dispatched: &Dispatched,
        moment: u64,
        listed: &[PointId],
    ) -> Result<(), Why>
        requires stands { StandsAt dispatched.now moment self.old }
        requires listed { MayBeListed dispatched.now moment listed.now }
        ensures { Completes dispatched.now moment listed.now result self.old self.new }
    {
        dispatched.executes_the_same();
        for point in listed {
            if let Some(why) = self.refusal_of(dispatched, moment, *point) {
                return Err(why);
            }
            self.come(dispatched, *point, moment);
        }
        Ok(())
    }

    /// The lowest contingent point that has not completed, if there is one.
    pub(crate) fn first_open(&self, dispatched: &Dispatched) -> Option<PointId>
        requires { length self.now.moments ≡ length dispatched.now.setting.dispatch }
        ensures { result ≡ find (is_open (made_setting dispatched.now) self.now.moments)
            (points_of (made_setting dispatched.now)) }
    {
        for number in 0..dispatched.points() {
            let point = PointId(number);
            if self.is_open(dispatched, point) {
                return Some(point);
            }
        }
        None
    }

    /// Whether a point is contingent and has not completed.
    fn is_open(&self, dispatched: &Dispatched, point: PointId) -> bool
        requires point { point.0 < length dispatched.now.setting.dispatch }
        requires count { length self.now.moments ≡ length dispatched.now.setting.dispatch }
        ensures { result ≡ is_open dispatched.now.setting self.now.moments point }
    {
        if self.moment_of(point).is_some() {
            return false;
        }
        dispatched.link_to(point).is_some()
    }
}
