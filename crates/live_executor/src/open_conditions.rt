//! The open conditions of the points, and from when on each is due.

ghost use Rattle.std.specs.Prelude.{◌≡◌, ◌+◌, ◌<◌, ◌≤◌, ℕ, None, IfSome, IfOk, length, replicate};
ghost use Rattle.std.specs.Prelude.{slice_index, slice_set};
ghost use Rattle.std.specs.List.{All};
ghost use Rattle.dispatch_net.specs.Dispatchable.{conditions_at};
ghost use Rattle.net_model.specs.declared.ids.PointId.{PointId};
ghost use Rattle.net_model.specs.Moments.{moment_of};
ghost use Rattle.execution_model.specs.Execution.{is_due};
ghost use Rattle.execution_model.specs.Feeds.{completed_at};
ghost use Rattle.live_executor.specs.Due.{holds_from, PassesFrom};
ghost use Rattle.live_executor.specs.Limits.{end_of_time};
ghost use Rattle.live_executor.specs.WokenPoints.{times, condition_count, PassesSince, IsAwake};
ghost use Rattle.live_executor.specs.WokenPoints.{IsFoundOrKept};

use crate::dispatched_network::Dispatched;
use crate::moments::Moments;
use net_model::PointId;
use std::alloc::{AllocError, Global};
use tournament_queue::DueQueue;

/// For each point how many of its lower bounds and waits are open; and the points that have none
/// open, by the moments from which on they are due.
#[derive(Drop)]
pub(crate) struct OpenConditions {
    pub(crate) counts: Vec<usize>,
    pub(crate) due: DueQueue,
    ghost whole: { length due ≡ length counts.items },
}

impl OpenConditions {
    /// The open conditions of so many points, of which nothing is known. `AllocError` comes only if
    /// memory is refused.
    fn new(alloc: Global, points: u32) -> Result<OpenConditions, AllocError>
        ensures { IfOk result (λ open_conditions. length open_conditions.counts.items ≡ points) }
    {
        let counts = vec![in alloc; 0; points as usize]?;
        let due = DueQueue::new(alloc, points)?;
        Ok(OpenConditions { counts, due })
    }

    /// The open conditions of a dispatchable network, of whose points none has come. `AllocError`
    /// comes only if memory is refused.
    pub(crate) fn initial(
        alloc: Global,
        dispatched: &Dispatched,
        moments: &Moments,
    ) -> Result<OpenConditions, AllocError>
        requires { moments.now ≡ replicate (length dispatched.now.setting.dispatch) None }
        ensures { IfOk result (λ open_conditions. IsAwake dispatched.now.setting 0 moments.now
            open_conditions.counts.items open_conditions.due) }
    {
        let mut open_conditions = OpenConditions::new(alloc, dispatched.points())?;
        for point in 0..dispatched.points() {
            open_conditions.find(dispatched, moments, PointId(point));
        }
        Ok(open_conditions)
    }

    /// Counts the lower bounds and waits of a point, and finds from when on it is due.
    fn find(&mut self, dispatched: &Dispatched, moments: &Moments, point: PointId)
        requires point { point.0 < length dispatched.now.setting.dispatch }
        requires moments { length moments.now ≡ length dispatched.now.setting.dispatch }
        requires count { length self.old.counts.items ≡ length dispatched.now.setting.dispatch }
        ensures counts { self.new.counts.items ≡ slice_set self.old.counts.items point.0
            (condition_count (conditions_at dispatched.now.setting.dispatch point)) }
        ensures due { self.new.due ≡ slice_set self.old.due point.0 (moment_of self.new.due point) }
        ensures found { PassesFrom (λ t. is_due dispatched.now.setting moments.now t point)
            (moment_of self.new.due point) }
    {
        self.counts[point.0 as usize] = dispatched.condition_count(point);
        self.due.set(point, dispatched.due_from(moments, point));
    }

    /// Counts one condition less for each time that a point stands in the list.
    fn lower(&mut self, waiters: &[PointId])
        requires inside { All (λ (point : PointId). point.0 < length self.old.counts.items)
            waiters.now }
        requires enough { (point : PointId)
            → times waiters.now point ≤ slice_index self.old.counts.items point.0 }
        ensures each { (point : PointId)
            → slice_index self.new.counts.items point.0 + times waiters.now point ≡ slice_index
            self.old.counts.items point.0 }
        ensures count { length self.new.counts.items ≡ length self.old.counts.items }
        ensures due { self.new.due ≡ self.old.due }
    {
        for waiter in waiters {
            self.counts[waiter.0 as usize] -= 1;
        }
    }

    /// Finds from when on a point is due.
    fn wake(&mut self, dispatched: &Dispatched, moments: &Moments, now: u64, point: PointId)
        requires point { point.0 < length dispatched.now.setting.dispatch }
        requires moments { length moments.now ≡ length dispatched.now.setting.dispatch }
        requires due { length self.old.counts.items ≡ length dispatched.now.setting.dispatch }
        ensures due { self.new.due ≡ slice_set self.old.due point.0 (moment_of self.new.due point) }
        ensures found { PassesSince now (λ t. is_due dispatched.now.setting moments.now t point)
            (moment_of self.new.due point) }
        ensures counts { self.new.counts.items ≡ self.old.counts.items }
    {
        let first = since(dispatched.due_from(moments, point), now);
        self.due.set(point, first);
    }

    /// Wakes those points of a list that have no open condition.
    fn wake_all(
        &mut self,
        dispatched: &Dispatched,
        moments: &Moments,
        now: u64,
        waiters: &[PointId],
    )
        requires inside { All (λ (point : PointId). point.0 < length
            dispatched.now.setting.dispatch) waiters.now }
        requires moments { length moments.now ≡ length dispatched.now.setting.dispatch }
        requires counts { length self.old.counts.items ≡ length dispatched.now.setting.dispatch }
        ensures each { (point : PointId)
            → IsFoundOrKept now dispatched.now.setting moments.now self.old.counts.items
            waiters.now self.old.due self.new.due point }
        ensures counts { self.new.counts.items ≡ self.old.counts.items }
    {
        for waiter in waiters {
            if self.counts[waiter.0 as usize] == 0 {
                self.wake(dispatched, moments, now, *waiter);
            }
        }
    }

    /// A point gets its moment: the conditions that it fixes are no longer open, and a point with
    /// none open is due from a known moment on.
    pub(crate) fn come(
        &mut self,
        dispatched: &Dispatched,
        moments: &mut Moments,
        point: PointId,
        moment: u64,
    )
        requires awake { IsAwake dispatched.now.setting moment moments.old self.old.counts.items
            self.old.due }
        requires new { moment_of moments.old point ≡ None }
        requires point { point.0 < length dispatched.now.setting.dispatch }
        requires early { moment < end_of_time }
        ensures moments { moments.new ≡ completed_at moments.old moment point }
        ensures awake { IsAwake dispatched.now.setting moment moments.new self.new.counts.items
            self.new.due }
    {
        moments.set(point, moment);
        self.due.set(point, None);
        let fixes = dispatched.fixes(point);
        let ends = dispatched.ends(point);
        self.lower(fixes);
        self.wake_all(dispatched, moments, moment, fixes);
        self.wake_all(dispatched, moments, moment, ends);
    }
}

/// No earlier than now: as a moment from which on something holds, it says the same of the moments
/// from now on.
fn since(first: Option<u64>, now: u64) -> Option<u64>
    ensures same { (t : ℕ) → now ≤ t → holds_from first t ≡ holds_from result t }
    ensures later { IfSome result (λ moment. now ≤ moment) }
{
    match first {
        Some(moment) => Some(moment.max(now)),
        None => None,
    }
}
