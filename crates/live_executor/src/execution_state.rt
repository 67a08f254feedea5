//! The state of an execution: its moments so far, the open conditions and the expected points; and
//! time that runs from due moment to due moment.

ghost use Rattle.std.specs.Prelude.{◌≡◌, ◌<◌, ◌≤◌, None, length, replicate, find, IfOk};
ghost use Rattle.std.specs.Prelude.{IfSome};
ghost use Rattle.std.specs.Vec.{vec_capacity};
ghost use Rattle.net_model.specs.declared.ids.PointId.{PointId};
ghost use Rattle.net_model.specs.Moments.{Moments, moment_of};
ghost use Rattle.execution_model.specs.Execution.{points_of};
ghost use Rattle.execution_model.specs.Feeds.{first_overdue, is_open, last_of};
ghost use Rattle.live_executor.specs.ExecutionStates.{ExecutionSoFar, HasCapacityLeft, StandsAt};
ghost use Rattle.live_executor.specs.ExecutionStates.{MayComeAt, Comes, Executes, MakesActs, Runs};
ghost use Rattle.live_executor.specs.ExecutionStates.{RunsOut, IsLowestDue, IsFirstMoment};
ghost use Rattle.live_executor.specs.ExecutionStates.{IsFirstBefore, cleared, without_acts};
ghost use Rattle.live_executor.specs.Kept.{ExecutionGoesOn};
ghost use Rattle.live_executor.specs.Limits.{end_of_time};
ghost use Rattle.live_executor.specs.Sound.{made_setting};
ghost use Rattle.live_executor.specs.Trace.{HaveComeSince};

use crate::dispatched_network::Dispatched;
use crate::expected_points::Expected;
use crate::moments::Moments;
use crate::open_conditions::OpenConditions;
use crate::undo::take_back;
use execution_model::{Act, Why};
use net_model::PointId;
use std::alloc::{AllocError, Global};
use std::marker::Model;
use std::mem;

/// A moment that no execution reaches: above the greatest that may be fed, with space for the
/// greatest number of a network for each point.
const END_OF_TIME: u64 = 10_000_000_000_000;

/// The moments so far, the open conditions, the expected points, and the acts and points since some
/// moment. There is capacity for an act of each point. Contracts see it as how the execution
/// stands.
#[derive(Drop)]
pub(crate) struct ExecutionState {
    moments: Moments,
    open_conditions: OpenConditions,
    expected: Expected,
    acts: Vec<Act>,
    came: Vec<PointId>,
}

impl Model for ExecutionState {
    ghost use Rattle.std.specs.Vec.{vec_capacity};
    ghost use Rattle.live_executor.specs.ExecutionStates.{ExecutionSoFar, IsKeptState};

    ghost Value = { ExecutionSoFar };

    ghost view = { λ kept. record {
      moments = kept.moments;
      counts = kept.open_conditions.counts.items;
      due = kept.open_conditions.due;
      latest = kept.expected.latest;
      acts = kept.acts.items;
      came = kept.came.items;
    } };

    ghost invariant = { λ kept. IsKeptState kept.moments kept.open_conditions.counts.items
        kept.acts.items (vec_capacity kept.acts) kept.came.items (vec_capacity kept.came) };
}

impl ExecutionState {
    /// The state of a dispatchable network, of whose points none has come. `AllocError` comes only
    /// if memory is refused.
    pub(crate) fn initial(
        alloc: Global,
        dispatched: &Dispatched,
    ) -> Result<ExecutionState, AllocError>
        ensures moments { IfOk result (λ state. state.moments ≡ replicate
            (length dispatched.now.made) None) }
        ensures stands { IfOk result (λ state. StandsAt dispatched.now 0 state) }
    {
        let points = dispatched.points();
        let moments = Moments::none(alloc, points)?;
        let open_conditions = OpenConditions::initial(alloc, dispatched, &moments)?;
        let expected = Expected::initial(alloc, dispatched)?;
        let acts = Vec::with_capacity(alloc, points as usize)?;
        let came = Vec::with_capacity(alloc, points as usize)?;
        dispatched.executes_the_same();
        Ok(ExecutionState {
            moments,
            open_conditions,
            expected,
            acts,
            came,
        })
    }

    /// The moment of a point, or `None` if it has not come.
    pub(crate) fn moment_of(&self, point: PointId) -> Option<u64>
        requires { point.0 < length self.now.moments }
        ensures moment { result ≡ moment_of self.now.moments point }
        ensures early { IfSome result (λ moment. moment < end_of_time) }
    {
        self.moments.of(point)
    }

    /// Clears the lists of the acts that were made and the points that came.
    pub(crate) fn begin(&mut self)
        ensures { self.new ≡ cleared self.old }
    {
        self.acts.clear();
        self.came.clear();
    }

    /// Takes back what was done since the lists were last cleared: the moments are what they were
    /// then.
    pub(crate) fn take_back(&mut self)
        ensures { (before : Moments) → HaveComeSince before self.old.came self.old.moments
            → self.new.moments ≡ before }
    {
        take_back(&mut self.moments, self.came.as_slice());
        self.acts.clear();
        self.came.clear();
    }

    /// Gives the acts, in exchange for a list with as much capacity.
    pub(crate) fn swap_acts(&mut self, acts: &mut Vec<Act>)
        requires { length self.old.moments ≤ vec_capacity acts.old }
        ensures acts { acts.new.items ≡ self.old.acts }
        ensures spare_capacity { HasCapacityLeft self.new.moments acts.new.items
            (vec_capacity acts.new) }
        ensures state { self.new ≡ without_acts self.old }
    {
        acts.clear();
        mem::swap(&mut self.acts, acts);
    }

    /// A point gets its moment, wakes the points with conditions on it, and activates its links.
    pub(crate) fn come(&mut self, dispatched: &Dispatched, point: PointId, t: u64)
        requires stands { StandsAt dispatched.now t self.old }
        requires may { MayComeAt dispatched.now t self.old point }
        ensures { Comes dispatched.now t point self.old self.new }
    {
        self.open_conditions
            .come(dispatched, &mut self.moments, point, t);
        self.expected.come(dispatched, &self.moments, point);
        self.came.push_reserved(point);
    }

    /// Executes a point at t, and wakes the points with conditions on it.
    fn execute(&mut self, dispatched: &Dispatched, point: PointId, t: u64)
        requires stands { StandsAt dispatched.now t self.old }
        requires may { MayComeAt dispatched.now t self.old point }
        ensures { Executes dispatched.now t point self.old self.new }
    {
        // The proof reads here how much capacity there is before the point comes.
        let _ = &self.acts;
        self.come(dispatched, point, t);
        self.acts.push_reserved(Act { moment: t, point });
    }

    /// The lowest point that is due at t, or `None` if none is; no point was due before.
    fn due_at(&self, t: u64) -> Option<PointId>
        ensures { IsLowestDue self.now.due t result }
    {
        match self.open_conditions.due.first() {
            Some((moment, point)) if moment <= t => Some(point),
            _ => None,
        }
    }

    /// Makes the acts of t, the lowest point first.
    pub(crate) fn act(&mut self, dispatched: &Dispatched, t: u64)
        requires stands { StandsAt dispatched.now t self.old }
        requires soon { t < end_of_time }
        ensures { MakesActs dispatched.now t self.old self.new }
    {
        dispatched.executes_the_same();
        while let Some(point) = self.due_at(t) {
            self.execute(dispatched, point, t);
        }
    }

    /// The first moment at which a point is due, or `None` if there is none.
    pub(crate) fn next_due(&self) -> Option<u64>
        ensures { IsFirstMoment self.now.due result }
    {
        let (moment, _) = self.open_conditions.due.first()?;
        Some(moment)
    }

    /// The first moment before another at which a point is due, or `None` if there is none.
    fn next_before(&self, until: u64) -> Option<u64>
        ensures { IsFirstBefore self.now.due until result }
    {
        self.next_due().filter(|moment| *moment < until)
    }

    /// Lets time run from a moment to the one before another, from due moment to due moment, and
    /// makes the acts.
    pub(crate) fn run(&mut self, dispatched: &Dispatched, from: u64, until: u64)
        requires stands { StandsAt dispatched.now from self.old }
        requires range { from ≤ until }
        requires soon { until ≤ end_of_time }
        ensures { Runs dispatched.now from until self.old self.new }
    {
        dispatched.executes_the_same();
        while let Some(moment) = self.next_before(until) {
            self.act(dispatched, moment);
        }
    }

    /// Makes all acts that are left, if no contingent point is open.
    pub(crate) fn run_out(&mut self, dispatched: &Dispatched, from: u64)
        requires goes_on { ExecutionGoesOn dispatched.now from self.old }
        requires closed { find (is_open (made_setting dispatched.now) self.old.moments)
            (points_of (made_setting dispatched.now)) ≡ None }
        ensures { RunsOut dispatched.now from self.old self.new }
    {
        // The proof reads here that whatever is executed comes to its end.
        let _ = dispatched.points();
        dispatched.executes_the_same();
        dispatched.comes_to_its_end();
        self.begin();
        self.run(dispatched, from, END_OF_TIME);
    }

    /// The lowest point that should have completed by a moment, if there is one, as a refusal.
    pub(crate) fn first_overdue(&self, dispatched: &Dispatched, moment: u64) -> Option<Why>
        requires { StandsAt dispatched.now moment self.now }
        ensures { result ≡ first_overdue (made_setting dispatched.now) self.now.moments moment }
    {
        self.expected
            .first_overdue(dispatched, &self.moments, moment)
    }

    /// The moment of the last act, or another if there is none.
    pub(crate) fn last_act(&self, last: Option<u64>) -> Option<u64>
        ensures { result ≡ last_of last self.now.acts }
    {
        let mut latest = last;
        for act in &self.acts {
            latest = Some(act.moment);
        }
        latest
    }
}
