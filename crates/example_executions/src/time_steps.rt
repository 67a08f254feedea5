//! Executions over time, moment by moment.

ghost use Rattle.std.specs.Prelude.{◌≡◌, ◌++◌, ◌-◌, ◌∷◌, [], IfOk, OnOk, map, filter};
ghost use Rattle.std.specs.Prelude.{if◌then◌else◌, Some, ◌≢◌, true, false, IsSome};
ghost use Rattle.std.specs.List.{All};
ghost use Rattle.execution_model.specs.Feeds.{started, last_of};
ghost use Rattle.net_model.specs.Moments.{moment_of};
ghost use Rattle.execution_model.specs.Execution.{is_due, acts_at, acted, time_runs, acts_while};
ghost use Rattle.execution_model.specs.declared.feed_answers.Act.{Act};

use crate::lists::{TestLists, moment_of};
use execution_model::Act;
use net_model::PointId;
use std::alloc::Global;
use std::test::Fail;

impl TestLists {
    /// The moment of a point after the acts of t.
    fn moment_after(&self, moments: &[Option<u64>], t: u64, point: PointId) -> Option<u64>
        ensures { result ≡ (if is_due self.now moments.now t point then Some t
            else moment_of moments.now point) }
    {
        if self.is_due(moments, t, point) {
            Some(t)
        } else {
            moment_of(moments, point)
        }
    }

    /// The moments after the acts of t.
    pub(crate) fn acted(
        &self,
        alloc: Global,
        moments: &[Option<u64>],
        t: u64,
    ) -> Result<Vec<Option<u64>>, Fail>
        ensures { IfOk result (λ after. after.items ≡ acted self.now moments.now t) }
    {
        let mut after = Vec::new(alloc);
        for point in self.points() {
            after.push(self.moment_after(moments, t, *point))?;
        }
        Ok(after)
    }

    fn push_act(
        &self,
        moments: &[Option<u64>],
        t: u64,
        point: PointId,
        acts: &mut Vec<Act>,
    ) -> Result<(), Fail>
        ensures { OnOk result (acts.new.items ≡ acts.old.items ++ map
            (λ point. record { moment = t; point = point })
            (filter (is_due self.now moments.now t) (point ∷ []))) }
    {
        if self.is_due(moments, t, point) {
            acts.push(Act { moment: t, point })?;
        }
        Ok(())
    }

    /// Pushes the acts of t.
    pub(crate) fn push_acts(
        &self,
        moments: &[Option<u64>],
        t: u64,
        acts: &mut Vec<Act>,
    ) -> Result<(), Fail>
        ensures { OnOk result (acts.new.items ≡ acts.old.items ++ acts_at self.now moments.now t) }
    {
        for point in self.points() {
            self.push_act(moments, t, *point, acts)?;
        }
        Ok(())
    }

    /// Lets time run from a moment to the one before another, a moment a turn, and pushes the acts.
    pub(crate) fn run(
        &self,
        alloc: Global,
        moments: &mut Vec<Option<u64>>,
        from: u64,
        until: u64,
        acts: &mut Vec<Act>,
    ) -> Result<(), Fail>
        ensures moments { OnOk result (moments.new.items ≡ time_runs self.now moments.old.items
            from (until - from)) }
        ensures acts { OnOk result (acts.new.items ≡ acts.old.items ++ acts_while self.now
            moments.old.items from (until - from)) }
    {
        for t in from..until {
            self.push_acts(moments.as_slice(), t, acts)?;
            *moments = self.acted(alloc, moments.as_slice(), t)?;
        }
        Ok(())
    }

    /// Whether some point is due at t.
    pub(crate) fn has_acts(
        &self,
        alloc: Global,
        moments: &[Option<u64>],
        t: u64,
    ) -> Result<bool, Fail>
        ensures some { IfOk result (λ has. has ≡ true → acts_at self.now moments.now t ≢ []) }
        ensures none { IfOk result (λ has. has ≡ false → acts_at self.now moments.now t ≡ []) }
    {
        let mut acts = Vec::new(alloc);
        self.push_acts(moments, t, &mut acts)?;
        Ok(!acts.is_empty())
    }

    /// The moments at which no point has come.
    pub(crate) fn no_moments(&self, alloc: Global) -> Result<Vec<Option<u64>>, Fail>
        ensures { IfOk result (λ moments. moments.items ≡ (started self.now).moments) }
    {
        let mut moments = Vec::new(alloc);
        for _point in self.points() {
            moments.push(None)?;
        }
        Ok(moments)
    }
}

/// Whether each point has a moment.
pub(crate) fn all_have_come(moments: &[Option<u64>]) -> bool
    ensures { result ≡ true → All IsSome moments.now }
{
    for moment in moments {
        if moment.is_none() {
            return false;
        }
    }
    true
}

/// The moment of the last of these acts, or the last moment if there is none.
pub(crate) fn last_of(last: Option<u64>, acts: &[Act]) -> Option<u64>
    ensures { result ≡ last_of last acts.now }
{
    let mut latest = last;
    for act in acts {
        latest = Some(act.moment);
    }
    latest
}
