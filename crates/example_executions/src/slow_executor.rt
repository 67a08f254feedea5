//! An executor that steps through every moment.

ghost use Rattle.std.specs.Prelude.{◌≡◌, ◌++◌, ◌-◌, IfOk, OnOk, Some, length, true, false};
ghost use Rattle.net_model.specs.Moments.{Moments, moment_of};
ghost use Rattle.execution_model.specs.Execution.{acts_at, acted, acts_while};
ghost use Rattle.execution_model.specs.Feeds.{started, next_moment, moments_to, moments_before};
ghost use Rattle.execution_model.specs.Feeds.{refusal_of_moment, IsFed, IsWhole, IsFinished};
ghost use Rattle.example_executions.specs.TimeSteps.{IsStepTaken, IsDueAnswerWithin};
ghost use Rattle.example_executions.specs.TimeSteps.{IsNextDueWithin, many_moments};

use crate::lists::{TestLists, moment_of};
use crate::moment_completions::later;
use crate::time_steps::{all_have_come, last_of};
use dispatch_net::Dispatch;
use execution_model::{Act, Fed, Finished, MOST_MOMENT, Why};
use net_model::{Network, PointId};
use std::alloc::Global;
use std::marker::Model;
use std::test::Fail;

/// Among how many moments the end and the next due moment are sought.
const MOMENTS: u64 = 150;

/// An execution, by lists. Contracts see it as an execution.
#[derive(Drop)]
pub(crate) struct SlowExecutor {
    lists: TestLists,
    moments: Vec<Option<u64>>,
    last: Option<u64>,
    acts: Vec<Act>,
    refused: Option<Why>,
}

impl Model for SlowExecutor {
    ghost use Rattle.execution_model.specs.Feeds.{Execution};

    ghost Value = { Execution };

    ghost view = { λ kept. record {
      setting = kept.lists;
      moments = kept.moments.items;
      last = kept.last;
      acts = kept.acts.items;
      refused = kept.refused;
    } };
}

impl SlowExecutor {
    /// Before the first feed.
    pub(crate) fn start(
        alloc: Global,
        net: &Network,
        dispatch: Dispatch,
    ) -> Result<SlowExecutor, Fail>
        requires { length dispatch.kept ≡ length net.now.points }
        ensures { IfOk result (λ executor. executor ≡ started
            (record { links = net.now.links; dispatch = dispatch.kept })) }
    {
        let lists = TestLists::new(alloc, net, dispatch)?;
        let moments = lists.no_moments(alloc)?;
        Ok(SlowExecutor {
            lists,
            moments,
            last: None,
            acts: Vec::new(alloc),
            refused: None,
        })
    }

    /// The acts of the last feed that was taken, or of the end.
    pub(crate) fn acts(&self) -> &[Act]
        ensures { result.now ≡ self.now.acts }
    {
        self.acts.as_slice()
    }

    /// The moment that a point has so far.
    pub(crate) fn moment_of(&self, point: PointId) -> Option<u64>
        ensures { result ≡ moment_of self.now.moments point }
    {
        moment_of(self.moments.as_slice(), point)
    }

    /// Feeds a moment with the points that complete at it.
    pub(crate) fn feed(
        &mut self,
        alloc: Global,
        moment: u64,
        listed: &[PointId],
    ) -> Result<Fed, Fail>
        ensures { IfOk result (λ answer. IsFed self.old moment listed.now answer self.new) }
    {
        if let Some(cause) = self.refused {
            return Ok(Fed::Ended(cause));
        }
        match self.take(alloc, moment, listed)? {
            None => Ok(Fed::Acts),
            Some(why) => {
                self.refused = Some(why);
                Ok(Fed::Refused(why))
            }
        }
    }

    /// Ends the execution, if each contingent point has completed.
    pub(crate) fn finish(&mut self, alloc: Global) -> Result<Finished, Fail>
        ensures { IfOk result (λ answer. IsFinished self.old answer self.new) }
    {
        if let Some(cause) = self.refused {
            return Ok(Finished::Ended(cause));
        }
        if let Some(point) = self.lists.first_open(self.moments.as_slice()) {
            return Ok(Finished::Unfinished(point));
        }
        self.run_out(alloc)?;
        Ok(Finished::Complete)
    }

    /// The next moment at which a point is executed if nothing completes before.
    pub(crate) fn next_due(&self, alloc: Global) -> Result<Option<u64>, Fail>
        ensures { IfOk result (IsDueAnswerWithin many_moments self.now) }
    {
        match self.refused {
            Some(_) => Ok(None),
            None => self.first_acts(alloc),
        }
    }

    fn first_acts(&self, alloc: Global) -> Result<Option<u64>, Fail>
        ensures { IfOk result (IsNextDueWithin many_moments self.now) }
    {
        let from = self.next_moment()?;
        let until = later(from, MOMENTS)?;
        for t in from..until {
            if self.lists.has_acts(alloc, self.moments.as_slice(), t)? {
                return Ok(Some(t));
            }
        }
        Ok(None)
    }

    /// The first moment that has not passed.
    fn next_moment(&self) -> Result<u64, Fail>
        ensures { IfOk result (λ next. next ≡ next_moment self.now) }
    {
        match self.last {
            Some(last) => later(last, 1),
            None => Ok(0),
        }
    }

    fn refusal_of_moment(&self, moment: u64) -> Option<Why>
        ensures { result ≡ refusal_of_moment self.now moment }
    {
        if let Some(last) = self.last {
            if moment <= last {
                return Some(Why::NotLater(last));
            }
        }
        if MOST_MOMENT < moment {
            return Some(Why::MomentLimit);
        }
        None
    }

    /// The moments so far after time has run to the moment before, and the acts of that time.
    fn before(
        &self,
        alloc: Global,
        moment: u64,
        acts: &mut Vec<Act>,
    ) -> Result<Vec<Option<u64>>, Fail>
        ensures moments { IfOk result (λ moments. moments.items ≡ moments_before self.now moment) }
        ensures acts { OnOk result (acts.new.items ≡ acts.old.items ++ acts_while self.now.setting
            self.now.moments (next_moment self.now) (moments_to self.now moment)) }
    {
        let from = self.next_moment()?;
        let mut moments = Vec::from_slice(alloc, self.moments.as_slice())?;
        self.lists.run(alloc, &mut moments, from, moment, acts)?;
        Ok(moments)
    }

    /// Takes a feed, or gives why it is refused.
    fn take(&mut self, alloc: Global, moment: u64, listed: &[PointId]) -> Result<Option<Why>, Fail>
        ensures { IfOk result (λ refused. IsStepTaken self.old moment listed.now refused self.new) }
    {
        if let Some(why) = self.refusal_of_moment(moment) {
            return Ok(Some(why));
        }
        let mut acts = Vec::new(alloc);
        let mut moments = self.before(alloc, moment, &mut acts)?;
        let refused = self.lists.settle(moments.as_mut_slice(), moment, listed)?;
        if let Some(why) = refused {
            return Ok(Some(why));
        }
        self.act(alloc, moment, moments.as_slice(), acts)?;
        Ok(None)
    }

    /// Makes the acts of a moment, after others.
    fn act(
        &mut self,
        alloc: Global,
        moment: u64,
        moments: &[Option<u64>],
        mut acts: Vec<Act>,
    ) -> Result<(), Fail>
        ensures { OnOk result (self.new ≡ record self.old {
          moments =
              acted self.old.setting moments.now moment;
          last = Some moment;
          acts = acts.items ++ acts_at self.old.setting moments.now moment;
        }) }
    {
        self.lists.push_acts(moments, moment, &mut acts)?;
        self.moments = self.lists.acted(alloc, moments, moment)?;
        self.acts = acts;
        self.last = Some(moment);
        Ok(())
    }

    /// Lets time run until each point has come.
    fn run_out(&mut self, alloc: Global) -> Result<(), Fail>
        ensures { OnOk result (IsWhole self.old self.new) }
    {
        let from = self.next_moment()?;
        let until = later(from, MOMENTS)?;
        for end in from..until {
            if self.run_whole(alloc, from, end)? {
                return Ok(());
            }
        }
        Err(Fail::from("no end within so many moments"))
    }

    /// Lets time run to the moment before another, if each point has come by then.
    fn run_whole(&mut self, alloc: Global, from: u64, end: u64) -> Result<bool, Fail>
        requires { from ≡ next_moment self.old }
        ensures whole { IfOk result (λ whole. whole ≡ true → IsWhole self.old self.new) }
        ensures same { IfOk result (λ whole. whole ≡ false → self.new ≡ self.old) }
    {
        if self.moments.len() != self.lists.points().len() {
            return Err(Fail::from("not one moment for each point"));
        }
        let mut acts = Vec::new(alloc);
        let mut moments = Vec::from_slice(alloc, self.moments.as_slice())?;
        self.lists.run(alloc, &mut moments, from, end, &mut acts)?;
        if !all_have_come(moments.as_slice()) {
            return Ok(false);
        }
        self.last = last_of(self.last, acts.as_slice());
        self.moments = moments;
        self.acts = acts;
        Ok(true)
    }
}
