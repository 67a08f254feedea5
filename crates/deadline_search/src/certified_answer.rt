//! The answer at the end of a search, with its certificates.

ghost use Rattle.std.specs.Prelude.{IfOk};
ghost use Rattle.strategy_model.specs.Control.{IsControllable};
ghost use Rattle.verdicts.specs.Decisions.{IsOrderedForwardTable};
ghost use Rattle.verdicts.specs.Verdict.{IsControllableBy};
ghost use Rattle.deadline_search.specs.Answers.{IsAnswerOf};
ghost use Rattle.deadline_search.specs.Deadlines.{IsDeadline, highest};
ghost use Rattle.deadline_search.specs.Goals.{IsGoalName};
ghost use Rattle.deadline_search.specs.Trials.{IsGoalFor, IsLastDeadline};

use crate::answer::Deadline;
use crate::goal::{HIGHEST, LOWEST};
use crate::goal_search::Search;
use forward_closure::ForwardClosed;
use net_model::{Network, Weight};
use parallel_rounds::{Gate, Workers};
use std::alloc::AllocError;
use std::thread::Threads;
use strategy_model::laws::law_looser_bounds_keep_control;

impl Search {
    /// The tightest deadline of a controllable network, from its shown form and a forward closed
    /// table of that.
    pub fn answered<R: Threads + Sync, G: Gate>(
        &self,
        workers: &Workers<'_, R, G>,
        shown: Network,
        closed: ForwardClosed,
    ) -> Result<Deadline, AllocError>
        requires goal { IsGoalFor self.now.net self.now.goal }
        requires named { IsGoalName self.now.net self.now.goal.name }
        requires closed { IsControllableBy IsOrderedForwardTable self.now.net shown closed }
        ensures { IfOk result (IsAnswerOf self.now.net self.now.goal.from self.now.goal.to) }
    {
        let guess = self.guess(workers.alloc(), shown, closed)?;
        match self.least(workers, guess)? {
            Some(most) => self.last(workers, most),
            None => self.never(workers),
        }
    }

    /// The answer if there is a least deadline.
    fn last<R: Threads + Sync, G: Gate>(
        &self,
        workers: &Workers<'_, R, G>,
        most: Weight,
    ) -> Result<Deadline, AllocError>
        requires goal { IsGoalFor self.now.net self.now.goal }
        requires named { IsGoalName self.now.net self.now.goal.name }
        requires controllable { IsControllable self.now.net }
        requires last { IsLastDeadline self.now.net self.now.goal most }
        ensures { IfOk result (IsAnswerOf self.now.net self.now.goal.from self.now.goal.to) }
    {
        law_looser_bounds_keep_control();
        let goal = self.goal.name;
        let proof = self.proof(workers, most)?;
        if most <= LOWEST {
            return Ok(Deadline::Floor { goal, proof });
        }
        let refutation = self.refutation(workers, most - 1)?;
        Ok(Deadline::Least {
            goal,
            most,
            proof,
            refutation,
        })
    }

    /// The answer if no number is a deadline.
    fn never<R: Threads + Sync, G: Gate>(
        &self,
        workers: &Workers<'_, R, G>,
    ) -> Result<Deadline, AllocError>
        requires goal { IsGoalFor self.now.net self.now.goal }
        requires named { IsGoalName self.now.net self.now.goal.name }
        requires controllable { IsControllable self.now.net }
        requires none { ¬ IsDeadline self.now.net self.now.goal highest }
        ensures { IfOk result (IsAnswerOf self.now.net self.now.goal.from self.now.goal.to) }
    {
        law_looser_bounds_keep_control();
        let refutation = self.refutation(workers, HIGHEST)?;
        Ok(Deadline::Never {
            goal: self.goal.name,
            refutation,
        })
    }
}
