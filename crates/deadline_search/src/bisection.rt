//! The search for the least deadline: from a guess down or up, by steps that double, and then by
//! halving.

ghost use Rattle.std.specs.Prelude.{◌≡◌, pos, ◌+ℤ◌, ◌-ℤ◌, ◌≤ℤ◌, ◌<ℤ◌, IfOk};
ghost use Rattle.std.specs.Int.{int_max, int_min};
ghost use Rattle.deadline_search.specs.Deadlines.{IsDeadline, lowest, highest};
ghost use Rattle.deadline_search.specs.Trials.{IsFoundDeadline, IsGoalFor, IsHalfWay};
ghost use Rattle.deadline_search.specs.Trials.{IsLastDeadline, widest};

use crate::goal::{HIGHEST, LOWEST};
use crate::goal_search::Search;
use net_model::Weight;
use parallel_rounds::{Gate, Workers};
use std::alloc::AllocError;
use std::thread::Threads;

/// The greatest step: from it on every number is in reach.
const WIDEST: Weight = HIGHEST - LOWEST;

/// Twice a step, as far as there is need.
fn doubled(step: Weight) -> Weight
    requires { (pos 1 ≤ℤ step) × (step ≤ℤ widest) }
    ensures within { (pos 1 ≤ℤ result) × (result ≤ℤ widest) }
    ensures twice { result ≡ int_min (step +ℤ step) widest }
{
    (step * 2).min(WIDEST)
}

/// The next number to try above one that is no deadline.
fn higher(failed: Weight, step: Weight) -> Weight
    requires low { lowest ≤ℤ failed }
    requires spare_capacity { failed <ℤ highest }
    requires step { (pos 1 ≤ℤ step) × (step ≤ℤ widest) }
    ensures above { failed <ℤ result }
    ensures high { result ≤ℤ highest }
    ensures step { result ≡ int_min (failed +ℤ step) highest }
{
    (failed + step).min(HIGHEST)
}

/// The next number to try below one that is a deadline.
fn lower(kept: Weight, step: Weight) -> Weight
    requires spare_capacity { lowest <ℤ kept }
    requires high { kept ≤ℤ highest }
    requires step { (pos 1 ≤ℤ step) × (step ≤ℤ widest) }
    ensures below { result <ℤ kept }
    ensures low { lowest ≤ℤ result }
    ensures step { result ≡ int_max (kept -ℤ step) lowest }
{
    (kept - step).max(LOWEST)
}

/// The next number to try between one that is no deadline and one that is.
fn middle(failed: Weight, kept: Weight) -> Weight
    requires low { lowest ≤ℤ failed }
    requires high { kept ≤ℤ highest }
    requires apart { (failed +ℤ pos 1) <ℤ kept }
    ensures above { failed <ℤ result }
    ensures below { result <ℤ kept }
    ensures half { IsHalfWay failed kept result }
{
    failed + (kept - failed) / 2
}

impl Search {
    /// The least deadline, or `None` if there is none, from a guess: if that is the least, it and
    /// the number before are all that is tried.
    pub fn least<R: Threads + Sync, G: Gate>(
        &self,
        workers: &Workers<'_, R, G>,
        guess: Weight,
    ) -> Result<Option<Weight>, AllocError>
        requires goal { IsGoalFor self.now.net self.now.goal }
        requires low { lowest ≤ℤ guess }
        requires high { guess ≤ℤ highest }
        ensures { IfOk result (IsFoundDeadline self.now.net self.now.goal) }
    {
        if self.is_deadline(workers, guess)? {
            Ok(Some(self.below(workers, guess)?))
        } else {
            self.above(workers, guess)
        }
    }

    /// The least deadline, at or below one.
    fn below<R: Threads + Sync, G: Gate>(
        &self,
        workers: &Workers<'_, R, G>,
        mut kept: Weight,
    ) -> Result<Weight, AllocError>
        requires goal { IsGoalFor self.now.net self.now.goal }
        requires kept { IsDeadline self.now.net self.now.goal kept }
        ensures { IfOk result (IsLastDeadline self.now.net self.now.goal) }
    {
        let mut step = 1;
        while kept > LOWEST {
            let next = lower(kept, step);
            if !self.is_deadline(workers, next)? {
                return self.between(workers, next, kept);
            }
            kept = next;
            step = doubled(step);
        }
        Ok(kept)
    }

    /// The least deadline, above a number that is none, or `None` if there is none.
    fn above<R: Threads + Sync, G: Gate>(
        &self,
        workers: &Workers<'_, R, G>,
        mut failed: Weight,
    ) -> Result<Option<Weight>, AllocError>
        requires goal { IsGoalFor self.now.net self.now.goal }
        requires low { lowest ≤ℤ failed }
        requires high { failed ≤ℤ highest }
        requires none { ¬ IsDeadline self.now.net self.now.goal failed }
        ensures { IfOk result (IsFoundDeadline self.now.net self.now.goal) }
    {
        let mut step = 1;
        while failed < HIGHEST {
            let next = higher(failed, step);
            if self.is_deadline(workers, next)? {
                return Ok(Some(self.between(workers, failed, next)?));
            }
            failed = next;
            step = doubled(step);
        }
        Ok(None)
    }

    /// The least deadline, above a number that is none and at or below one that is.
    fn between<R: Threads + Sync, G: Gate>(
        &self,
        workers: &Workers<'_, R, G>,
        mut failed: Weight,
        mut kept: Weight,
    ) -> Result<Weight, AllocError>
        requires goal { IsGoalFor self.now.net self.now.goal }
        requires low { lowest ≤ℤ failed }
        requires apart { failed <ℤ kept }
        requires none { ¬ IsDeadline self.now.net self.now.goal failed }
        requires kept { IsDeadline self.now.net self.now.goal kept }
        ensures { IfOk result (IsLastDeadline self.now.net self.now.goal) }
    {
        while kept - failed > 1 {
            let next = middle(failed, kept);
            if self.is_deadline(workers, next)? {
                kept = next;
            } else {
                failed = next;
            }
        }
        Ok(kept)
    }
}
