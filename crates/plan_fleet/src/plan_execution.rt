//! How far the execution of one plan of a fleet is.

ghost use Rattle.std.specs.Prelude.{◌≡◌};
ghost use Rattle.std.specs.Option.{option_map};
ghost use Rattle.plan_fleet.specs.PlanExecutions.{completed, ended, execution_of, state_of};
ghost use Rattle.plan_fleet.specs.PlanExecutions.{execution_after_feed, execution_after_finish};

use crate::states::State;
use execution_model::{Fed, Finished};
use forward_executor::ForwardExecutor;
use std::mem;

/// How far the execution of a plan is; each that was started has its executor, whatever happened
/// to it since.
#[derive(Drop)]
pub(crate) enum PlanExecution {
    /// No strategy controls the plan, so it was never started.
    NotControllable,
    /// It continues.
    Running(ForwardExecutor),
    /// It is complete.
    Complete(ForwardExecutor),
    /// A feed was refused, the answer to the end was `Unfinished`, or it was ended.
    Ended(ForwardExecutor),
}

impl PlanExecution {
    /// How the plan stands by it.
    pub(crate) fn state(&self) -> State
        ensures { result ≡ state_of self.now }
    {
        match self {
            PlanExecution::NotControllable => State::NotControllable,
            PlanExecution::Running(_) => State::Running,
            PlanExecution::Complete(_) => State::Complete,
            PlanExecution::Ended(_) => State::Ended,
        }
    }

    /// The executor, if it was started.
    pub(crate) fn executor(&self) -> Option<&ForwardExecutor>
        ensures { option_map (λ executor. executor.now) result ≡ execution_of self.now }
    {
        match self {
            PlanExecution::NotControllable => None,
            PlanExecution::Running(executor)
            | PlanExecution::Complete(executor)
            | PlanExecution::Ended(executor) => Some(executor),
        }
    }

    /// Ends it, if it runs.
    pub(crate) fn end(&mut self)
        ensures { self.new ≡ ended self.old }
    {
        let before = mem::replace(self, PlanExecution::NotControllable);
        *self = match before {
            PlanExecution::Running(executor) => PlanExecution::Ended(executor),
            other => other,
        };
    }

    /// Makes it complete, if it runs.
    fn complete(&mut self)
        ensures { self.new ≡ completed self.old }
    {
        let before = mem::replace(self, PlanExecution::NotControllable);
        *self = match before {
            PlanExecution::Running(executor) => PlanExecution::Complete(executor),
            other => other,
        };
    }

    /// Goes on after this answer to a feed: a refusal ends it, if it runs.
    pub(crate) fn after_feed(&mut self, fed: Fed)
        ensures { self.new ≡ execution_after_feed fed self.old }
    {
        match fed {
            Fed::Acts => {}
            Fed::Refused(_) | Fed::Ended(_) => self.end(),
        }
    }

    /// Goes on after this answer to its end: it is complete, or ended, if it runs.
    pub(crate) fn after_finish(&mut self, finished: Finished)
        ensures { self.new ≡ execution_after_finish finished self.old }
    {
        match finished {
            Finished::Complete => self.complete(),
            Finished::Unfinished(_) | Finished::Ended(_) => self.end(),
        }
    }
}
