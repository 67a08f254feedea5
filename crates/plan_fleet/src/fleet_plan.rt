//! One plan of a fleet.

ghost use Rattle.std.specs.Prelude.{◌≡◌, ◌≤◌, length, Some};
ghost use Rattle.std.specs.List.{All};
ghost use Rattle.net_model.specs.Network.{IsPoint};
ghost use Rattle.execution_model.specs.Feeds.{Execution, IsDueAnswer};
ghost use Rattle.plan_fleet.specs.FleetPlans.{FeedsPlan, FinishesPlan, EndsPlan};
ghost use Rattle.plan_fleet.specs.PlanExecutions.{execution_of};

use crate::plan_execution::PlanExecution;
use crate::states::{FleetFed, FleetFinished};
use execution_model::Act;
use net_model::{Network, PointId};
use std::marker::Model;

/// A plan of a fleet: its network, and how far its execution is.
#[derive(Drop)]
pub(crate) struct FleetPlan {
    pub(crate) net: Network,
    pub(crate) execution: PlanExecution,
}

impl Model for FleetPlan {
    ghost use Rattle.plan_fleet.specs.FleetPlans.{FleetPlan, IsFleetPlan};

    ghost Value = { FleetPlan };

    ghost view = { λ member. record { net = member.net; execution = member.execution } };

    ghost invariant = { λ member. IsFleetPlan
        (record { net = member.net; execution = member.execution }) };
}

impl FleetPlan {
    /// Feeds its executor, if it runs.
    pub(crate) fn feed(&mut self, moment: u64, completions: &[PointId]) -> FleetFed
        requires { All (IsPoint self.old.net) completions.now }
        ensures { FeedsPlan self.old moment completions.now result self.new }
    {
        let PlanExecution::Running(executor) = &mut self.execution else {
            return FleetFed::Idle;
        };
        let fed = executor.feed(moment, completions);
        self.execution.after_feed(fed);
        FleetFed::Fed(fed)
    }

    /// Ends its execution, if it runs.
    pub(crate) fn finish(&mut self) -> FleetFinished
        ensures { FinishesPlan self.old result self.new }
    {
        let PlanExecution::Running(executor) = &mut self.execution else {
            return FleetFinished::Idle;
        };
        let finished = executor.finish();
        self.execution.after_finish(finished);
        FleetFinished::Finished(finished)
    }

    /// Ends it, if it runs.
    pub(crate) fn end(&mut self)
        ensures { EndsPlan self.old self.new }
    {
        self.execution.end();
    }

    /// The acts of its executor; none if it was never started.
    pub(crate) fn acts(&self) -> &[Act]
        ensures value { (execution : Execution) → execution_of self.now.execution ≡ Some execution
            → result.now ≡ execution.acts }
        ensures few { length result.now ≤ length self.now.net.points }
    {
        match self.execution.executor() {
            Some(executor) => executor.acts(),
            None => &[],
        }
    }

    /// The next due moment of its executor; none if it was never started.
    pub(crate) fn next_due(&self) -> Option<u64>
        ensures { (execution : Execution) → execution_of self.now.execution ≡ Some execution
            → IsDueAnswer execution result }
    {
        self.execution.executor()?.next_due()
    }
}
