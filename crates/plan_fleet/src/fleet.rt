//! The fleet: plans that are executed side by side.

ghost use Rattle.std.specs.Prelude.{◌≡◌, ◌↔◌, ◌<◌, ◌≤◌, length, IfOk, IfSome, IsTrue, Some};
ghost use Rattle.std.specs.Prelude.{slice_get};
ghost use Rattle.std.specs.List.{All};
ghost use Rattle.net_model.specs.Network.{IsPoint};
ghost use Rattle.execution_model.specs.Feeds.{Execution, IsDueAnswer};
ghost use Rattle.plan_fleet.specs.FleetPlans.{FleetPlan, FeedsPlan, FinishesPlan, EndsPlan};
ghost use Rattle.plan_fleet.specs.FleetPlans.{IsFleetPlan};
ghost use Rattle.plan_fleet.specs.PlanExecutions.{execution_of, state_of};
ghost use Rattle.plan_fleet.specs.Fleets.{AreOpened, AtPlan, ChangesOne, IsStarted};
ghost use Rattle.plan_fleet.specs.Limits.{most_plans};
ghost use Rattle.plan_fleet.specs.FleetStart.{nets_given};

use crate::fleet_plan::FleetPlan;
use crate::fleet_start::{decide_all, gather, jobs_of};
use crate::states::{FleetFed, FleetFinished, State};
use execution_model::Act;
use net_model::{Name, Network, PointId};
use parallel_rounds::{Gate, Workers};
use std::alloc::{AllocError, Global};
use std::marker::Model;
use std::thread::Threads;

/// The plans of a fleet, each with its network and how far its execution is. Contracts see it as
/// their list.
#[derive(Drop)]
pub struct Fleet {
    pub(crate) members: Vec<FleetPlan>,
}

impl Model for Fleet {
    ghost use Rattle.std.specs.Prelude.{List};
    ghost use Rattle.plan_fleet.specs.FleetPlans.{FleetPlan};

    ghost Value = { List FleetPlan };

    ghost view = { λ fleet. fleet.members.items };
}

impl Fleet {
    /// Opens at most 64 plans, in their order: each is decided by one worker, side by side with the
    /// others, and if it is controllable its execution is started. A network is given as it is
    /// stated; with a delay it is executed by its shown form. The gate is called with the place of
    /// each plan, counted from 0, before it is decided. All memory that a fleet needs is
    /// taken here. `AllocError` comes only if memory is refused; then nothing was opened. That
    /// plans are decided side by side no clause says; `example_fleet` tests it.
    pub fn open<R: Threads + Sync, G: Gate>(
        rt: &R,
        alloc: Global,
        plans: Vec<(Name, Network)>,
        gate: &G,
    ) -> Result<Fleet, AllocError>
        requires { length plans.items ≤ most_plans }
        ensures { IfOk result (AreOpened (nets_given plans.items)) }
    {
        let jobs = jobs_of(alloc, plans)?;
        let decided = decide_all(&Workers::of(rt, alloc, 1, gate), jobs)?;
        let members = gather(alloc, decided)?;
        Ok(Fleet { members })
    }

    /// How a plan stands: at first `Running` exactly if it is controllable, else `NotControllable`.
    /// Plans are named by their places, counted from 0.
    pub fn state(&self, plan: u32) -> State
        requires { plan < length self.now }
        ensures { AtPlan self.now plan (λ member. result ≡ state_of member.execution) }
    {
        let member = &self.members[plan as usize];
        member.execution.state()
    }

    /// Whether a plan was started: exactly those that are controllable were, whatever happened to
    /// them since.
    pub fn started(&self, plan: u32) -> bool
        requires { plan < length self.now }
        ensures { IsTrue result ↔ IsStarted self.now plan }
    {
        let member = &self.members[plan as usize];
        member.execution.executor().is_some()
    }

    /// Feeds a running plan a moment, with the points that complete at it, as `Executor::feed`; a
    /// feed that is refused makes it `Ended`. `Idle` exactly if it is not running. Every other plan
    /// stays as it is.
    pub fn feed(&mut self, plan: u32, moment: u64, completions: &[PointId]) -> FleetFed
        requires plan { plan < length self.old }
        requires points { AtPlan self.old plan
            (λ member. All (IsPoint member.net) completions.now) }
        ensures { ChangesOne self.old plan
            (λ old new. FeedsPlan old moment completions.now result new) self.new }
    {
        let member = &mut self.members[plan as usize];
        member.feed(moment, completions)
    }

    /// Ends the execution of a running plan, as `Executor::finish`: it becomes `Complete`, or
    /// `Ended` if the answer was a different one. `Idle` exactly if it is not running. Every other
    /// plan stays as it is.
    pub fn finish(&mut self, plan: u32) -> FleetFinished
        requires { plan < length self.old }
        ensures { ChangesOne self.old plan (λ old new. FinishesPlan old result new) self.new }
    {
        let member = &mut self.members[plan as usize];
        member.finish()
    }

    /// Makes a running plan `Ended`; one that is not running stays as it is, and so does every
    /// other.
    pub fn end(&mut self, plan: u32)
        requires { plan < length self.old }
        ensures { ChangesOne self.old plan EndsPlan self.new }
    {
        let member = &mut self.members[plan as usize];
        member.end();
    }

    /// The acts of the last feed of a plan that was taken, or of its end, as `Executor::acts`.
    pub fn acts(&self, plan: u32) -> &[Act]
        requires plan { plan < length self.now }
        requires started { IsStarted self.now plan }
        ensures value { AtPlan self.now plan (λ member. (execution : Execution)
            → execution_of member.execution ≡ Some execution → result.now ≡ execution.acts) }
        ensures few { AtPlan self.now plan
            (λ member. length result.now ≤ length member.net.points) }
    {
        self.members[plan as usize].acts()
    }

    /// The next due moment of a plan, as `Executor::next_due`.
    pub fn next_due(&self, plan: u32) -> Option<u64>
        requires plan { plan < length self.now }
        requires started { IsStarted self.now plan }
        ensures { AtPlan self.now plan (λ member. (execution : Execution)
            → execution_of member.execution ≡ Some execution → IsDueAnswer execution result) }
    {
        self.members[plan as usize].next_due()
    }

    /// The network that was given for a plan, as it was stated, whatever happened to the plan.
    pub fn network(&self, plan: u32) -> &Network
        requires { plan < length self.now }
        ensures value { AtPlan self.now plan (λ member. result.now ≡ member.net) }
        ensures sound { AtPlan self.now plan IsFleetPlan }
    {
        &self.members[plan as usize].net
    }
}
