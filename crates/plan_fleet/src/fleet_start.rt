//! How the plans of a fleet are opened: decided side by side, and then started one after another.

ghost use Rattle.std.specs.Prelude.{◌≡◌, ◌≤◌, length, map, IfOk};
ghost use Rattle.std.specs.List.{AllZip};
ghost use Rattle.verdicts.specs.Decisions.{IsDecidedBy, IsOrderedForwardTable};
ghost use Rattle.plan_fleet.specs.FleetPlans.{OpensTo};
ghost use Rattle.plan_fleet.specs.Limits.{most_plans};
ghost use Rattle.plan_fleet.specs.FleetStart.{AllDecided, AreNumbered, DecidesEach, DecidesTo};
ghost use Rattle.plan_fleet.specs.FleetStart.{IsDecided, OpensDecided, StartsBy, StartsOrNot};
ghost use Rattle.plan_fleet.specs.FleetStart.{nets_given, nets_of};

use crate::fleet_plan::FleetPlan;
use crate::plan_execution::PlanExecution;
use canonical_closure::laws::law_controllable_have_canonical_closures;
use dispatch_net::laws::law_slim_stays_slim;
use forward_closure::ForwardClosed;
use forward_executor::ForwardExecutor;
use net_model::{Name, Network};
use parallel_rounds::{Gate, Workers};
use std::alloc::{AllocError, Global};
use std::thread::{Threads, map_vec};
use strategy_model::laws::shown::{law_controllable_is_shown, law_shown_form_is_instant};
use verdicts::{dispatch_by, forward_table_if_controllable};

/// A plan that is to be decided, and its place in the fleet.
#[derive(Drop)]
pub(crate) struct Job {
    place: u32,
    net: Network,
}

/// A plan that is decided: its shown form, with a forward closed table of this and its order
/// if it is controllable.
#[derive(Drop)]
pub(crate) struct Decided {
    net: Network,
    shown: Network,
    closed: Option<ForwardClosed>,
}

/// The plans that are to be decided, each with its place. `AllocError` comes only if memory is
/// refused.
pub(crate) fn jobs_of(alloc: Global, plans: Vec<(Name, Network)>) -> Result<Vec<Job>, AllocError>
    requires { length plans.items ≤ most_plans }
    ensures nets { IfOk result (λ jobs. nets_of jobs.items ≡ nets_given plans.items) }
    ensures places { IfOk result (λ jobs. AreNumbered jobs.items) }
{
    let mut jobs = Vec::new(alloc);
    for plan in plans {
        let (_, net) = plan;
        let place = jobs.len() as u32;
        jobs.push(Job { place, net })?;
    }
    Ok(jobs)
}

/// Decides plans, in their own threads if these can be started, each by so many workers as these
/// are. `AllocError` comes only if memory is refused, for all or for one of them.
pub(crate) fn decide_all<R: Threads + Sync, G: Gate>(
    workers: &Workers<'_, R, G>,
    jobs: Vec<Job>,
) -> Result<Vec<Result<Decided, AllocError>>, AllocError>
    ensures len { IfOk result (λ decided. length decided.items ≡ length jobs.items) }
    ensures each { IfOk result (λ decided. DecidesEach jobs.items decided.items) }
{
    map_vec(
        workers.rt(),
        jobs,
        &|job| -> Result<Decided, AllocError>
            ensures { IfOk result (DecidesTo job.net) }
        { decide(workers, job) },
    )
}

/// Decides a plan by its shown form.
fn decide<R: Threads + Sync, G: Gate>(
    workers: &Workers<'_, R, G>,
    job: Job,
) -> Result<Decided, AllocError>
    ensures { IfOk result (DecidesTo job.net) }
{
    workers.gate().before(job.place);
    let Job { net, .. } = job;
    let shown = net.shown(workers.alloc())?;
    let closed = forward_table_if_controllable(workers, &shown)?;
    Ok(Decided { net, shown, closed })
}

/// The plans as they are at first, by what was decided. `AllocError` comes if memory was refused
/// for one of them, or for all.
pub(crate) fn gather(
    alloc: Global,
    decided: Vec<Result<Decided, AllocError>>,
) -> Result<Vec<FleetPlan>, AllocError>
    requires { AllDecided decided.items }
    ensures { IfOk result (λ members. AllZip OpensDecided decided.items members.items) }
{
    let mut members = Vec::new(alloc);
    for one in decided {
        members.push(opened(alloc, one?)?)?;
    }
    Ok(members)
}

/// A plan as it is at first: its execution is started if it is controllable.
fn opened(alloc: Global, decided: Decided) -> Result<FleetPlan, AllocError>
    requires { IsDecided decided }
    ensures { IfOk result (OpensTo decided.net) }
{
    law_controllable_is_shown();
    law_shown_form_is_instant();
    law_controllable_have_canonical_closures();
    decided.net.sound();
    let execution = started(alloc, &decided.shown, &decided.closed)?;
    let Decided { net, .. } = decided;
    Ok(FleetPlan { net, execution })
}

/// The execution of a network without a delay, which is started exactly if it is controllable.
fn started(
    alloc: Global,
    net: &Network,
    closed: &Option<ForwardClosed>,
) -> Result<PlanExecution, AllocError>
    requires { IsDecidedBy IsOrderedForwardTable net.now closed.now }
    ensures { IfOk result (StartsOrNot net.now) }
{
    match closed {
        None => Ok(PlanExecution::NotControllable),
        Some(closed) => Ok(PlanExecution::Running(start(alloc, net, closed)?)),
    }
}

/// Starts the execution of a network by a forward closed table of it, on those lower bounds and
/// waits that no others imply.
fn start(
    alloc: Global,
    net: &Network,
    closed: &ForwardClosed,
) -> Result<ForwardExecutor, AllocError>
    requires { IsOrderedForwardTable net.now closed.now }
    ensures { IfOk result (StartsBy net.now) }
{
    law_slim_stays_slim();
    let dispatch = dispatch_by(alloc, net, closed)?;
    ForwardExecutor::start(alloc, net, dispatch.slim())
}
