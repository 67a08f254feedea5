//! The command `run`: a plan, and then the execution of its network over lines of events.

ghost use Rattle.std.specs.Prelude.{IfOk};
ghost use Rattle.command_engine.specs.Machine.{HasCapacity};
ghost use Rattle.event_phase.specs.EventPhase.{executing_machine};
ghost use Rattle.command_contracts.specs.Programs.{or_nothing};
ghost use Rattle.run_command.specs.RunPromise.{RunPromise, run_causes};
ghost use Rattle.run_command.specs.RunCommand.{run_request, run_begins, run_start, run_syntax};
ghost use Rattle.event_phase.specs.ExecutionStart.{BeginsExecutionBy};
ghost use Rattle.verdicts.specs.Decisions.{IsOrderedForwardTable};

use crate::feeders::Feeders;
use command_contracts::{OneRun, Request, Specified, WorkerCount, form_given};
use command_engine::{Answer, Begin, Flow, TextThenPhase};
use command_words::{Arguments, Syntax};
use common_answers::put_refuted;
use event_phase::Executing;
use event_stream::laws::law_lines_have_one_reading;
use execution_model::laws as execution_laws;
use forward_closure::ForwardClosed;
use input_texts::{PlanForm, PlanInput, PlanNetwork};
use net_model::Network;
use std::alloc::{AllocError, Global};
use std::marker::Model;
use std::thread::Threads;
use verdicts::{Verdict, decide, dispatch_by};

/// The execution of a network: the command `run` reads a plan, and puts `controllable` and the
/// first due moment if a strategy controls its network, else `not controllable` and a certificate
/// which `judge` accepts, and then it ends with 1. Over the lines of events that follow, which list
/// completions when they are shown, it puts the acts of each feed and the next due moment, and at
/// the end the acts that remain, and `complete`, and it ends with 0. An event that no execution of
/// the network shows ends it with 7, after the line `error event` and the cause. With `--feeders`
/// the feeders post the completions of a line at a desk, and the execution is fed from it, with the
/// points of the line in the order of their numbers. What it promises is `RunPromise`.
#[derive(Drop)]
pub struct Run {
    form: PlanForm,
    workers: WorkerCount,
    feeders: Feeders,
}

impl Model for Run {
    ghost use Rattle.run_command.specs.RunCommand.{RunForm};

    ghost Value = { RunForm };

    ghost view = { λ run. record { form = run.form; completion_order = run.feeders } };
}

/// The command: how far its input was read.
pub type Running = TextThenPhase<Run, PlanInput, Executing>;

impl Begin<PlanNetwork> for Run {
    type Phase = Executing;

    ghost begins = { run_begins };

    fn begin<R: Threads + Sync>(
        self,
        rt: &R,
        alloc: Global,
        answer: &mut Answer,
        value: PlanNetwork,
    ) -> Result<Flow<Executing>, AllocError> {
        match decide(&self.workers.workers(rt, alloc), value.into_network())? {
            Verdict::Controllable { shown, closed, .. } => {
                begin_execution(alloc, answer, shown, &closed, &self.feeders)
            }
            Verdict::Refuted(certificate) => {
                Ok(Flow::Finish(put_refuted(alloc, answer, &certificate)?))
            }
        }
    }
}

impl Request for Run {
    ghost syntax = { run_syntax };

    ghost query = { run_request };

    fn words() -> Syntax<'static> {
        Syntax {
            flags: &["json"],
            options: &["workers", "delay", "feeders"],
            operands: &[],
        }
    }

    fn of(arguments: &Arguments<'_>) -> Option<Run> {
        let workers = WorkerCount::of(arguments.option(0))?;
        let feeders = Feeders::of(arguments.option(2))?;
        let form = form_given(arguments.flag(0), arguments.option(1))?;
        Some(Run {
            form,
            workers,
            feeders,
        })
    }

    fn workers_decide_nothing() {}
}

impl Specified for Run {
    type Request = Run;

    type Served = Running;

    ghost start = { run_start };

    ghost promise = { λ query. or_nothing (run_causes query) (RunPromise query) };

    fn initial(alloc: Global, request: Run) -> Running {
        let text = request.form.initial(alloc);
        TextThenPhase::Reading(request, text)
    }

    fn keeps_its_promise() {
        law_lines_have_one_reading();
        execution_laws::law_faithful_streams_are_taken();
        execution_laws::law_done_where_none_is_open();
        execution_laws::law_ends_are_earliest();
        execution_laws::law_acts_are_earliest();
        execution_laws::law_last_acts_are_earliest();
        execution_laws::law_streams_are_shown();
        execution_laws::law_acts_are_shown();
    }

    fn ends_by_its_causes() {}

    fn keeps_it_without_memory() {}
}

impl OneRun for Run {
    fn defines_one() {
        law_lines_have_one_reading();
    }
}

/// Begins the execution of a network without a delay, which is controllable, by a forward closed
/// table of it, and puts that it is controllable, and the first due moment, in place of what stood
/// in the buffer.
fn begin_execution(
    alloc: Global,
    answer: &mut Answer,
    net: Network,
    closed: &ForwardClosed,
    feeders: &Feeders,
) -> Result<Flow<Executing>, AllocError>
    requires closure { IsOrderedForwardTable net closed.now }
    ensures begins { IfOk result (BeginsExecutionBy feeders.now net answer.new.text) }
    ensures spare_capacity { IfOk result
        (λ flow. HasCapacity executing_machine flow answer.new.capacity) }
{
    let dispatch = dispatch_by(alloc, &net, closed)?;
    feeders.begin(alloc, answer, net, dispatch)
}
