//! The command `session`: a plan, then edits of its network and questions about it, and after `go`
//! the execution of the network as it stands.

ghost use Rattle.std.specs.Prelude.{◌≡◌, [], IfOk};
ghost use Rattle.std.specs.Option.{unwrap_or};
ghost use Rattle.command_engine.specs.Machine.{HasCapacity};
ghost use Rattle.command_engine.specs.Phases.{wrapped};
ghost use Rattle.session_command.specs.SessionPromise.{session_promise};
ghost use Rattle.session_command.specs.Sessions.{session_begins, session_machine, session_start};
ghost use Rattle.session_command.specs.Sessions.{edits_on, AnswersStep, TakesStep};
ghost use Rattle.edit_script.specs.declared.step.Step.TheVariants as step;

use crate::edited_session::Editing;
use command_contracts::{FormAndWorkers, OneRun, Specified};
use command_engine::{Answer, Begin, Command, End, Flow, Refusal, Stop, TextThenPhase, Word};
use common_answers::{Fault, push_verdict, stop_fault};
use edit_script::laws::law_lines_have_one_reading as one_step;
use edit_script::{Step, read_step};
use event_phase::{Executing, begin_dispatched};
use event_stream::laws::law_lines_have_one_reading;
use execution_model::laws as execution_laws;
use input_texts::{PlanInput, PlanNetwork};
use net_model::{FormatKind, Network, WordFault};
use plan_port::MOST_LINE;
use plan_session::laws::{law_edits_are_followed_in_one_way, law_sessions_open_in_one_way};
use std::alloc::{AllocError, Global};
use std::marker::Model;
use std::thread::Threads;

/// A session of a plan: the command `session` reads a plan, and puts `ready`. Then it answers each
/// line by the network as it stands after the accepted edits before it: an edit by `ok`, or by
/// `refused` and the cause, and then nothing changed; and each question. It goes on until the line
/// `end`, at which it ends with 0, or until `go` if some strategy controls the network: from then
/// on the network is executed over lines of events, as `run` does. `report` says how many
/// derivations the last accepted edit kept and withdrew, and how many rounds were made then, in a
/// session that keeps derivations, opened on the network of the plan: it is asked for them only
/// then, and follows the accepted edits. It never ends with 1. For want of memory, at 8, it has
/// put answers to whole lines, none of which began an execution, or nothing. What it promises is
/// `SessionPromise`, and at 8 `SaysWhole`.
#[derive(Drop)]
pub struct SessionCommand {
    query: FormAndWorkers,
}

impl Model for SessionCommand {
    ghost use Rattle.input_texts.specs.declared.plan_input.PlanForm.{PlanForm};

    ghost Value = { PlanForm };

    ghost view = { λ session. session.query };
}

/// A session after its plan. It may want memory while its network is edited, and wants none while
/// it is executed.
#[derive(Drop)]
pub enum InSession {
    /// Its network is edited.
    Editing(Editing),
    /// Its network is executed.
    Executing(Executing),
}

/// The command: how far its input was read.
pub type ServedSession = TextThenPhase<SessionCommand, PlanInput, InSession>;

impl Begin<PlanNetwork> for SessionCommand {
    type Phase = InSession;

    ghost begins = { session_begins };

    fn begin<R: Threads + Sync>(
        self,
        _rt: &R,
        _alloc: Global,
        answer: &mut Answer,
        value: PlanNetwork,
    ) -> Result<Flow<InSession>, AllocError> {
        answer.push_line(&[Word::Text("ready")])?;
        let SessionCommand { query } = self;
        let FormAndWorkers { workers, .. } = query;
        let editing = Editing::of(value.into_network(), workers);
        Ok(Flow::Continue(InSession::Editing(editing)))
    }
}

impl Command for InSession {
    ghost machine = { session_machine };

    fn longest(&self) -> u32 {
        MOST_LINE
    }

    fn take_line<R: Threads + Sync>(
        self,
        rt: &R,
        alloc: Global,
        answer: &mut Answer,
        number: u32,
        line: &[u8],
    ) -> Result<Flow<InSession>, AllocError> {
        match self {
            InSession::Executing(state) => Ok(executing(state.take_line(
                rt, alloc, answer, number, line,
            )?)),
            InSession::Editing(state) => {
                let mut state = state;
                match answer_line(rt, alloc, answer, &mut state, number, line)? {
                    Some(flow) => Ok(flow),
                    None => Ok(Flow::Continue(InSession::Editing(state))),
                }
            }
        }
    }

    fn stop(&self, answer: &mut Answer, number: u32, stop: Stop) -> End {
        match self {
            InSession::Executing(state) => state.stop(answer, number, stop),
            InSession::Editing(_) => {
                let fault = stop_fault(number, stop, FormatKind::NoEnd);
                fault.put(answer);
                fault.end()
            }
        }
    }
}

impl Specified for SessionCommand {
    type Request = FormAndWorkers;

    type Served = ServedSession;

    ghost start = { session_start };

    ghost promise = { session_promise };

    fn initial(alloc: Global, request: FormAndWorkers) -> ServedSession {
        let text = request.form.initial(alloc);
        TextThenPhase::Reading(SessionCommand { query: request }, text)
    }

    fn keeps_its_promise() {
        law_sessions_open_in_one_way();
        law_edits_are_followed_in_one_way();
        one_step();
        law_lines_have_one_reading();
        execution_laws::law_faithful_streams_are_taken();
        execution_laws::law_done_where_none_is_open();
        execution_laws::law_ends_are_earliest();
        execution_laws::law_acts_are_earliest();
        execution_laws::law_last_acts_are_earliest();
        execution_laws::law_streams_are_shown();
        execution_laws::law_acts_are_shown();
    }

    fn ends_by_its_causes() {}

    fn keeps_it_without_memory() {}
}

impl OneRun for SessionCommand {
    fn defines_one() {
        law_sessions_open_in_one_way();
        law_edits_are_followed_in_one_way();
        one_step();
        law_lines_have_one_reading();
    }
}

/// Answers a line while the network is edited. There is no flow if it is edited further.
fn answer_line<R: Threads + Sync>(
    rt: &R,
    alloc: Global,
    answer: &mut Answer,
    state: &mut Editing,
    number: u32,
    line: &[u8],
) -> Result<Option<Flow<InSession>>, AllocError>
    requires { answer.old.text ≡ [] }
    ensures answers { IfOk result (λ flow. TakesStep state.old number line.now answer.new.text
        (unwrap_or flow (edits_on state.new))) }
    ensures spare_capacity { IfOk result (λ flow. HasCapacity session_machine
        (unwrap_or flow (edits_on state.new)) answer.new.capacity) }
{
    match read_step(line) {
        Ok(step) => answer_step(rt, alloc, answer, state, step),
        Err(WordFault::Kind(kind)) => {
            let fault = Fault::Format(number, kind);
            fault.put(answer);
            Ok(Some(Flow::Finish(fault.end())))
        }
        Err(WordFault::OutOfMemory) => Err(AllocError),
    }
}

/// Answers what a line states while the network is edited. There is no flow if it is edited
/// further.
fn answer_step<R: Threads + Sync>(
    rt: &R,
    alloc: Global,
    answer: &mut Answer,
    state: &mut Editing,
    step: Step,
) -> Result<Option<Flow<InSession>>, AllocError>
    requires { answer.old.text ≡ [] }
    ensures answers { IfOk result (λ flow. AnswersStep state.old step answer.new.text
        (unwrap_or flow (edits_on state.new))) }
    ensures spare_capacity { IfOk result (λ flow. HasCapacity session_machine
        (unwrap_or flow (edits_on state.new)) answer.new.capacity) }
{
    match step {
        Step::End => Ok(Some(Flow::Finish(End::Done))),
        Step::Go => go(rt, alloc, answer, state),
        Step::Edit(edit) => {
            state.edit(rt, alloc, answer, &edit)?;
            Ok(None)
        }
        Step::Report => {
            state.report(rt, alloc, answer)?;
            Ok(None)
        }
        Step::Verdict => {
            state.push_verdict(rt, alloc, answer)?;
            Ok(None)
        }
        Step::Proof => {
            state.push_proof(rt, alloc, answer)?;
            Ok(None)
        }
        Step::Table => {
            state.push_table(rt, alloc, answer)?;
            Ok(None)
        }
        Step::Plan => {
            state.push_plan(alloc, answer)?;
            Ok(None)
        }
        Step::Blank => Ok(None),
    }
}

/// Begins the execution of the shown form of the network as it stands, if that is controllable;
/// else puts that it is not, and there is no flow.
fn go<R: Threads + Sync>(
    rt: &R,
    alloc: Global,
    answer: &mut Answer,
    state: &Editing,
) -> Result<Option<Flow<InSession>>, AllocError>
    requires { answer.old.text ≡ [] }
    ensures answers { IfOk result (λ flow. AnswersStep state.now step.Go answer.new.text
        (unwrap_or flow (edits_on state.now))) }
    ensures spare_capacity { IfOk result (λ flow. HasCapacity session_machine
        (unwrap_or flow (edits_on state.now)) answer.new.capacity) }
{
    match state.dispatch(rt, alloc)? {
        Some((shown, dispatch)) => {
            let flow = begin_dispatched(alloc, answer, shown, dispatch)?;
            Ok(Some(executing(flow)))
        }
        None => {
            push_verdict(answer, false)?;
            Ok(None)
        }
    }
}

/// A session goes on as the execution of its network does.
fn executing(flow: Flow<Executing>) -> Flow<InSession>
    ensures { result ≡ wrapped InSession.Executing flow }
{
    match flow {
        Flow::Continue(state) => Flow::Continue(InSession::Executing(state)),
        Flow::Finish(end) => Flow::Finish(end),
    }
}
