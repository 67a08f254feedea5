//! The command `check`: a plan, and then whether the network that it declares is controllable.

ghost use Rattle.std.specs.Prelude.{true, false, IfOk};
ghost use Rattle.check_command.specs.CheckPromise.{CheckPromise};
ghost use Rattle.check_command.specs.CheckAnswers.{check_answers, check_request, check_start};
ghost use Rattle.check_command.specs.CheckAnswers.{check_syntax, checked_plan, engine_test};
ghost use Rattle.check_command.specs.CheckAnswers.{PutsYes, puts_verdict};
ghost use Rattle.command_contracts.specs.Causes.{text_causes};
ghost use Rattle.command_contracts.specs.Programs.{or_nothing};
ghost use Rattle.verdicts.specs.Decisions.{IsOrderedClosure};
ghost use Rattle.verdicts.specs.Verdict.{IsControllableBy};

use crate::engine::{Engine, EnginePlan, EngineTest};
use closure_certificates::laws::law_table_proofs_prove;
use closure_certificates::table_proof;
use command_contracts::{OneRun, Request, Specified, WorkerCount, form_given};
use command_engine::{Answer, AnswersOnce, End, Question, Tested};
use command_words::{Arguments, Syntax};
use common_answers::{put_controllable, put_proved, put_refuted};
use input_texts::{PlanForm, PlanInput};
use net_model::Network;
use network_closure::Closed;
use std::alloc::{AllocError, Global};
use std::marker::Model;
use std::thread::Threads;
use strategy_model::laws::shown::law_controllable_is_shown;
use verdicts::Verdict;

/// Whether a network is controllable: the command `check` reads a plan, and puts `controllable` if
/// a strategy controls its network, else `not controllable` and a certificate which `judge`
/// accepts. If a proof is wanted, a certificate which `judge` accepts stands after `controllable`
/// too. Certificates speak of the shown form. It ends with 0 in the first case, and with 1 in the
/// second. What it promises is `CheckPromise`.
#[derive(Drop)]
pub struct Check {
    flags: CheckFlags,
    workers: WorkerCount,
}

/// What the flags of `check` say.
#[derive(Clone, Copy)]
pub struct CheckFlags {
    form: PlanForm,
    /// Whether a proof is wanted if the network is controllable: `--proof`.
    proof: bool,
    /// By which engine it is decided: `--engine`.
    engine: Engine,
}

impl CheckFlags {
    ghost use Rattle.std.specs.Prelude.{◌≡◌};
    ghost use Rattle.check_command.specs.CheckAnswers.{engine_test};

    /// Whether the engine takes the network of the plan.
    fn engine_test(&self) -> EngineTest
        ensures { result ≡ engine_test self.now }
    {
        EngineTest {
            engine: self.engine,
            notation: self.form.notation,
        }
    }
}

impl Model for Check {
    ghost use Rattle.check_command.specs.declared.check_question.CheckFlags.{CheckFlags};

    ghost Value = { CheckFlags };

    ghost view = { λ check. check.flags };
}

impl Question<EnginePlan> for Check {
    ghost answers = { λ check net number. check_answers check net };

    fn answer<R: Threads + Sync>(
        self,
        rt: &R,
        alloc: Global,
        answer: &mut Answer,
        value: EnginePlan,
        _number: u32,
    ) -> Result<End, AllocError> {
        put_verdict(rt, alloc, answer, value, &self)
    }
}

impl Request for Check {
    ghost syntax = { check_syntax };

    ghost query = { check_request };

    fn words() -> Syntax<'static> {
        Syntax {
            flags: &["json", "proof"],
            options: &["workers", "delay", "engine"],
            operands: &[],
        }
    }

    fn of(arguments: &Arguments<'_>) -> Option<Check> {
        let workers = WorkerCount::of(arguments.option(0))?;
        let form = form_given(arguments.flag(0), arguments.option(1))?;
        let engine = Engine::given(arguments.option(2))?;
        let proof = arguments.flag(1);
        let flags = CheckFlags {
            form,
            proof,
            engine,
        };
        Some(Check { flags, workers })
    }

    fn workers_decide_nothing() {}
}

/// The plan that `check` reads, of which the engine takes the network: how far it was read.
pub type CheckText = Tested<PlanInput, EngineTest>;

impl Specified for Check {
    type Request = Check;

    type Served = AnswersOnce<Check, CheckText>;

    ghost start = { check_start };

    ghost promise = { λ flags. or_nothing (text_causes (checked_plan flags)) (CheckPromise flags) };

    fn initial(alloc: Global, request: Check) -> AnswersOnce<Check, CheckText> {
        let flags = request.flags;
        let test = flags.engine_test();
        let text = flags.form.initial(alloc);
        AnswersOnce {
            question: request,
            text: Tested { text, test },
        }
    }

    fn keeps_its_promise() {}

    fn ends_by_its_causes() {}

    fn keeps_it_without_memory() {}
}

impl OneRun for Check {
    fn defines_one() {}
}

/// Puts the verdict of a network in place of what stood in the buffer.
fn put_verdict<R: Threads + Sync>(
    rt: &R,
    alloc: Global,
    answer: &mut Answer,
    net: EnginePlan,
    check: &Check,
) -> Result<End, AllocError>
    ensures { IfOk result (check_answers check.now net answer.new.text) }
{
    if check.flags.proof {
        put_with_proof(rt, alloc, answer, net, &check.workers)
    } else {
        put_without_proof(rt, alloc, answer, net, &check.workers)
    }
}

/// Puts the verdict of a network, and no proof that it is controllable, in place of what stood in
/// the buffer.
fn put_without_proof<R: Threads + Sync>(
    rt: &R,
    alloc: Global,
    answer: &mut Answer,
    net: EnginePlan,
    workers: &WorkerCount,
) -> Result<End, AllocError>
    ensures { IfOk result (puts_verdict false net answer.new.text) }
{
    match net.refutation(&workers.workers(rt, alloc))? {
        None => put_controllable(answer),
        Some(certificate) => put_refuted(alloc, answer, &certificate),
    }
}

/// Puts the verdict of a network, and the proof if it is controllable, in place of what stood in
/// the buffer.
fn put_with_proof<R: Threads + Sync>(
    rt: &R,
    alloc: Global,
    answer: &mut Answer,
    net: EnginePlan,
    workers: &WorkerCount,
) -> Result<End, AllocError>
    ensures { IfOk result (puts_verdict true net answer.new.text) }
{
    match net.decide_by_closure(&workers.workers(rt, alloc))? {
        Verdict::Controllable {
            stated,
            shown,
            closed,
        } => put_proof(alloc, answer, &stated, &shown, &closed),
        Verdict::Refuted(certificate) => put_refuted(alloc, answer, &certificate),
    }
}

/// Puts that a network is controllable, and the certificate that proves it by its shown form, in
/// place of what stood in the buffer.
fn put_proof(
    alloc: Global,
    answer: &mut Answer,
    net: &Network,
    shown: &Network,
    closed: &Closed,
) -> Result<End, AllocError>
    requires verdict { IsControllableBy IsOrderedClosure net.now shown.now closed.now }
    ensures { IfOk result (PutsYes true net.now answer.new.text) }
{
    law_table_proofs_prove();
    law_controllable_is_shown();
    net.sound();
    let certificate = table_proof(alloc, shown, &closed.table, closed.order.as_slice())?;
    put_proved(alloc, answer, &certificate)
}
