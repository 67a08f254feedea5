//! The command `judge`: a plan, and after it a certificate of one of two kinds, which is judged.

ghost use Rattle.std.specs.Prelude.{◌≡◌, IfOk, OnOk};
ghost use Rattle.std.specs.Option.{option_map};
ghost use Rattle.judge_command.specs.JudgePromise.{JudgePromise};
ghost use Rattle.judge_command.specs.JudgeAnswers.{judge_answers, judge_request, judge_given};
ghost use Rattle.judge_command.specs.JudgeAnswers.{judge_start, judge_syntax, judgement_line};
ghost use Rattle.judge_command.specs.JudgeAnswers.{judgement_end, strong_judgement_line};
ghost use Rattle.judge_command.specs.JudgeAnswers.{strong_judgement_end, PutsProof};
ghost use Rattle.command_contracts.specs.Causes.{text_causes};
ghost use Rattle.command_contracts.specs.Programs.{or_nothing};
ghost use Rattle.judge_command.specs.JudgeInput.{judge_grammar};

use cert_checker::laws::{law_accepted_controls, law_accepted_excludes};
use cert_checker::{Judgement, judge};
use cert_format::{Certificate, StrongCert};
use command_contracts::{OneRun, Request, Specified, form_given};
use command_engine::{Answer, AnswersOnce, End, Question, Then, Word};
use command_words::{Arguments, Syntax};
use input_texts::{PlanForm, PlanInput, PlanNetwork, Proof, ProofInput, ProofKind};
use net_model::Network;
use std::alloc::{AllocError, Global};
use std::thread::Threads;
use strong_plan::laws::law_accepted_excludes as accepted_excludes_strong;
use strong_plan::{StrongJudgement, judge_strong};

/// What the judgement of a certificate of a network is: the command `judge` reads a plan and a
/// certificate, and puts the judgement of the certificate. With `--strong` that is one that the
/// network, as it is stated, has no strong schedule. It ends with 0 if it is accepted, and with 1
/// if it is refused. What it promises is `JudgePromise`.
#[derive(Clone, Copy)]
pub struct Judge {
    form: PlanForm,
    kind: ProofKind,
}

impl Question<(PlanNetwork, Proof)> for Judge {
    ghost answers = { λ judge value number. judge_answers judge value };

    fn answer<R: Threads + Sync>(
        self,
        rt: &R,
        alloc: Global,
        answer: &mut Answer,
        value: (PlanNetwork, Proof),
        _number: u32,
    ) -> Result<End, AllocError> {
        match &value.1 {
            Proof::Control(cert) => put_control(rt, alloc, answer, value.0.network(), cert),
            Proof::Strong(cert) => put_strong(alloc, answer, value.0.network(), cert),
        }
    }
}

impl Request for Judge {
    ghost syntax = { judge_syntax };

    ghost query = { judge_request };

    fn words() -> Syntax<'static> {
        Syntax {
            flags: &["json", "strong"],
            options: &["delay"],
            operands: &[],
        }
    }

    fn of(arguments: &Arguments<'_>) -> Option<Judge> {
        judge_given(arguments.flag(1), arguments.flag(0), arguments.option(0))
    }

    fn workers_decide_nothing() {}
}

/// The command: how far its input was read.
pub type Judging = AnswersOnce<Judge, Then<PlanInput, PlanNetwork, ProofInput>>;

impl Specified for Judge {
    type Request = Judge;

    type Served = Judging;

    ghost start = { judge_start };

    ghost promise = { λ judge. or_nothing (text_causes (judge_grammar judge))
        (JudgePromise judge) };

    fn initial(alloc: Global, request: Judge) -> Judging {
        AnswersOnce {
            question: request,
            text: Then::First(request.form.initial(alloc), request.kind.initial(alloc)),
        }
    }

    fn keeps_its_promise() {
        law_accepted_excludes();
        law_accepted_controls();
        accepted_excludes_strong();
    }

    fn ends_by_its_causes() {}

    fn keeps_it_without_memory() {}
}

impl OneRun for Judge {
    fn defines_one() {}
}

/// The request, by whether `--strong` and `--json` are given, and the value of `--delay`, if it is
/// given; `None` if the delay is given with `--strong`, or is no number from 0 to 1,000,000.
fn judge_given(strong: bool, json: bool, delay: Option<&str>) -> Option<Judge>
    ensures { result ≡ judge_given strong json (option_map (λ text. text.now) delay.entry) }
{
    if strong && delay.is_some() {
        return None;
    }
    let form = form_given(json, delay)?;
    let kind = ProofKind::of(strong);
    Some(Judge { form, kind })
}

/// Puts the judgement of a certificate of a network in place of what stood in the buffer.
fn put_control<R: Threads + Sync>(
    rt: &R,
    alloc: Global,
    answer: &mut Answer,
    net: &Network,
    cert: &Certificate,
) -> Result<End, AllocError>
    ensures { IfOk result (PutsProof net.now (Proof.Control cert.now) answer.new.text) }
{
    let judgement = judge(rt, alloc, net, cert)?;
    put_judgement(alloc, answer, &judgement)?;
    Ok(judgement_end(&judgement))
}

/// Puts the judgement of a strong certificate of a network in place of what stood in the buffer.
fn put_strong(
    alloc: Global,
    answer: &mut Answer,
    net: &Network,
    cert: &StrongCert,
) -> Result<End, AllocError>
    ensures { IfOk result (PutsProof net.now (Proof.Strong cert.now) answer.new.text) }
{
    let judgement = judge_strong(net, cert);
    put_strong_judgement(alloc, answer, &judgement)?;
    Ok(strong_judgement_end(&judgement))
}

/// Puts the line of a judgement of a strong certificate in place of what stood in the buffer.
fn put_strong_judgement(
    alloc: Global,
    answer: &mut Answer,
    judgement: &StrongJudgement,
) -> Result<(), AllocError>
    ensures { OnOk result (answer.new.text ≡ strong_judgement_line judgement.now) }
{
    let text = judgement.to_string(alloc)?;
    answer.clear();
    answer.push_line(&[Word::Text(text.as_str())])
}

fn strong_judgement_end(judgement: &StrongJudgement) -> End
    ensures { result ≡ strong_judgement_end judgement.now }
{
    match judgement {
        StrongJudgement::Accepted => End::Done,
        StrongJudgement::Refused { .. } => End::Refused,
    }
}

/// Puts the line of a judgement in place of what stood in the buffer.
fn put_judgement(
    alloc: Global,
    answer: &mut Answer,
    judgement: &Judgement,
) -> Result<(), AllocError>
    ensures { OnOk result (answer.new.text ≡ judgement_line judgement.now) }
{
    let text = judgement.to_string(alloc)?;
    answer.clear();
    answer.push_line(&[Word::Text(text.as_str())])
}

fn judgement_end(judgement: &Judgement) -> End
    ensures { result ≡ judgement_end judgement.now }
{
    match judgement {
        Judgement::Accepted(_) => End::Done,
        Judgement::Refused { .. } => End::Refused,
    }
}
