//! The command `deadline`: a plan, and the tightest deadline from one point of it to another.

ghost use Rattle.std.specs.Prelude.{◌≡◌, ◌++◌, ◌≤◌, codes, option_map, IfOk, IfSome, OnOk};
ghost use Rattle.std.specs.Fmt.{signed_decimal};
ghost use Rattle.cert_format.specs.CertificateWords.{HasWeights, printed_certificate};
ghost use Rattle.command_contracts.specs.Programs.{or_nothing};
ghost use Rattle.command_contracts.specs.WorkerCounts.{most_workers, workers_of};
ghost use Rattle.common_answers.specs.Faults.{fault_end, fault_line};
ghost use Rattle.deadline_search.specs.Deadlines.{lowest};
ghost use Rattle.deadline_command.specs.DeadlineAnswers.{CanBePrinted, deadline_answers};
ghost use Rattle.deadline_command.specs.DeadlineAnswers.{deadline_request, deadline_end};
ghost use Rattle.deadline_command.specs.DeadlineAnswers.{deadline_line, deadline_start};
ghost use Rattle.deadline_command.specs.DeadlineAnswers.{deadline_syntax, deadline_text, kept_text};
ghost use Rattle.deadline_command.specs.DeadlineAnswers.{name_given};
ghost use Rattle.deadline_command.specs.Points.{goal_number, bounds_limit_fault};
ghost use Rattle.deadline_command.specs.DeadlinePromise.{DeadlinePromise, deadline_causes};

use crate::points::{DeadlineWords, PlanPoints, bounds_limit_fault, goal_number};
use cert_format::{Certificate, print_certificate};
use command_contracts::{OneRun, Request, Specified, count_within};
use command_engine::{Answer, AnswersOnce, End, Question, Refusal, Tested, Word};
use command_words::{Arguments, Syntax};
use common_answers::put_refuted;
use deadline_search::{Deadline, DeadlineFault, LOWEST, tightest};
use input_texts::{Delay, Notation, PlanForm, PlanInput};
use net_model::{Name, Weight};
use parallel_rounds::NoGate;
use std::alloc::{AllocError, Global};
use std::marker::Model;
use std::thread::Threads;

/// How many workers there may be.
const MOST_WORKERS: u32 = 64;

/// The tightest deadline from one point of a plan to another: the command `deadline` reads a plan,
/// and puts `controllable` if a strategy controls its network, and then the least number for which
/// one still does with the bound that the second point comes at most so much after the first, with
/// two certificates which `judge` accepts, one on each side; or that no number will do, or that
/// every one will, with one certificate; else `not controllable` and a certificate. It ends with 0
/// if a strategy controls the network, and with 1 if none does. Each certificate is the one that
/// `check --proof` puts for the plan with that bound. The plan has its own delay. If the network is
/// controllable and has 20,000 bounds, as many as it may have, `error limit` is put instead, and it
/// ends with 4. What it promises is `DeadlinePromise`.
#[derive(Drop)]
pub struct DeadlineQuestion {
    words: DeadlineWords,
    workers: u32,
}

impl Model for DeadlineQuestion {
    ghost use Rattle.std.specs.Prelude.{◌≤◌};
    ghost use Rattle.command_contracts.specs.WorkerCounts.{most_workers};
    ghost use Rattle.deadline_command.specs.declared.points.DeadlineWords.{DeadlineWords};

    ghost Value = { DeadlineWords };

    ghost view = { λ query. query.words };

    ghost invariant = { λ query. (1 ≤ query.workers) × (query.workers ≤ most_workers) };
}

impl Question<PlanPoints> for DeadlineQuestion {
    ghost answers = { deadline_answers };

    fn answer<R: Threads + Sync>(
        self,
        rt: &R,
        alloc: Global,
        answer: &mut Answer,
        value: PlanPoints,
        number: u32,
    ) -> Result<End, AllocError> {
        let (net, from, to) = value.into_parts();
        match tightest(rt, alloc, net, from, to, self.workers, &NoGate) {
            Ok(deadline) => put_deadline(alloc, answer, &self.words, &deadline),
            Err(DeadlineFault::Full) => Ok(put_full(answer, &self.words, number)),
            Err(DeadlineFault::OutOfMemory) => Err(AllocError),
        }
    }
}

impl Request for DeadlineQuestion {
    ghost syntax = { deadline_syntax };

    ghost query = { deadline_request };

    fn words() -> Syntax<'static> {
        Syntax {
            flags: &["json"],
            options: &["workers"],
            operands: &["FROM", "TO"],
        }
    }

    fn of(arguments: &Arguments<'_>) -> Option<DeadlineQuestion> {
        let workers = workers_given(arguments.option(0))?;
        let notation = Notation::of(arguments.flag(0));
        let from = name_given(arguments.operand(0))?;
        let to = name_given(arguments.operand(1))?;
        let words = DeadlineWords { notation, from, to };
        Some(DeadlineQuestion { words, workers })
    }

    fn workers_decide_nothing() {}
}

/// The command: how far its input was read.
pub type ServedDeadline = AnswersOnce<DeadlineQuestion, Tested<PlanInput, DeadlineWords>>;

impl Specified for DeadlineQuestion {
    type Request = DeadlineQuestion;

    type Served = ServedDeadline;

    ghost start = { deadline_start };

    ghost promise = { λ words. or_nothing (deadline_causes words) (DeadlinePromise words) };

    fn initial(alloc: Global, request: DeadlineQuestion) -> ServedDeadline {
        let words = request.words.again();
        let form = PlanForm {
            notation: words.notation,
            delay: Delay::Own,
        };
        AnswersOnce {
            question: request,
            text: Tested {
                text: form.initial(alloc),
                test: words,
            },
        }
    }

    fn keeps_its_promise() {}

    fn ends_by_its_causes() {}

    fn keeps_it_without_memory() {}
}

impl OneRun for DeadlineQuestion {
    fn defines_one() {}
}

/// So many workers as the value of the option says, or one if it is not given; `None` if the value
/// is no number from 1 to 64.
fn workers_given(value: Option<&str>) -> Option<u32>
    ensures value { result ≡ workers_of (option_map (λ text. text.now) value.entry) }
    ensures within { IfSome result (λ workers. (1 ≤ workers) × (workers ≤ most_workers)) }
{
    match value {
        None => Some(1),
        Some(word) => count_within(word.as_bytes(), MOST_WORKERS),
    }
}

/// The name that a word is, or `None` if there is no word, or it is none.
fn name_given(word: Option<&str>) -> Option<Name>
    ensures { result ≡ name_given (option_map (λ text. text.now) word.entry) }
{
    match word {
        Some(word) => Name::new(word.as_bytes()).ok(),
        None => None,
    }
}

/// Puts the tightest deadline of a network, with its certificates, in place of what stood in the
/// buffer.
fn put_deadline(
    alloc: Global,
    answer: &mut Answer,
    words: &DeadlineWords,
    deadline: &Deadline,
) -> Result<End, AllocError>
    requires printed { CanBePrinted deadline.now }
    ensures { IfOk result (λ end. (answer.new.text ≡ deadline_text words.now deadline.now)
        × (end ≡ deadline_end deadline.now)) }
{
    match deadline {
        Deadline::NotControllable { refutation } => put_refuted(alloc, answer, refutation),
        Deadline::Never {
            goal: _,
            refutation,
        } => put_one(alloc, answer, words, "none", refutation),
        Deadline::Least {
            goal: _,
            most,
            proof,
            refutation,
        } => put_least(alloc, answer, words, *most, proof, refutation),
        Deadline::Floor { goal: _, proof } => put_floor(alloc, answer, words, proof),
    }
}

/// Puts that a network is controllable, what is said of its deadline, and a certificate in place of
/// what stood in the buffer.
fn put_one(
    alloc: Global,
    answer: &mut Answer,
    words: &DeadlineWords,
    said: &str,
    certificate: &Certificate,
) -> Result<End, AllocError>
    requires weights { HasWeights certificate.now }
    ensures { IfOk result (λ end. (answer.new.text ≡ kept_text words.now said.now
        (printed_certificate certificate.now)) × (end ≡ End.Done)) }
{
    answer.clear();
    answer.push_line(&[Word::Text("controllable")])?;
    push_deadline(answer, words, said)?;
    push_certificate(alloc, answer, certificate)?;
    Ok(End::Done)
}

/// Puts the least number for which a network can be controlled, with a certificate on each side, in
/// place of what stood in the buffer.
fn put_least(
    alloc: Global,
    answer: &mut Answer,
    words: &DeadlineWords,
    most: Weight,
    proof: &Certificate,
    refutation: &Certificate,
) -> Result<End, AllocError>
    requires proof { HasWeights proof.now }
    requires refutation { HasWeights refutation.now }
    ensures { IfOk result (λ end. (answer.new.text ≡ kept_text words.now (signed_decimal most)
        (printed_certificate proof.now ++ printed_certificate refutation.now)) × (end ≡ End.Done)) }
{
    let said = most.to_string(alloc)?;
    put_one(alloc, answer, words, said.as_str(), proof)?;
    push_certificate(alloc, answer, refutation)?;
    Ok(End::Done)
}

/// Puts that a network can be controlled with any number, with a certificate of the least one of a
/// plan, in place of what stood in the buffer.
fn put_floor(
    alloc: Global,
    answer: &mut Answer,
    words: &DeadlineWords,
    proof: &Certificate,
) -> Result<End, AllocError>
    requires weights { HasWeights proof.now }
    ensures { IfOk result (λ end. (answer.new.text ≡ kept_text words.now
        (codes "at-most " ++ signed_decimal lowest) (printed_certificate proof.now))
        × (end ≡ End.Done)) }
{
    let said = format!(in alloc; "at-most {LOWEST}")?;
    put_one(alloc, answer, words, said.as_str(), proof)
}

/// Puts the line of a deadline.
fn push_deadline<'a>(
    answer: &mut Answer,
    words: &'a DeadlineWords,
    said: &'a str,
) -> Result<(), AllocError>
    ensures { OnOk result (answer.new.text ≡ answer.old.text ++ deadline_line words.now said.now) }
{
    answer.push_line(&[
        Word::Text("deadline"),
        Word::Name(words.from.bytes()),
        Word::Name(words.to.bytes()),
        Word::Text(said),
    ])
}

/// Puts the text of a certificate.
fn push_certificate(
    alloc: Global,
    answer: &mut Answer,
    certificate: &Certificate,
) -> Result<(), AllocError>
    requires { HasWeights certificate.now }
    ensures { OnOk result (answer.new.text ≡ answer.old.text ++ printed_certificate
        certificate.now) }
{
    let text = print_certificate(alloc, certificate)?;
    answer.push_text(text.as_slice())
}

/// Puts that a controllable network has no capacity for one more bound, by the number of the line
/// that ends the plan.
fn put_full(answer: &mut Answer, words: &DeadlineWords, number: u32) -> End
    ensures text { answer.new.text ≡ fault_line
        (bounds_limit_fault (goal_number words.now.notation number)) }
    ensures end { result ≡ fault_end (bounds_limit_fault (goal_number words.now.notation number)) }
{
    let fault = bounds_limit_fault(goal_number(words.notation, number));
    fault.put(answer);
    fault.end()
}
