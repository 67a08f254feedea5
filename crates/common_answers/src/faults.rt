//! The first refusal of an input.

ghost use Rattle.std.specs.Prelude.{◌≡◌, ◌≤◌, [], ◌∷◌, codes, length};
ghost use Rattle.std.specs.Fmt.{decimal};
ghost use Rattle.texts.specs.PrintedLines.{printed_line};
ghost use Rattle.command_engine.specs.declared.machines.Stop.{Stop};
ghost use Rattle.plan_json.specs.Words.{member_word};
ghost use Rattle.common_answers.specs.Faults.{document_fault_end, document_fault_words, refusing};
ghost use Rattle.common_answers.specs.Faults.{stop_fault};

use command_engine::{Answer, End, Refusal, Stop, Word};
use net_model::{BuildFault, FormatKind};
use plan_json::{JsonFault, Member};

/// The first refusal of an input, with the number of its line, or, of a document, with its member
/// and place. A line of its own is put for it, and it ends the run with 4 if a limit was passed,
/// else with 3.
#[derive(Clone, Copy, Debug, PartialEq, Eq)]
pub enum Fault {
    /// The line is no line of its text.
    Format(u32, FormatKind),
    /// The part of the plan that the line declares is refused; of a document the number is that of
    /// the part.
    Part(u32, BuildFault),
    /// The document of the plan has a fault.
    Document(JsonFault),
    /// With the line the document of the plan is longer than it may be.
    DocumentTooLong(u32),
    /// The line is longer than it may be.
    LineTooLong(u32),
    /// The input has more bytes than it may have, and the byte beyond belongs to the line or is its
    /// end.
    InputTooMuch(u32),
    /// The network of the plan that ends in the line has more keys than shared cells hold; of a
    /// document the number is 0.
    Cells(u32),
    /// The line names a plan by a name that stands before.
    DuplicatePlan(u32),
    /// The line names a plan more than there may be.
    TooManyPlans(u32),
}

impl Refusal for Fault {
    ghost refusing = { refusing };

    fn put(&self, answer: &mut Answer) {
        match *self {
            Fault::Format(number, FormatKind::NumberLimit) => {
                refuse_line(answer, "limit", number, "number");
            }
            Fault::Format(number, kind) => refuse_line(answer, "format", number, kind.word()),
            Fault::Part(number, BuildFault::Limit(which, _)) => {
                refuse_line(answer, "limit", number, which.word());
            }
            Fault::Part(number, fault) => refuse_line(answer, "plan", number, fault.word()),
            Fault::Document(fault) => refuse_document(answer, fault),
            Fault::DocumentTooLong(number) => refuse_line(answer, "limit", number, "json"),
            Fault::LineTooLong(number) => refuse_line(answer, "limit", number, "line"),
            Fault::InputTooMuch(number) => refuse_line(answer, "limit", number, "total"),
            Fault::Cells(number) => refuse_line(answer, "limit", number, "cells"),
            Fault::DuplicatePlan(number) => refuse_line(answer, "format", number, "duplicate-plan"),
            Fault::TooManyPlans(number) => refuse_line(answer, "limit", number, "plans"),
        }
    }

    fn end(&self) -> End {
        match *self {
            Fault::Format(_, FormatKind::NumberLimit) => End::Limit,
            Fault::Format(..) => End::Fault,
            Fault::Part(_, BuildFault::Limit(..)) => End::Limit,
            Fault::Part(..) => End::Fault,
            Fault::Document(fault) => document_fault_end(fault),
            Fault::DocumentTooLong(_) => End::Limit,
            Fault::LineTooLong(_) => End::Limit,
            Fault::InputTooMuch(_) => End::Limit,
            Fault::Cells(_) => End::Limit,
            Fault::DuplicatePlan(_) => End::Fault,
            Fault::TooManyPlans(_) => End::Limit,
        }
    }
}

/// Puts the refusal of a line: the class of the fault, the number, and the word that says what is
/// wrong.
fn refuse_line(answer: &mut Answer, class: &'static str, number: u32, word: &'static str)
    requires class { length class.now ≤ 6 }
    requires word { length word.now ≤ 18 }
    ensures line { answer.new.text ≡ printed_line
        (codes "error" ∷ class.now ∷ decimal number ∷ word.now ∷ []) }
    ensures capacity { answer.old.capacity ≤ answer.new.capacity }
{
    answer.refuse(&[
        Word::Text("error"),
        Word::Text(class),
        Word::Number(u64::from(number)),
        Word::Text(word),
    ]);
}

/// Puts the refusal of a document.
fn refuse_document(answer: &mut Answer, fault: JsonFault)
    ensures line { answer.new.text ≡ printed_line (codes "error" ∷ document_fault_words fault) }
    ensures capacity { answer.old.capacity ≤ answer.new.capacity }
{
    match fault {
        JsonFault::NotJson => refuse_text(answer, "not-json"),
        JsonFault::Shape(member, place) => refuse_item(answer, "shape", member, place),
        JsonFault::BadName(member, place) => refuse_item(answer, "bad-name", member, place),
        JsonFault::NumberLimit(member, place) => refuse_number(answer, member, place),
        JsonFault::OutOfMemory => refuse_text(answer, "out of memory"),
    }
}

fn refuse_text(answer: &mut Answer, word: &'static str)
    requires { length word.now ≤ 18 }
    ensures line { answer.new.text ≡ printed_line (codes "error" ∷ codes "json" ∷ word.now ∷ []) }
    ensures capacity { answer.old.capacity ≤ answer.new.capacity }
{
    answer.refuse(&[Word::Text("error"), Word::Text("json"), Word::Text(word)]);
}

fn refuse_item(answer: &mut Answer, word: &'static str, member: Member, place: u32)
    requires { length word.now ≤ 18 }
    ensures line { answer.new.text ≡ printed_line
        (codes "error" ∷ codes "json" ∷ word.now ∷ member_word member ∷ decimal place ∷ []) }
    ensures capacity { answer.old.capacity ≤ answer.new.capacity }
{
    answer.refuse(&[
        Word::Text("error"),
        Word::Text("json"),
        Word::Text(word),
        Word::Text(member.word()),
        Word::Number(u64::from(place)),
    ]);
}

fn refuse_number(answer: &mut Answer, member: Member, place: u32)
    ensures line { answer.new.text ≡ printed_line
        (codes "error" ∷ codes "limit" ∷ member_word member ∷ decimal place ∷ codes "number" ∷ []) }
    ensures capacity { answer.old.capacity ≤ answer.new.capacity }
{
    answer.refuse(&[
        Word::Text("error"),
        Word::Text("limit"),
        Word::Text(member.word()),
        Word::Number(u64::from(place)),
        Word::Text("number"),
    ]);
}

/// A number beyond its limit ends the run as a limit that was passed, and every other fault of a
/// document as a fault.
fn document_fault_end(fault: JsonFault) -> End
    ensures { result ≡ document_fault_end fault }
{
    match fault {
        JsonFault::NumberLimit(..) => End::Limit,
        _ => End::Fault,
    }
}

/// The fault if no line comes; if the input ends within a text, it is the fault of that text.
pub fn stop_fault(number: u32, stop: Stop, missing: FormatKind) -> Fault
    ensures { result ≡ stop_fault number stop missing }
{
    match stop {
        Stop::LineTooLong => Fault::LineTooLong(number),
        Stop::InputTooMuch => Fault::InputTooMuch(number),
        Stop::InputEnded => Fault::Format(number, missing),
    }
}
