//! Commands without an input, and the refusal of words.

ghost use Rattle.std.specs.Prelude.{◌≡◌, ℕ, List, [], map, string_bytes, IfOk};
ghost use Rattle.std.specs.Thread.{IsSync};
ghost use Rattle.plan_port.specs.WrittenBytes.{Writes};
ghost use Rattle.plan_port.specs.declared.written_bytes.Written.{Written};
ghost use Rattle.command_contracts.specs.Programs.{RunsAs, EachDefinesOne, no_input_number};
ghost use Rattle.command_contracts.specs.Programs.{written_number, prints};
ghost use Rattle.command_contracts.specs.Requests.{RefusesWords, program_by};
ghost use Rattle.command_contracts.specs.declared.no_input.NoInputEnd.{NoInputEnd};

use crate::requests::{Request, request_in};
use crate::status::Status;
use command_engine::{Answer, Word};
use plan_port::{Port, Written, write_all};
use std::alloc::{AllocError, Global};
use std::thread::Threads;

/// How a command without an input ends.
#[derive(Clone, Copy, Debug, PartialEq, Eq)]
pub enum NoInputEnd {
    /// The answer was printed.
    Printed,
    /// The answer was printed, and the network that it is about is not controllable.
    Refuted,
    /// The words are those of no command.
    WordsRefused,
}

impl NoInputEnd {
    /// The exit status: 0, 1 or 2, in the order of the variants.
    fn number(self) -> u8
        ensures { result ≡ no_input_number self }
    {
        match self {
            NoInputEnd::Printed => 0,
            NoInputEnd::Refuted => 1,
            NoInputEnd::WordsRefused => 2,
        }
    }
}

/// A command that puts one answer, and reads nothing.
pub trait NoInput: Drop {
    /// What is put, and how the run ends.
    ghost reported: { Self → List ℕ → NoInputEnd → Type 0 };

    /// The law that there is one answer, and one way in which the run ends.
    fn prints_one()
        ensures { EachDefinesOne (λ query. prints (reported query)) };

    /// Puts the answer into the buffer, which is empty. `AllocError` comes only for want of memory.
    fn answer<R: Threads + Sync>(
        self,
        rt: &R,
        alloc: Global,
        answer: &mut Answer,
    ) -> Result<NoInputEnd, AllocError>
        // An implementation does not learn this from the bound `Sync`.
        requires shared { IsSync R.row }
        requires empty_answer { answer.old.text ≡ [] }
        ensures { IfOk result (λ end. reported self answer.new.text end) };
}

/// Prints the answer to what the words after that of a command ask, or refuses the words. If there
/// is no memory to read them, nothing is put.
pub fn print_words<R: Threads + Sync, T: NoInput + Request, P: Port>(
    rt: &R,
    alloc: Global,
    words: &[String],
    port: &mut P,
) -> Status
    ensures { RunsAs (program_by T.syntax T.query (λ query. prints (T.reported query))
        (map string_bytes words.now)) result (P.seen port.old) (P.seen port.new) }
{
    match request_in::<T>(alloc, words) {
        Ok(Some(request)) => print_answer(rt, alloc, request, port),
        Ok(None) => print_answer(rt, alloc, RefusedWords, port),
        Err(AllocError) => Status(8),
    }
}

/// Runs a command without an input: its answer is put by one writing. Nothing is taken. For want of
/// memory, at 8, nothing is put.
pub fn print_answer<R: Threads + Sync, T: NoInput, P: Port>(
    rt: &R,
    alloc: Global,
    command: T,
    port: &mut P,
) -> Status
    ensures { RunsAs (prints (T.reported command)) result (P.seen port.old) (P.seen port.new) }
{
    let Ok(mut answer) = Answer::new(alloc) else {
        return Status(8);
    };
    match command.answer(rt, alloc, &mut answer) {
        Ok(end) => put(port, &answer, end),
        Err(AllocError) => Status(8),
    }
}

/// Puts an answer, and gives the exit status.
fn put<P: Port>(port: &mut P, answer: &Answer, end: NoInputEnd) -> Status
    ensures { (written : Written) × (result ≡ record { 0 = written_number end written })
        × Writes (P.seen port.old) (P.seen port.new) written answer.now.text }
{
    match write_all(port, answer.bytes()) {
        Written::All => Status(end.number()),
        Written::Part(_) => Status(6),
    }
}

/// The refusal of words that are those of no command.
#[derive(Clone, Copy)]
pub struct RefusedWords;

impl NoInput for RefusedWords {
    ghost reported = { λ refused. RefusesWords };

    fn prints_one() {}

    fn answer<R: Threads + Sync>(
        self,
        _rt: &R,
        _alloc: Global,
        answer: &mut Answer,
    ) -> Result<NoInputEnd, AllocError> {
        answer.refuse(&[Word::Text("error"), Word::Text("words")]);
        Ok(NoInputEnd::WordsRefused)
    }
}
