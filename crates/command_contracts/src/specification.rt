//! A command of the program: where it begins, what it promises, and how it is served.

ghost use Rattle.std.specs.Prelude.{◌≡◌, ◌⊎◌, ◌≤◌, ℕ, List, [], map, string_bytes};
ghost use Rattle.plan_port.specs.Talk.{Piece};
ghost use Rattle.command_engine.specs.Breaks.{BreaksForMemory};
ghost use Rattle.command_engine.specs.Limits.{least_capacity};
ghost use Rattle.command_contracts.specs.Programs.{Promise, PromiseHolds, RunsEndByCause};
ghost use Rattle.command_contracts.specs.Programs.{EachDefinesOne, RunsAs, serves};
ghost use Rattle.command_contracts.specs.Requests.{program_by};

use crate::no_input::{RefusedWords, print_answer};
use crate::requests::{Request, request_in};
use crate::status::Status;
use command_engine::{Command, serve};
use plan_port::Port;
use std::alloc::{AllocError, Global};
use std::thread::Threads;

/// A command of the program by the question that it answers or the phase that it begins, with the
/// machine that serves it and what it promises of what it puts for an input. Both where it begins
/// and what it promises depend on what the words ask of it.
pub trait Specified: Drop {
    /// What the words ask of it.
    type Request: Request;

    /// The command that is served.
    type Served: Command;

    /// Before the first line.
    ghost start: { Self.Request → Self.Served };

    /// What is promised of an input, the bytes put for it, and how the run ends.
    ghost promise: { Self.Request → Promise };

    /// The command before the first line.
    fn initial(alloc: Global, request: Self::Request) -> Self::Served
        ensures start { result ≡ start request }
        ensures spare_capacity { Self.Served.machine.spare_capacity result ≤ least_capacity };

    /// The law that each run keeps the promise.
    fn keeps_its_promise()
        ensures { (query : Self.Request)
            → PromiseHolds (serves Self.Served.machine (start query) (promise query)) };

    /// The law that each run, which keeps the promise, ends by the causes in its input.
    fn ends_by_its_causes()
        ensures { (query : Self.Request)
            → PromiseHolds (serves Self.Served.machine (start query) (promise query))
            → RunsEndByCause (serves Self.Served.machine (start query) (promise query)) };

    /// The law that a run which breaks off for want of memory has put nothing, or what is promised
    /// for that.
    fn keeps_it_without_memory()
        ensures { (query : Self.Request) (input untaken put : List ℕ) (pieces : List Piece)
            → BreaksForMemory Self.Served.machine (start query) input untaken put pieces
            → (put ≡ []) ⊎ (promise query).without_memory input put };
}

/// A command of which an input has at most one run.
pub trait OneRun: Specified {
    /// The law that an input has at most one run: one pair of bytes and exit status.
    fn defines_one()
        ensures { EachDefinesOne (λ query. serves Self.Served.machine (Self.start query)
            (Self.promise query)) };
}

/// Serves a command over a port as the words after that of the command ask, or refuses the words.
/// If there is no memory to read them, nothing is taken or put.
pub fn serve_words<R: Threads + Sync, C: Specified, P: Port>(
    rt: &R,
    alloc: Global,
    words: &[String],
    port: &mut P,
) -> Status
    ensures { RunsAs (program_by C.Request.syntax C.Request.query
        (λ query. serves C.Served.machine (C.start query) (C.promise query))
        (map string_bytes words.now)) result (P.seen port.old) (P.seen port.new) }
{
    match request_in::<C::Request>(alloc, words) {
        Ok(Some(request)) => serve_command::<R, C, P>(rt, alloc, request, port),
        Ok(None) => print_answer(rt, alloc, RefusedWords, port),
        Err(AllocError) => Status(8),
    }
}

/// Serves a command over a port, from its first line on.
fn serve_command<R: Threads + Sync, C: Specified, P: Port>(
    rt: &R,
    alloc: Global,
    request: C::Request,
    port: &mut P,
) -> Status
    ensures { RunsAs (serves C.Served.machine (C.start request) (C.promise request)) result
        (P.seen port.old) (P.seen port.new) }
{
    C::keeps_its_promise();
    C::keeps_it_without_memory();
    Status(serve(rt, alloc, C::initial(alloc, request), port).number())
}
