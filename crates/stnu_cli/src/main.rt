//! The program: a command of words is answered over standard input and output.
//!
//! `main` alone has no contract: it passes words, bytes and the status on. The stored run of this
//! crate and `examples/run-all` try it.
#![tactic(auto)]

ghost use Rattle.std.specs.Prelude.{map, string_bytes};
ghost use Rattle.stnu_run.specs.AcrossCommands.{AgreesAcrossCommands};
ghost use Rattle.stnu_run.specs.EngineLaws.{EngineIsLawful};
ghost use Rattle.stnu_run.specs.RelaxedRuns.{HoldsOfRelaxed};
ghost use Rattle.stnu_run.specs.RunClaims.{HoldsOfRun};
ghost use Rattle.stnu_run.specs.RunLaws.{IsOnlyDefined, OptionsChangeNothing, PutsAccepted};
ghost use Rattle.stnu_run.specs.Table.{RefusesOutside};

use plan_port::{Port, StdPort};
use std::alloc::{AllocError, Global};
use std::env;
use std::io::ErrorKind;
use std::process::ExitCode;
use std::rt::Env;
use std::thread::Threads;
use stnu_run::{Status, law_runs_are_lawful, run};

/// The exit status if there is no memory for the words.
const NO_MEMORY: u8 = 8;

/// The words with which the program was called. There are none if they cannot be made for another
/// cause than memory, as when one is not UTF-8.
fn given_words<R: Env + AllocGlobal>(rt: &R) -> Result<Vec<String>, AllocError> {
    match env::args(rt) {
        Ok(words) => words.collect(rt.alloc()),
        Err(error) if error.kind() == ErrorKind::OutOfMemory => Err(AllocError),
        Err(_) => Ok(Vec::new(rt.alloc())),
    }
}

/// Answers words over a port. The status is 2 only if the words are not in the table of commands;
/// and there it is, unless the refusal was not put, at 6, or there was no memory, at 8. What is put
/// as a certificate `judge` accepts, no other bytes are defined, the number of workers and of
/// feeders and the engine change nothing, other commands say the same of the same plan, and a plan
/// that is relaxed stays controllable, with no later deadline. The laws of the engine hold.
fn answer<R: Threads + Sync, P: Port>(
    rt: &R,
    alloc: Global,
    words: &Vec<String>,
    port: &mut P,
) -> Status
    ensures refuses { RefusesOutside (map string_bytes words.now.items) result }
    ensures accepted { HoldsOfRun PutsAccepted (map string_bytes words.now.items) result
        (P.seen port.old) (P.seen port.new) }
    ensures only { IsOnlyDefined (map string_bytes words.now.items) result (P.seen port.old)
        (P.seen port.new) }
    ensures options { HoldsOfRun OptionsChangeNothing (map string_bytes words.now.items) result
        (P.seen port.old) (P.seen port.new) }
    ensures agrees { HoldsOfRun AgreesAcrossCommands (map string_bytes words.now.items) result
        (P.seen port.old) (P.seen port.new) }
    ensures relaxed { HoldsOfRun HoldsOfRelaxed (map string_bytes words.now.items) result
        (P.seen port.old) (P.seen port.new) }
    ensures engine { EngineIsLawful }
{
    law_runs_are_lawful();
    run(rt, alloc, words, port)
}

/// Answers the words of its call over standard input and output. It has no contract.
fn main(rt: HostRuntime) -> ExitCode {
    let Ok(words) = given_words(&rt) else {
        return ExitCode::from(NO_MEMORY);
    };
    let mut port = StdPort::new(&rt);
    let status = answer(&rt, rt.alloc(), &words, &mut port);
    ExitCode::from(status.0)
}
