//! The commands of the program, and the run of the one that the words name.

ghost use Rattle.std.specs.Prelude.{◌≡◌, map, None, Some, string_bytes, MatchOption};
ghost use Rattle.stnu_run.specs.DefinedRuns.{command_of, program_of, program_named};
ghost use Rattle.command_contracts.specs.ExactBytes.{BytesAreExact};
ghost use Rattle.command_contracts.specs.Programs.{ServesProgram, KeepsPromise, HasCauses};
ghost use Rattle.command_contracts.specs.Programs.{KeepsWithoutMemory, RunsAs};
ghost use Rattle.command_contracts.specs.Statuses.{StatusHasCause};

use crate::laws::law_words_are_lawful;
use check_command::Check;
use command_contracts::{RefusedWords, Status, print_answer, print_words, serve_words};
use deadline_command::DeadlineQuestion;
use fleet_command::FleetQuestion;
use judge_command::Judge;
use plan_port::Port;
use play_command::{Forge, Play};
use run_command::Run;
use session_command::SessionCommand;
use show_command::Show;
use std::alloc::Global;
use std::thread::Threads;
use strong_command::StrongQuestion;

/// Does all that the program does: reads the input of the command that the words name over a port,
/// and puts its answers. The first word is the program's name, the second the word of a command;
/// the options and operands of the command stand after it, each option at most once. Which these
/// are, the command's request says (`Check`, `Judge`, ..), and docs/ANSWERS.md what they do and
/// what the command reads and puts. Each line is answered before more of the input is taken, and
/// nothing after the line that ends the command's input is looked at.
///
/// The run ends at its first refusal, with one line and a status that say which: `error words` (2),
/// `error format`, `error json` and `error plan` (3), `error limit` (4). It ends with 5 if a read
/// failed, after the line `error read`, with 6 if a write failed, and with 8 for want of memory:
/// then nothing was put, or what the command promises for that (`session` alone does). Else the
/// command ends it: with 0 (accepted, controllable, shown, a session that is ended, or an execution
/// that is complete), with 1 (refused, or not controllable), or with 7 (an event refused).
///
/// `kept`, `memory` and `bytes` speak of ports that show their bytes, and so do parts of `served`
/// and `status`; standard input and output show none. No clause names a command.
pub fn run<R: Threads + Sync, P: Port>(
    rt: &R,
    alloc: Global,
    words: &Vec<String>,
    port: &mut P,
) -> Status
    // What was taken and put, and when, is what the program of the words defines.
    ensures served { ServesProgram (program_of (map string_bytes words.now.items)) result
        (P.seen port.old) (P.seen port.new) }
    // What the command of the words promises is kept.
    ensures kept { KeepsPromise (program_of (map string_bytes words.now.items)) result
        (P.seen port.old) (P.seen port.new) }
    // Each status has its cause, over every port.
    ensures causes { HasCauses (program_of (map string_bytes words.now.items)) result
        (P.seen port.old) (P.seen port.new) }
    // If it ends for want of memory nothing was put, or what the command of the words promises for
    // that.
    ensures memory { KeepsWithoutMemory (program_of (map string_bytes words.now.items)) result
        (P.seen port.old) (P.seen port.new) }
    // Exactly these bytes were put: those of the defined run, or, after a failed call or for want
    // of memory, what is promised of that.
    ensures bytes { BytesAreExact (program_of (map string_bytes words.now.items)) result
        (P.seen port.old) (P.seen port.new) }
    // The status has its cause: a failed call, the words, or the first refusal of the input; for a
    // whole input it is 0 or 1.
    ensures status { StatusHasCause (program_of (map string_bytes words.now.items)) result
        (P.seen port.old) (P.seen port.new) }
{
    law_words_are_lawful();
    run_words(rt, alloc, words, port)
}

/// Runs the command that the words name, or refuses the words.
fn run_words<R: Threads + Sync, P: Port>(
    rt: &R,
    alloc: Global,
    words: &Vec<String>,
    port: &mut P,
) -> Status
    ensures { RunsAs (program_of (map string_bytes words.now.items)) result (P.seen port.old)
        (P.seen port.new) }
{
    match command_of(words.as_slice()) {
        Some((command, words)) => run_command(rt, alloc, command, words, port),
        None => print_answer(rt, alloc, RefusedWords, port),
    }
}

/// The word of the command and the words after it, or `None` if there are too few words.
fn command_of(words: &[String]) -> Option<(&str, &[String])>
    ensures { MatchOption result
        (command_of (map string_bytes words.now) ≡ None)
        (λ named. command_of (map string_bytes words.now) ≡ Some
        (named.0.now, map string_bytes named.1.now)) }
{
    let (_, words) = words.split_first()?;
    let (command, words) = words.split_first()?;
    Some((command.as_str(), words))
}

/// Runs the command of this word: one line for each command of the program.
fn run_command<R: Threads + Sync, P: Port>(
    rt: &R,
    alloc: Global,
    command: &str,
    words: &[String],
    port: &mut P,
) -> Status
    ensures { RunsAs (program_named command.now (map string_bytes words.now)) result
        (P.seen port.old) (P.seen port.new) }
{
    match command {
        "judge" => serve_words::<R, Judge, P>(rt, alloc, words, port),
        "check" => serve_words::<R, Check, P>(rt, alloc, words, port),
        "run" => serve_words::<R, Run, P>(rt, alloc, words, port),
        "session" => serve_words::<R, SessionCommand, P>(rt, alloc, words, port),
        "show" => serve_words::<R, Show, P>(rt, alloc, words, port),
        "play" => serve_words::<R, Play, P>(rt, alloc, words, port),
        "strong" => serve_words::<R, StrongQuestion, P>(rt, alloc, words, port),
        "deadline" => serve_words::<R, DeadlineQuestion, P>(rt, alloc, words, port),
        "fleet" => serve_words::<R, FleetQuestion, P>(rt, alloc, words, port),
        "forge" => print_words::<R, Forge, P>(rt, alloc, words, port),
        _ => print_answer(rt, alloc, RefusedWords, port),
    }
}
