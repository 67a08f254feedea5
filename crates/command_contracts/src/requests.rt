//! What the words ask of a command.

ghost use Rattle.std.specs.Prelude.{◌≡◌, true, map, string_bytes, Option, IfOk};
ghost use Rattle.command_words.specs.Arguments.{Arguments};
ghost use Rattle.command_words.specs.Syntax.{Syntax, is_sound};
ghost use Rattle.command_contracts.specs.Requests.{requested_by};
ghost use Rattle.command_contracts.specs.WorkerCounts.{WorkersDecideNothing};

use command_words::{Arguments, Syntax, read};
use std::alloc::{AllocError, Global};

/// What the words ask of a command: a value of the type is one request, which says all that the
/// words decide.
pub trait Request: Drop {
    /// Which words the command takes after its own.
    ghost syntax: { Syntax };

    /// What arguments ask of the command, or nothing if a value is none that it takes.
    ghost query: { Arguments → Option Self };

    /// Which words the command takes after its own.
    fn words() -> Syntax<'static>
        ensures words { result ≡ syntax }
        ensures sound { is_sound result ≡ true };

    /// What arguments ask of the command, or `None` if a value is none that it takes.
    fn of(arguments: &Arguments<'_>) -> Option<Self>
        ensures { result ≡ query arguments.now };

    /// The law that the number of workers decides nothing of the request.
    fn workers_decide_nothing()
        ensures { WorkersDecideNothing syntax query };
}

/// What the words after that of a command ask of it, or `None` if they are not the command's.
/// `AllocError` comes only for want of memory.
pub fn request_in<Q: Request>(alloc: Global, words: &[String]) -> Result<Option<Q>, AllocError>
    ensures { IfOk result (λ request. request ≡ requested_by Q.syntax Q.query
        (map string_bytes words.now)) }
{
    match read(alloc, &Q::words(), words)? {
        None => Ok(None),
        Some(arguments) => Ok(Q::of(&arguments)),
    }
}
