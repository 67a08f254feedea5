//! Refusals that end a run.

ghost use Rattle.std.specs.Prelude.{◌≡◌, ◌≤◌};
ghost use Rattle.command_engine.specs.Readers.{Refusing};

use crate::answers::Answer;
use crate::endings::End;

/// A refusal of an input, which ends the run.
pub trait Refusal: Drop {
    /// The line that is printed for it, and how it ends the run.
    ghost refusing: { Refusing Self };

    /// Puts its line into the buffer, in place of what stood there, without memory.
    fn put(&self, answer: &mut Answer)
        ensures line { answer.new.text ≡ refusing.line self.now }
        ensures capacity { answer.old.capacity ≤ answer.new.capacity };

    /// How it ends the run.
    fn end(&self) -> End
        ensures { result ≡ refusing.end self.now };
}
