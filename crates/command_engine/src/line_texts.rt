//! Texts that are read line by line.

ghost use Rattle.std.specs.Prelude.{◌≡◌, ℕ, IfOk};
ghost use Rattle.command_engine.specs.Grammars.{Grammar, ReadsBy};
ghost use Rattle.command_engine.specs.Readers.{Reader};

use crate::machines::Stop;
use crate::refusals::Refusal;
use std::alloc::{AllocError, Global};

/// What a line of a text brings.
#[derive(Drop)]
pub enum Parse<S, V, F> {
    /// The text goes on, and this is how far it was read.
    Continue(S),
    /// The text ended, and this is what it says.
    Parsed(V),
    /// The line is refused.
    Refused(F),
}

/// A text that is read line by line: a value of the type says how far it was read.
pub trait Text: Drop {
    /// What the text says.
    type Value: Drop;

    /// Why a line of the text is refused.
    type Fault: Refusal;

    /// What the reading means.
    ghost reader: { Reader Self Self.Value Self.Fault };

    /// How many bytes the next line may have, its end not among them.
    fn longest(&self) -> u32
        ensures { result ≡ reader.longest self.now };

    /// Reads a line, by its number, from 1, and its bytes. `AllocError` comes only for want of
    /// memory.
    fn read_line(
        self,
        alloc: Global,
        number: u32,
        line: &[u8],
    ) -> Result<Parse<Self, Self::Value, Self::Fault>, AllocError>
        ensures { IfOk result (λ step. step ≡ reader.reads self number line.now) };

    /// The fault if no line comes, by the number of the line that was begun.
    fn stop(&self, number: u32, stop: Stop) -> Self::Fault
        ensures { result ≡ reader.stops self.now number stop };
}

/// A text with its grammar, which knows no reader.
pub trait InGrammar: Text {
    /// Before the first line.
    ghost initial_text: { Self };

    /// The grammar, if so many lines stand before the text in the input.
    ghost grammar: { ℕ → Grammar Self.Value Self.Fault };

    /// The law that the text is read by its grammar, wherever it stands in an input. The text gives
    /// the values that lines declare, wants a line exactly if the grammar does, of the same length,
    /// and refuses what the grammar refuses, with the same fault.
    fn reads_by_grammar()
        ensures { (past : ℕ) → ReadsBy Self.reader initial_text past (grammar past) };
}
