//! The lines between the texts of a series.

ghost use Rattle.std.specs.Prelude.{◌≡◌, ℕ, IfOk};
ghost use Rattle.command_engine.specs.Grammars.{Grammar, ReadsBy};
ghost use Rattle.text_sequence.specs.Between.{Between};

use command_engine::{Stop, Text};
use std::alloc::{AllocError, Global};

/// What a line between texts is.
#[derive(Drop)]
pub enum Separator<K, F> {
    /// It is passed over.
    Passes,
    /// It opens a text under a key.
    Opens(K),
    /// It closes the series.
    Closes,
    /// It is refused.
    Refuses(F),
}

/// The lines between the texts of a series, and the texts.
pub trait Separators: Drop {
    /// The key under which a text stands.
    type Key: Drop;

    /// The texts.
    type Text: Text;

    /// What the lines between texts mean.
    ghost between: { Between Self.Key Self.Text.Value Self.Text.Fault };

    /// A text before its first line.
    ghost initial_text: { Self.Text };

    /// The grammar of a text, if so many lines stand before it in the input.
    ghost texts: { ℕ → Grammar Self.Text.Value Self.Text.Fault };

    /// A text before its first line.
    fn initial(&self, alloc: Global) -> Self::Text
        ensures { result ≡ initial_text };

    /// What a line between texts is, after these. `AllocError` comes only for want of memory.
    fn open(
        &self,
        alloc: Global,
        done: &[(Self::Key, <Self::Text as Text>::Value)],
        number: u32,
        line: &[u8],
    ) -> Result<Separator<Self::Key, <Self::Text as Text>::Fault>, AllocError>
        ensures { IfOk result (λ separator. separator ≡ between.opens done.now number line.now) };

    /// The fault if no line comes, or one that is too long, after these texts.
    fn stop(
        &self,
        done: &[(Self::Key, <Self::Text as Text>::Value)],
        number: u32,
        stop: Stop,
    ) -> <Self::Text as Text>::Fault
        ensures { result ≡ between.stops done.now number stop };

    /// The law that a text is read by its grammar, wherever it stands in an input.
    fn reads_by_grammar()
        ensures { (past : ℕ) → ReadsBy Self.Text.reader initial_text past (texts past) };
}
