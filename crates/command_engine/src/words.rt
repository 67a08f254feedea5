//! The words of a printed line.

ghost use Rattle.std.specs.Prelude.{◌≡◌};
ghost use Rattle.command_engine.specs.Words.{most_word};

/// A word of a line that is printed.
#[derive(Clone, Copy)]
pub enum Word<'a> {
    /// A fixed word.
    Text(&'a str),
    /// A number, in decimal digits.
    Number(u64),
    /// A name, by its bytes.
    Name(&'a [u8]),
}

impl Word<'_> {
    /// How many bytes the word has at most.
    pub(crate) fn most_bytes(self) -> usize
        ensures { result ≡ most_word self.entry }
    {
        match self {
            Word::Text(text) => text.len(),
            Word::Name(name) => name.len(),
            Word::Number(_) => 20,
        }
    }
}
