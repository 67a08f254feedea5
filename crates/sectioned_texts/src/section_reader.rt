//! How far a text of lines in sections was read.

ghost use Rattle.std.specs.Prelude.{◌≡◌, OnErr, OnOk};
ghost use Rattle.texts.specs.Words.{words};
ghost use Rattle.sectioned_texts.specs.SectionedTexts.{SectionedText};
ghost use Rattle.sectioned_texts.specs.Reading.{word_of, line_after};
ghost use Rattle.sectioned_texts.specs.LawfulTexts.{IsLawful};

use net_model::FormatKind;
use std::alloc::AllocError;

/// How far a text of lines in sections was read. A type that says so has its text as data, with the
/// law that the data keep, and for each part of them a function; `read_line`, `missing` and
/// `read_text` are made of these.
pub trait SectionReader: Drop {
    /// What may come next in the text.
    type Section: Copy;

    /// The first word of a line.
    type Word: Copy;

    /// What a line says.
    type Line: Copy;

    /// What the text says.
    type Value: Drop;

    /// The text, as data.
    ghost text: { SectionedText Self.Section Self.Word Self.Line Self Self.Value };

    /// The section that is reached.
    fn section(&self) -> Self::Section
        ensures { result ≡ text.section self.now };

    /// The first word that a word is, or `None` if it is none of them.
    fn first_word(word: &[u8]) -> Option<Self::Word>
        ensures { result ≡ word_of text word.now };

    /// Whether a line that begins with this word may come in a section.
    fn admits(section: Self::Section, first: Self::Word) -> bool
        ensures { result ≡ text.admits section first };

    /// Whether the header must come in a section.
    fn opens(section: Self::Section) -> bool
        ensures { result ≡ text.opens section };

    /// Reads the words after the first word of a line.
    fn line_after(first: Self::Word, rest: &[u8]) -> Result<Self::Line, FormatKind>
        ensures { result ≡ line_after text first (words rest.now) };

    /// What a line says that is passed over.
    fn blank() -> Self::Line
        ensures { result ≡ text.blank };

    /// Whether the text ends with a line that says this.
    fn is_last(line: &Self::Line) -> bool
        ensures { result ≡ text.is_last line.now };

    /// Keeps what a line says. `AllocError` comes only for want of memory, and changes nothing.
    fn keep(&mut self, line: &Self::Line) -> Result<(), AllocError>
        ensures kept { OnOk result (self.new ≡ text.advanced self.old line.now) }
        ensures refused { OnErr result (self.new ≡ self.old) };

    /// What the lines say that were read.
    fn into_value(self) -> Self::Value
        ensures { result ≡ text.value self };

    /// The law that what is read of a line is what its words say, that what lines declare is what
    /// they lead to, and that each prefix of a text can be continued.
    fn is_lawful()
        ensures { IsLawful text };
}
