//! Why a line or a text is not read.

use std::alloc::AllocError;
use std::error::Error;
use std::fmt;

/// Why a line is no line of its text, in the order in which the causes are tried.
#[derive(Clone, Copy, Debug, PartialEq, Eq)]
pub enum FormatKind {
    /// The first word is none of the text's words in its place.
    UnknownWord,
    /// The line has too few words or too many.
    WordCount,
    /// A word in the place of a name is not a name.
    BadName,
    /// A word in the place of a number is not a number.
    BadNumber,
    /// A number beyond the limit of its place.
    NumberLimit,
    /// The first line that is not blank is not the text's header.
    NoHeader,
    /// The input ended before the text did.
    NoEnd,
    /// A word in the place of a point is not the name of one.
    UnknownName,
}

impl FormatKind {
    ghost use Rattle.std.specs.Prelude.{◌≡◌};
    ghost use Rattle.net_model.specs.Formats.{format_word};

    /// The word as which it is printed.
    pub fn word(self) -> &'static str
        ensures { result.now ≡ format_word self }
    {
        match self {
            FormatKind::UnknownWord => "unknown-word",
            FormatKind::WordCount => "word-count",
            FormatKind::BadName => "bad-name",
            FormatKind::BadNumber => "bad-number",
            FormatKind::NumberLimit => "number-limit",
            FormatKind::NoHeader => "no-header",
            FormatKind::NoEnd => "no-end",
            FormatKind::UnknownName => "unknown-name",
        }
    }
}

impl fmt::Display for FormatKind {
    ghost use Rattle.std.specs.Prelude.{Some};
    ghost use Rattle.net_model.specs.Formats.{format_word};

    ghost output = { λ kind. Some (format_word kind) };

    fn fmt<W: fmt::Write>(&self, f: &mut fmt::Formatter<W>) -> fmt::Result {
        f.write_str(self.word())
    }
}

impl Error for FormatKind {}

/// The first fault of a text: the number of its line, from 1, and why. It is displayed as the word
/// of its kind, `in line`, and its line.
#[derive(Clone, Copy, Debug)]
pub struct FormatFault {
    pub line: u32,
    pub kind: FormatKind,
}

impl fmt::Display for FormatFault {
    ghost use Rattle.std.specs.Prelude.{Some};
    ghost use Rattle.net_model.specs.Formats.{format_fault_text};

    ghost output = { λ fault. Some (format_fault_text fault) };

    fn fmt<W: fmt::Write>(&self, f: &mut fmt::Formatter<W>) -> fmt::Result {
        write!(f, "{} in line {}", self.kind, self.line)
    }
}

impl Error for FormatFault {}

/// Why a text was not read. It is displayed as its fault is, or as `out of memory`.
#[derive(Clone, Copy, Debug)]
pub enum TextFault {
    /// It is no such text: its first fault.
    Format(FormatFault),
    /// There was no memory.
    OutOfMemory,
}

impl fmt::Display for TextFault {
    ghost use Rattle.std.specs.Prelude.{Some};
    ghost use Rattle.net_model.specs.Formats.{text_fault_text};

    ghost output = { λ fault. Some (text_fault_text fault) };

    fn fmt<W: fmt::Write>(&self, f: &mut fmt::Formatter<W>) -> fmt::Result {
        match self {
            TextFault::Format(fault) => write!(f, "{fault}"),
            TextFault::OutOfMemory => f.write_str("out of memory"),
        }
    }
}

impl Error for TextFault {}

impl From<FormatFault> for TextFault {
    ghost use Rattle.std.specs.Prelude.{◌≡◌};
    ghost use Rattle.net_model.specs.declared.format.TextFault.TheVariants.{Format};

    ghost from_gives = { λ cause fault. fault ≡ Format cause };

    fn from(fault: FormatFault) -> TextFault {
        TextFault::Format(fault)
    }
}

impl From<AllocError> for TextFault {
    ghost use Rattle.std.specs.Prelude.{◌≡◌};
    ghost use Rattle.net_model.specs.declared.format.TextFault.TheVariants.{OutOfMemory};

    ghost from_gives = { λ _ fault. fault ≡ OutOfMemory };

    fn from(_error: AllocError) -> TextFault {
        TextFault::OutOfMemory
    }
}

/// Why a line was not read. It is displayed as the word of its kind, or as `out of memory`.
#[derive(Clone, Copy, Debug)]
pub enum WordFault {
    /// It is no line of the text.
    Kind(FormatKind),
    /// There was no memory.
    OutOfMemory,
}

impl fmt::Display for WordFault {
    ghost use Rattle.std.specs.Prelude.{Some};
    ghost use Rattle.net_model.specs.Formats.{word_fault_text};

    ghost output = { λ fault. Some (word_fault_text fault) };

    fn fmt<W: fmt::Write>(&self, f: &mut fmt::Formatter<W>) -> fmt::Result {
        match self {
            WordFault::Kind(kind) => write!(f, "{kind}"),
            WordFault::OutOfMemory => f.write_str("out of memory"),
        }
    }
}

impl Error for WordFault {}

impl From<FormatKind> for WordFault {
    ghost use Rattle.std.specs.Prelude.{◌≡◌};
    ghost use Rattle.net_model.specs.declared.format.WordFault.TheVariants.{Kind};

    ghost from_gives = { λ kind fault. fault ≡ Kind kind };

    fn from(kind: FormatKind) -> WordFault {
        WordFault::Kind(kind)
    }
}

impl From<AllocError> for WordFault {
    ghost use Rattle.std.specs.Prelude.{◌≡◌};
    ghost use Rattle.net_model.specs.declared.format.WordFault.TheVariants.{OutOfMemory};

    ghost from_gives = { λ _ fault. fault ≡ OutOfMemory };

    fn from(_error: AllocError) -> WordFault {
        WordFault::OutOfMemory
    }
}
