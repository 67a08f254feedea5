//! One line of a strong certificate.

ghost use Rattle.std.specs.Prelude.{◌≡◌};
ghost use Rattle.net_model.specs.LineReading.{read_by};
ghost use Rattle.texts.specs.Words.{words};
ghost use Rattle.sectioned_texts.specs.Reading.{line_after};
ghost use Rattle.cert_format.specs.StrongForms.{by_form, ring_form, end_form};
ghost use Rattle.cert_format.specs.StrongGrammar.{strong_lines};

use crate::read::weight_of;
use crate::strong_cert::StrongLine;
use crate::strong_word::StrongWord;
use net_model::{FormatKind, Name, text};
use sectioned_texts::version_one;

/// A line of a strong certificate.
#[derive(Clone, Copy, Debug, PartialEq, Eq)]
pub enum StrongTextLine {
    /// A line without words, or whose first word begins with `#`.
    Blank,
    /// The header `strong 1`.
    Header,
    /// A line of a bound.
    By(StrongLine),
    /// A point of a ring.
    Ring(Name),
    /// The last line, `end`.
    End,
}

/// The words after the first word of a line.
pub(crate) fn line_of(first: StrongWord, rest: &[u8]) -> Result<StrongTextLine, FormatKind>
    ensures { result ≡ line_after strong_lines first (words rest.now) }
{
    match first {
        StrongWord::Strong => version_one(StrongTextLine::Header, rest),
        StrongWord::By => by_line(rest),
        StrongWord::Ring => ring_line(rest),
        StrongWord::End => end_line(rest),
    }
}

/// The words after `by`: a bound, the ends of an edge and its weight.
fn by_line(rest: &[u8]) -> Result<StrongTextLine, FormatKind>
    ensures { result ≡ read_by by_form (words rest.now) }
{
    let (bound, from, to, weight) = text::four(rest)?;
    Ok(StrongTextLine::By(StrongLine {
        bound: text::name(bound)?,
        from: text::name(from)?,
        to: text::name(to)?,
        weight: weight_of(weight)?,
    }))
}

/// The words after `ring`.
fn ring_line(rest: &[u8]) -> Result<StrongTextLine, FormatKind>
    ensures { result ≡ read_by ring_form (words rest.now) }
{
    let point = text::one(rest)?;
    Ok(StrongTextLine::Ring(text::name(point)?))
}

/// The words after `end`.
fn end_line(rest: &[u8]) -> Result<StrongTextLine, FormatKind>
    ensures { result ≡ read_by end_form (words rest.now) }
{
    text::no_more(rest)?;
    Ok(StrongTextLine::End)
}
