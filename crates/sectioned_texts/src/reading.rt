//! The reading of a text of lines in sections, line by line.

ghost use Rattle.std.specs.Prelude.{◌≡◌, ◌<◌, ◌^◌, ℕ, List, length, Err, IfErr, IfOk, Ok, OnErr};
ghost use Rattle.texts.specs.Lines.{lines};
ghost use Rattle.texts.specs.Words.{words};
ghost use Rattle.net_model.specs.declared.format.FormatFault.{FormatFault};
ghost use Rattle.sectioned_texts.specs.SectionedTexts.{AreTextOf, HasFirstFault, IsFirstFaultOf};
ghost use Rattle.sectioned_texts.specs.SectionedTexts.{IsPrefixOf, LineBrings, fault_after};
ghost use Rattle.sectioned_texts.specs.SectionedTexts.{missing_in, missing_by};
ghost use Rattle.sectioned_texts.specs.Reading.{SaysLine, SaysText, refused_by, fault_at_line};
ghost use Rattle.sectioned_texts.specs.Reading.{header_line, version_one, line_among, line_in};
ghost use Rattle.sectioned_texts.specs.Reading.{read_text};

use crate::section_reader::SectionReader;
use net_model::{FormatFault, FormatKind, TextFault, WordFault, text};

/// What a header of version 1 says, by the words after its first word: `said` if they are `1`
/// alone, else `UnknownWord`.
#[tactic(auto, using(crate::proofs::FirstWordLemmas::header_of, crate::proofs::FirstWordLemmas::no_header))]
pub fn version_one<L: Copy>(said: L, rest: &[u8]) -> Result<L, FormatKind>
    ensures { result ≡ header_line (version_one said) (words rest.now) }
{
    let Ok(version) = text::one(rest) else {
        return Err(FormatKind::UnknownWord);
    };
    if version == b"1".as_slice() {
        return Ok(said);
    }
    Err(FormatKind::UnknownWord)
}

/// Reads the next line in its place and keeps what it says. If the lines before were the prefix of
/// a text, they are a longer prefix with this one, or at its last line declare the value that is
/// kept, whatever stands after them, or this line has their first fault. A line that is refused
/// changes nothing, and want of memory neither.
pub fn read_line<R: SectionReader>(reader: &mut R, line: &[u8]) -> Result<R::Line, WordFault>
    ensures brings { (prefix : List (List ℕ)) → IsPrefixOf R.text prefix reader.old
        → LineBrings R.text prefix line.now result reader.new }
    ensures said { SaysLine result
        (line_in R.text (R.text.section reader.old) (words line.now)) }
    ensures kept { IfOk result (λ said. reader.new ≡ R.text.advanced reader.old said) }
    ensures refused { OnErr result (reader.new ≡ reader.old) }
{
    R::is_lawful();
    take_line(reader, line)
}

fn take_line<R: SectionReader>(reader: &mut R, line: &[u8]) -> Result<R::Line, WordFault>
    ensures said { SaysLine result
        (line_in R.text (R.text.section reader.old) (words line.now)) }
    ensures kept { IfOk result (λ said. reader.new ≡ R.text.advanced reader.old said) }
    ensures refused { OnErr result (reader.new ≡ reader.old) }
{
    let said = line_in::<R>(reader.section(), line)?;
    reader.keep(&said)?;
    Ok(said)
}

/// The fault if the lines end here: `NoHeader` where the header must come, else `NoEnd`, in the
/// line after them. After the prefix of a text that is the first fault of its lines.
pub fn missing<R: SectionReader>(reader: &R) -> FormatKind
    ensures missing { result ≡ missing_in R.text (R.text.section reader.now) }
    ensures fault { (prefix : List (List ℕ)) → IsPrefixOf R.text prefix reader.now
        → IsFirstFaultOf R.text prefix (fault_after prefix result) }
{
    R::is_lawful();
    missing_by(R::opens(reader.section()))
}

fn missing_by(opens: bool) -> FormatKind
    ensures { result ≡ missing_by opens }
{
    if opens {
        FormatKind::NoHeader
    } else {
        FormatKind::NoEnd
    }
}

/// Reads the lines of a text, one after another, up to its last line; nothing after that is looked
/// at. The fault is that of the first bad line; if the text ends before its last line, it is
/// `missing`, at the number after the last line. `OutOfMemory` comes only for want of memory. There
/// are fewer than 2^31 bytes.
pub fn read_text<R: SectionReader>(reader: R, bytes: &[u8]) -> Result<R::Value, TextFault>
    requires initial { reader ≡ R.text.initial }
    requires size { length bytes.now < 2 ^ 31 }
    ensures text { SaysText result (read_text R.text bytes.now) }
    ensures in_grammar { IfOk result (λ value. AreTextOf R.text bytes.now value) }
    ensures first_fault { IfErr result (HasFirstFault R.text bytes.now) }
    ensures every_text { (value : R.Value) → AreTextOf R.text bytes.now value
        → SaysText result (Ok value) }
    ensures every_fault { (fault : FormatFault) → IsFirstFaultOf R.text (lines bytes.now) fault
        → SaysText result (Err fault) }
{
    R::is_lawful();
    read_lines(reader, bytes)
}

fn read_lines<R: SectionReader>(reader: R, bytes: &[u8]) -> Result<R::Value, TextFault>
    requires initial { reader ≡ R.text.initial }
    requires size { length bytes.now < 2 ^ 31 }
    ensures { SaysText result (read_text R.text bytes.now) }
{
    let mut reader = reader;
    let mut rest = bytes;
    let mut number: u32 = 1;
    while let Some((line, others)) = texts::next_line(rest) {
        match take_line(&mut reader, line) {
            Ok(said) => {
                if R::is_last(&said) {
                    return Ok(reader.into_value());
                }
            }
            Err(fault) => return Err(at_line(number, fault)),
        }
        number += 1;
        rest = others;
    }
    let kind = missing_by(R::opens(reader.section()));
    Err(FormatFault { line: number, kind }.into())
}

/// The fault of a text at a line.
fn at_line(number: u32, fault: WordFault) -> TextFault
    ensures { result ≡ fault_at_line number fault }
{
    match fault {
        WordFault::Kind(kind) => TextFault::Format(FormatFault { line: number, kind }),
        WordFault::OutOfMemory => TextFault::OutOfMemory,
    }
}

/// Reads a line in a section by its words.
#[tactic(auto, unfolding(crate::specs::Reading::line_in))]
fn line_in<R: SectionReader>(section: R::Section, line: &[u8]) -> Result<R::Line, FormatKind>
    ensures { result ≡ line_in R.text section (words line.now) }
{
    let Some((first, rest)) = texts::first_word(line) else {
        return Ok(R::blank());
    };
    refused_by(
        R::opens(section),
        line_among::<R>(section, R::first_word(first), rest),
    )
}

/// The words after the first word of a line in a section.
fn line_among<R: SectionReader>(
    section: R::Section,
    first: Option<R::Word>,
    rest: &[u8],
) -> Result<R::Line, FormatKind>
    ensures { result ≡ line_among R.text (R.text.admits section) first (words rest.now) }
{
    match first {
        Some(word) if R::admits(section, word) => R::line_after(word, rest),
        _ => Err(FormatKind::UnknownWord),
    }
}

/// If the header must come, a line that is not the header is `NoHeader`.
fn refused_by<L: Copy>(opens: bool, read: Result<L, FormatKind>) -> Result<L, FormatKind>
    ensures { result ≡ refused_by opens read }
{
    match (opens, read) {
        (true, Err(_)) => Err(FormatKind::NoHeader),
        (_, read) => read,
    }
}
