//! One line of a plan text.

ghost use Rattle.std.specs.Prelude.{◌≡◌, ◌⊎◌, IfErr, IfOk};
ghost use Rattle.net_model.specs.LineReading.{read_as, read_by};
ghost use Rattle.net_model.specs.Numbers.{integer_of};
ghost use Rattle.texts.specs.Words.{words};
ghost use Rattle.plan_format.specs.declared.plan_line.PlanLine.{PlanLine};
ghost use Rattle.net_model.specs.Limits.{most_number};
ghost use Rattle.plan_format.specs.PlanFaults.{IsFaultOfLine};
ghost use Rattle.plan_format.specs.PlanGrammar.{IsPlanLine};
ghost use Rattle.plan_format.specs.PlanParts.{version_numbered};
ghost use Rattle.plan_format.specs.PlanForms.{form_of_second, form_of_delay, point_form};
ghost use Rattle.plan_format.specs.PlanForms.{plan_bound_form, plan_link_form, plan_end_form};
ghost use Rattle.plan_format.specs.PlanForms.{between_form, delay_form};
ghost use Rattle.plan_format.specs.PlanLines.{plan_line, plan_line_by_word, plan_header_line};

use crate::version::{PlanStage, PlanVersion};
use net_model::{FormatKind, MOST_DELAY, MOST_NUMBER, Name, Part, Weight, WordFault, text};

/// A line of a plan text.
#[derive(Clone, Copy, Debug)]
pub enum PlanLine {
    /// A line without words, or whose first word begins with `#`.
    Blank,
    /// The header `stnu 1` or `stnu 2`, with the version.
    Header(u32),
    /// The declaration of a point, a bound or a link.
    Part(Part),
    /// The delay, in whole moments, from 0 to `MOST_DELAY`.
    Delay(Weight),
    /// Two bounds that belong together, `low <= to - from <= high`: their name, from, low, high and
    /// to.
    Between(Name, Name, Weight, Weight, Name),
    /// The last line, `end`.
    End,
}

/// Reads one line of a plan text of a version, 1 or 2, alone. The fault is the first one: of the
/// first word, of the count of words, and then of the words from left to right. A line whose first
/// word is `stnu` is the header `stnu 1` or `stnu 2`, or `UnknownWord`. It takes no memory, so
/// `OutOfMemory` never comes.
pub fn read_plan_line(line: &[u8], version: u32) -> Result<PlanLine, WordFault>
    requires known { (version ≡ 1) ⊎ (version ≡ 2) }
    ensures grammar { IfOk result (λ read. IsPlanLine (version_numbered version) read line.now) }
    ensures every { (read : PlanLine) → IsPlanLine (version_numbered version) read line.now
        → result ≡ Ok read }
    ensures fault { IfErr result (IsFaultOfLine (version_numbered version) line.now) }
{
    Ok(plan_line(line, PlanVersion::numbered(version), PlanStage::Opened)?)
}

/// Reads one line of a plan text by its words.
#[tactic(auto, unfolding(crate::specs::PlanLines::plan_line))]
pub(crate) fn plan_line(
    line: &[u8],
    version: PlanVersion,
    stage: PlanStage,
) -> Result<PlanLine, FormatKind>
    ensures { result ≡ plan_line version stage (words line.now) }
{
    let Some((first, rest)) = texts::first_word(line) else {
        return Ok(PlanLine::Blank);
    };
    line_of(version, stage, first, rest)
}

fn line_of(
    version: PlanVersion,
    stage: PlanStage,
    first: &[u8],
    rest: &[u8],
) -> Result<PlanLine, FormatKind>
    ensures { result ≡ plan_line_by_word version stage first.now (words rest.now) }
{
    if first == b"stnu".as_slice() {
        return plan_header_line(rest);
    }
    if first == b"point".as_slice() {
        return point_line(rest);
    }
    if first == b"bound".as_slice() {
        return bound_line(rest);
    }
    if first == b"link".as_slice() {
        return link_line(rest);
    }
    if first == b"end".as_slice() {
        return end_line(rest);
    }
    second_line(version, stage, first, rest)
}

/// A line that version 2 has more.
fn second_line(
    version: PlanVersion,
    stage: PlanStage,
    first: &[u8],
    rest: &[u8],
) -> Result<PlanLine, FormatKind>
    ensures { result ≡ read_as (form_of_second version stage first.now) (words rest.now) }
{
    match version {
        PlanVersion::One => Err(FormatKind::UnknownWord),
        PlanVersion::Two => {
            if first == b"between".as_slice() {
                return between_line(rest);
            }
            delay_in(stage, first, rest)
        }
    }
}

/// The line of the delay, if it may come.
fn delay_in(stage: PlanStage, first: &[u8], rest: &[u8]) -> Result<PlanLine, FormatKind>
    ensures { result ≡ read_as (form_of_delay stage first.now) (words rest.now) }
{
    match stage {
        PlanStage::Opened => {
            if first == b"delay".as_slice() {
                return delay_line(rest);
            }
            Err(FormatKind::UnknownWord)
        }
        PlanStage::PastDelay => Err(FormatKind::UnknownWord),
    }
}

/// The words after `stnu`.
fn plan_header_line(rest: &[u8]) -> Result<PlanLine, FormatKind>
    ensures { result ≡ plan_header_line (words rest.now) }
{
    let Some((version, rest)) = texts::next_word(rest) else {
        return Err(FormatKind::UnknownWord);
    };
    if texts::next_word(rest).is_some() {
        return Err(FormatKind::UnknownWord);
    }
    if version == b"1".as_slice() {
        return Ok(PlanLine::Header(1));
    }
    if version == b"2".as_slice() {
        return Ok(PlanLine::Header(2));
    }
    Err(FormatKind::UnknownWord)
}

/// The words after `point`.
fn point_line(rest: &[u8]) -> Result<PlanLine, FormatKind>
    ensures { result ≡ read_by point_form (words rest.now) }
{
    let name = text::one(rest)?;
    Ok(PlanLine::Part(Part::Point(text::name(name)?)))
}

/// The words after `bound`.
fn bound_line(rest: &[u8]) -> Result<PlanLine, FormatKind>
    ensures { result ≡ read_by plan_bound_form (words rest.now) }
{
    let (name, from, to, most) = text::four(rest)?;
    Ok(PlanLine::Part(Part::Bound(
        text::name(name)?,
        text::name(from)?,
        text::name(to)?,
        number(most)?,
    )))
}

/// The words after `link`.
fn link_line(rest: &[u8]) -> Result<PlanLine, FormatKind>
    ensures { result ≡ read_by plan_link_form (words rest.now) }
{
    let (from, low, high, to) = text::four(rest)?;
    Ok(PlanLine::Part(Part::Link(
        text::name(from)?,
        number(low)?,
        number(high)?,
        text::name(to)?,
    )))
}

/// The words after `between`.
fn between_line(rest: &[u8]) -> Result<PlanLine, FormatKind>
    ensures { result ≡ read_by between_form (words rest.now) }
{
    let (name, from, low, high, to) = text::five(rest)?;
    Ok(PlanLine::Between(
        text::short_name(name)?,
        text::name(from)?,
        number(low)?,
        number(high)?,
        text::name(to)?,
    ))
}

/// The words after `delay`.
fn delay_line(rest: &[u8]) -> Result<PlanLine, FormatKind>
    ensures { result ≡ read_by delay_form (words rest.now) }
{
    let moments = text::one(rest)?;
    let moments = text::natural(moments, u64::from(MOST_DELAY))?;
    Ok(PlanLine::Delay(moments as Weight))
}

/// The words after `end`.
fn end_line(rest: &[u8]) -> Result<PlanLine, FormatKind>
    ensures { result ≡ read_by plan_end_form (words rest.now) }
{
    text::no_more(rest)?;
    Ok(PlanLine::End)
}

/// A number of a plan.
fn number(word: &[u8]) -> Result<Weight, FormatKind>
    ensures { result ≡ integer_of most_number word.now }
{
    text::integer(word, MOST_NUMBER)
}
