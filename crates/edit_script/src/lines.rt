//! The lines of a session, one at a time.

ghost use Rattle.std.specs.Prelude.{◌≡◌, IfErr, IfOk};
ghost use Rattle.texts.specs.Words.{words};
ghost use Rattle.net_model.specs.Limits.{most_number};
ghost use Rattle.net_model.specs.LineReading.{read_as, read_by};
ghost use Rattle.net_model.specs.Numbers.{integer_of};
ghost use Rattle.edit_script.specs.declared.step.Step.{Step};
ghost use Rattle.edit_script.specs.EditText.{IsEditLine, IsEditFault, edit_form, add_form};
ghost use Rattle.edit_script.specs.EditText.{drop_edit_form, set_form, add_bound_form};
ghost use Rattle.edit_script.specs.EditText.{add_link_form, number_form, interval_form};
ghost use Rattle.edit_script.specs.EditText.{question_of, alone};
ghost use Rattle.edit_script.specs.EditLines.{ReadsStep, step_line, step_of, step_by, edit_line};

use crate::step::Step;
use net_model::{Edit, FormatKind, MOST_NUMBER, Weight, WordFault, text};

/// Reads one line of a session: a blank line, an edit, or a question, `go` or `end`. An edit is
/// `add` and a line that declares a point, a bound or a link, as in a plan; `drop point NAME`,
/// `drop bound NAME`, `drop link TO`; `set bound NAME MOST` or `set link TO LOW HIGH`. The
/// questions are `verdict`, `proof`, `table`, `plan` and `report`. The fault is the first one:
/// `UnknownWord` of the first word; of an edit `WordCount` if there is no second word, and
/// `UnknownWord` if no edit begins with the two; then `WordCount`; then of the words from left to
/// right `BadName`, `BadNumber`, and `NumberLimit` beyond 1,000,000,000 in size. It takes no
/// memory, so `OutOfMemory` never comes. Clause `reads` says the same once more, as a function of
/// the line.
pub fn read_step(line: &[u8]) -> Result<Step, WordFault>
    ensures reads { ReadsStep result (step_line line.now) }
    ensures grammar { IfOk result (λ step. IsEditLine step line.now) }
    ensures every { (step : Step) → IsEditLine step line.now → result ≡ Ok step }
    ensures fault { IfErr result (IsEditFault line.now) }
{
    match step_of(line) {
        Ok(step) => Ok(step),
        Err(kind) => Err(WordFault::Kind(kind)),
    }
}

#[tactic(auto, unfolding(crate::specs::EditLines::step_of))]
fn step_of(line: &[u8]) -> Result<Step, FormatKind>
    ensures { result ≡ step_of (words line.now) }
{
    let Some((first, rest)) = texts::first_word(line) else {
        return Ok(Step::Blank);
    };
    step_by(first, rest)
}

/// A line by its first word.
fn step_by(first: &[u8], rest: &[u8]) -> Result<Step, FormatKind>
    ensures { result ≡ step_by (edit_form first.now) first.now (words rest.now) }
{
    if first == b"add".as_slice() {
        return Ok(Step::Edit(add_line(rest)?));
    }
    if first == b"drop".as_slice() {
        return Ok(Step::Edit(drop_line(rest)?));
    }
    if first == b"set".as_slice() {
        return Ok(Step::Edit(set_line(rest)?));
    }
    question_line(first, rest)
}

/// A line of one word.
fn question_line(first: &[u8], rest: &[u8]) -> Result<Step, FormatKind>
    ensures { result ≡ read_as (alone (question_of first.now)) (words rest.now) }
{
    let step = question_of(first).ok_or(FormatKind::UnknownWord)?;
    text::no_more(rest)?;
    Ok(step)
}

fn question_of(first: &[u8]) -> Option<Step>
    ensures { result ≡ question_of first.now }
{
    if first == b"verdict".as_slice() {
        return Some(Step::Verdict);
    }
    if first == b"proof".as_slice() {
        return Some(Step::Proof);
    }
    if first == b"table".as_slice() {
        return Some(Step::Table);
    }
    if first == b"plan".as_slice() {
        return Some(Step::Plan);
    }
    if first == b"report".as_slice() {
        return Some(Step::Report);
    }
    if first == b"go".as_slice() {
        return Some(Step::Go);
    }
    if first == b"end".as_slice() {
        return Some(Step::End);
    }
    None
}

/// The words after `add`.
fn add_line(rest: &[u8]) -> Result<Edit, FormatKind>
    ensures { result ≡ edit_line add_form (words rest.now) }
{
    let (second, rest) = text::word(rest)?;
    if second == b"point".as_slice() {
        return Ok(Edit::AddPoint(text::name(text::one(rest)?)?));
    }
    if second == b"bound".as_slice() {
        return bound_line(rest);
    }
    if second == b"link".as_slice() {
        return link_line(rest);
    }
    Err(FormatKind::UnknownWord)
}

/// The words after `drop`.
fn drop_line(rest: &[u8]) -> Result<Edit, FormatKind>
    ensures { result ≡ edit_line drop_edit_form (words rest.now) }
{
    let (second, rest) = text::word(rest)?;
    if second == b"point".as_slice() {
        return Ok(Edit::DropPoint(text::name(text::one(rest)?)?));
    }
    if second == b"bound".as_slice() {
        return Ok(Edit::DropBound(text::name(text::one(rest)?)?));
    }
    if second == b"link".as_slice() {
        return Ok(Edit::DropLink(text::name(text::one(rest)?)?));
    }
    Err(FormatKind::UnknownWord)
}

/// The words after `set`.
fn set_line(rest: &[u8]) -> Result<Edit, FormatKind>
    ensures { result ≡ edit_line set_form (words rest.now) }
{
    let (second, rest) = text::word(rest)?;
    if second == b"bound".as_slice() {
        return number_line(rest);
    }
    if second == b"link".as_slice() {
        return interval_line(rest);
    }
    Err(FormatKind::UnknownWord)
}

/// NAME FROM TO MOST of a new bound.
fn bound_line(rest: &[u8]) -> Result<Edit, FormatKind>
    ensures { result ≡ read_by add_bound_form (words rest.now) }
{
    let (name, from, to, most) = text::four(rest)?;
    Ok(Edit::AddBound(
        text::name(name)?,
        text::name(from)?,
        text::name(to)?,
        number(most)?,
    ))
}

/// FROM LOW HIGH TO of a new link.
fn link_line(rest: &[u8]) -> Result<Edit, FormatKind>
    ensures { result ≡ read_by add_link_form (words rest.now) }
{
    let (from, low, high, to) = text::four(rest)?;
    Ok(Edit::AddLink(
        text::name(from)?,
        number(low)?,
        number(high)?,
        text::name(to)?,
    ))
}

/// NAME MOST of a bound that gets another number.
fn number_line(rest: &[u8]) -> Result<Edit, FormatKind>
    ensures { result ≡ read_by number_form (words rest.now) }
{
    let (name, most) = text::two(rest)?;
    Ok(Edit::SetBound(text::name(name)?, number(most)?))
}

/// TO LOW HIGH of a link that gets another interval.
fn interval_line(rest: &[u8]) -> Result<Edit, FormatKind>
    ensures { result ≡ read_by interval_form (words rest.now) }
{
    let (to, low, high) = text::three(rest)?;
    Ok(Edit::SetLink(text::name(to)?, number(low)?, number(high)?))
}

/// A number of an edit.
fn number(word: &[u8]) -> Result<Weight, FormatKind>
    ensures { result ≡ integer_of most_number word.now }
{
    text::integer(word, MOST_NUMBER)
}
