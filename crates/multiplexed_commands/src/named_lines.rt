//! Lines that are put after a name, and what stands after the name of one.

ghost use Rattle.std.specs.Prelude.{◌≡◌, ◌+◌, ◌≤◌, ◌++◌, length, OnOk};
ghost use Rattle.multiplexed_commands.specs.NamedLines.{after_first, from_blank, named};
ghost use Rattle.multiplexed_commands.specs.NamedLines.{IsOfWholeLines};

use command_engine::{Answer, Word};
use std::alloc::AllocError;
use texts::{is_blank, next_line};

/// What stands after the first word of a line.
pub fn after_first(line: &[u8]) -> &[u8]
    ensures text { result.now ≡ after_first line.now }
    ensures shorter { length result.now ≤ length line.now }
{
    let mut rest = line;
    while let Some((byte, others)) = rest.split_first() {
        if !is_blank(*byte) {
            return from_blank(others);
        }
        rest = others;
    }
    rest
}

/// What stands from the first blank on.
fn from_blank(bytes: &[u8]) -> &[u8]
    ensures text { result.now ≡ from_blank bytes.now }
    ensures shorter { length result.now ≤ length bytes.now }
{
    let mut rest = bytes;
    while let Some((byte, others)) = rest.split_first() {
        if is_blank(*byte) {
            return rest;
        }
        rest = others;
    }
    rest
}

/// Puts the lines of a text, each after a name and a blank, without memory. The text ends with a
/// line end, if there is anything of it.
pub fn put_named(answer: &mut Answer, name: &[u8], text: &[u8])
    requires whole { IsOfWholeLines text.now }
    requires spare_capacity { length answer.old.text + length
        (named name.now text.now) + 1 ≤ answer.old.capacity }
    ensures text { answer.new.text ≡ answer.old.text ++ named name.now text.now }
    ensures capacity { answer.old.capacity ≤ answer.new.capacity }
{
    let mut rest = text;
    while let Some((line, others)) = next_line(rest) {
        answer.put_line(&[Word::Name(name), Word::Name(line)]);
        rest = others;
    }
}

/// Puts the lines of a text, each after a name and a blank, with more memory if there is no
/// capacity for it. The text ends with a line end, if there is anything of it. `AllocError` comes
/// only for want of memory; a part of the lines may then have been put.
pub fn push_named(answer: &mut Answer, name: &[u8], text: &[u8]) -> Result<(), AllocError>
    requires { IsOfWholeLines text.now }
    ensures text { OnOk result (answer.new.text ≡ answer.old.text ++ named name.now text.now) }
    ensures capacity { answer.old.capacity ≤ answer.new.capacity }
{
    let mut rest = text;
    while let Some((line, others)) = next_line(rest) {
        answer.push_line(&[Word::Name(name), Word::Name(line)])?;
        rest = others;
    }
    Ok(())
}
