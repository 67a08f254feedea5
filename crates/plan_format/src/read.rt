//! Reading a whole plan text.

ghost use Rattle.std.specs.Prelude.{◌≡◌, ◌<◌, ◌^◌, length, IfErr, IfOk};
ghost use Rattle.texts.specs.Lines.{lines};
ghost use Rattle.net_model.specs.declared.format.FormatFault.{FormatFault};
ghost use Rattle.plan_format.specs.declared.read.Parts.{Parts};
ghost use Rattle.plan_format.specs.PlanFaults.{IsPlanTextFault, IsFirstPlanFault};
ghost use Rattle.plan_format.specs.PlanGrammar.{ReadsPlan};
ghost use Rattle.plan_format.specs.PlanReading.{HasSizes, ReadsParts, ReadsLines, RefusesText};
ghost use Rattle.plan_format.specs.PlanReading.{plan_fault_at_line, initial};

use crate::plan_line::PlanLine;
use crate::reader::PlanReader;
use net_model::{FormatFault, Items, Part, TextFault, Weight, WordFault};
use std::alloc::Global;

/// What a plan text declares. A line declares two parts at most.
#[derive(Debug, Drop)]
pub struct Parts {
    /// The parts, in their order.
    pub parts: Items<Part>,
    /// The number of the line of each part, from 1.
    pub lines: Items<u32>,
    /// The number of bytes up to the end of the `end` line, its line end included if it has one.
    pub used: usize,
    /// The delay, in whole moments, from 0 to `MOST_DELAY`.
    pub delay: Weight,
}

/// Reads a plan text: the header `stnu 1` or `stnu 2`, declarations of points, bounds and links, in
/// version 2 also of two bounds in one line and first of the delay, and `end`, with blank lines
/// between. Nothing after the `end` line is looked at. The fault is the one of the first bad line:
/// `NoHeader` if the first line that is not blank is no header, or if there is no such line, at the
/// number after the last line; `NoEnd` at the number after the last line if there is no `end`; else
/// that of the line. `OutOfMemory` comes only for want of memory. There are fewer than 2^31 bytes.
pub fn read_plan(alloc: Global, bytes: &[u8]) -> Result<Parts, TextFault>
    requires { length bytes.now < 2 ^ 31 }
    ensures grammar { IfOk result (ReadsPlan bytes.now) }
    ensures every { (read : Parts) → ReadsPlan bytes.now read → ReadsParts result read }
    ensures fault { IfErr result (IsPlanTextFault bytes.now) }
    ensures every_fault { (fault : FormatFault) → IsFirstPlanFault (lines bytes.now) fault
        → RefusesText result fault }
    ensures sizes { IfOk result (HasSizes bytes.now) }
{
    read_text(alloc, bytes)
}

/// Reads the lines of a plan text, one after another.
fn read_text(alloc: Global, bytes: &[u8]) -> Result<Parts, TextFault>
    requires { length bytes.now < 2 ^ 31 }
    ensures grammar { IfOk result (ReadsPlan bytes.now) }
    ensures fault { IfErr result (IsPlanTextFault bytes.now) }
{
    let mut reader = PlanReader::new(alloc);
    let used = read_lines(&mut reader, bytes)?;
    let delay = reader.delay();
    let (parts, lines) = reader.into_parts();
    Ok(Parts {
        parts: Items::new(parts),
        lines: Items::new(lines),
        used,
        delay,
    })
}

/// Reads the lines of a plan text up to its `end` line: the number of bytes up to there.
fn read_lines(reader: &mut PlanReader, bytes: &[u8]) -> Result<usize, TextFault>
    requires few { length bytes.now < 2 ^ 31 }
    requires begins { reader.old ≡ initial }
    ensures { ReadsLines bytes.now reader.new result }
{
    let mut rest = bytes;
    let mut number: u32 = 1;
    while let Some((line, others)) = texts::next_line(rest) {
        rest = others;
        match reader.read_line(number, line) {
            Ok(PlanLine::End) => return Ok(bytes.len() - rest.len()),
            Ok(_) => {}
            Err(fault) => return Err(at_line(number, fault)),
        }
        number += 1;
    }
    let kind = reader.missing();
    Err(FormatFault { line: number, kind }.into())
}

/// The fault of a text whose line has a fault.
fn at_line(line: u32, fault: WordFault) -> TextFault
    ensures { result ≡ plan_fault_at_line line fault }
{
    match fault {
        WordFault::Kind(kind) => TextFault::Format(FormatFault { line, kind }),
        WordFault::OutOfMemory => TextFault::OutOfMemory,
    }
}
