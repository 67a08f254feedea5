//! The rows of tables, and the networks of plan texts in them.

ghost use Rattle.std.specs.Prelude.{IfOk};
ghost use Rattle.net_model.specs.Network.{HasPlanNumbers};

use net_model::{FormatFault, Network, TextFault, WordFault};
use plan_format::{PlanLine, PlanReader};
use std::alloc::{AllocError, Global};
use std::process::Abort;
use std::test::Fail;

/// The input and the answer of a row.
pub fn cells(row: &str) -> Option<(&str, &str)> {
    row.split_once(" => ")
}

/// A text is the expected one, of an input.
pub fn see_text(rt: &impl Abort, text: &str, expected: &str, input: &str) {
    assert_eq!(rt; text, expected, "{input}");
}

/// Bytes are the expected ones, of an input.
pub fn see_bytes(rt: &impl Abort, bytes: &[u8], expected: &[u8], input: &str) {
    assert_eq!(rt; bytes, expected, "{input}");
}

/// Puts a byte in place of another.
pub fn exchange(text: &mut [u8], old: u8, new: u8) {
    for byte in text.iter_mut() {
        if *byte == old {
            *byte = new;
        }
    }
}

/// The text of a cell, with its line ends.
pub fn with_line_ends(alloc: Global, cell: &str) -> Result<Vec<u8>, AllocError> {
    let mut text = cell.as_bytes().to_vec(alloc)?;
    exchange(&mut text, b'|', b'\n');
    Ok(text)
}

/// Gives the lines of a plan text to a reader, up to the `end` line or to the first fault.
pub fn feed(reader: &mut PlanReader, text: &str) -> Result<(), TextFault> {
    let mut number: u32 = 0;
    for line in text.split('|') {
        number = number.saturating_add(1);
        match reader.read_line(number, line.as_bytes()) {
            Ok(PlanLine::End) => return Ok(()),
            Ok(_) => {}
            Err(fault) => return Err(at_line(number, fault)),
        }
    }
    Err(TextFault::Format(FormatFault {
        line: number.saturating_add(1),
        kind: reader.missing(),
    }))
}

/// The fault of a line.
fn at_line(line: u32, fault: WordFault) -> TextFault {
    match fault {
        WordFault::Kind(kind) => TextFault::Format(FormatFault { line, kind }),
        WordFault::OutOfMemory => TextFault::OutOfMemory,
    }
}

/// The network of a plan text that has no fault.
pub fn network(alloc: Global, text: &str) -> Result<Network, Fail>
    ensures { IfOk result HasPlanNumbers }
{
    let mut reader = PlanReader::new(alloc);
    feed(&mut reader, text)?;
    Ok(reader.build(alloc)?)
}
