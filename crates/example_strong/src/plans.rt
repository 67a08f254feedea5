//! Networks from the lines of plans, and texts with line ends, for the tests of this crate.

ghost use Rattle.std.specs.Prelude.{IfOk};
ghost use Rattle.net_model.specs.Network.{HasPlanNumbers};

use net_model::{Network, WordFault};
use plan_format::PlanReader;
use std::alloc::{AllocError, Global};
use std::test::Fail;

/// The network of the lines of a plan, without its first and its last, with `|` between them. It
/// fails if a line is no line of a plan, if a part is refused, and if memory is refused.
pub fn network(alloc: Global, lines: &str) -> Result<Network, Fail>
    ensures { IfOk result HasPlanNumbers }
{
    let mut reader = PlanReader::new(alloc);
    read_lines(&mut reader, lines)?;
    Ok(reader.build(alloc)?)
}

fn read_lines(reader: &mut PlanReader, lines: &str) -> Result<(), WordFault> {
    reader.read_line(1, b"stnu 1")?;
    let mut number: u32 = 1;
    for line in lines.split('|') {
        number = number.saturating_add(1);
        reader.read_line(number, line.as_bytes())?;
    }
    reader.read_line(number.saturating_add(1), b"end")?;
    Ok(())
}

/// The bytes of a text with line ends in place of `|`.
pub fn with_line_ends(alloc: Global, text: &str) -> Result<Vec<u8>, AllocError> {
    let mut bytes = Vec::new(alloc);
    for byte in text.bytes() {
        bytes.push(if byte == b'|' { b'\n' } else { byte })?;
    }
    Ok(bytes)
}
