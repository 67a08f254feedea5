//! The networks of tests, by the lines of their plans, edits of them, and a meeting of threads.
#![tactic(auto)]

mod meeting;

use edit_script::{Step, read_step};
pub use meeting::Meeting;
use net_model::{Edit, MOST_DELAY, Network, Weight, WordFault};
use plan_format::PlanReader;
use std::alloc::Global;
use std::test::Fail;

/// The network of the lines of a plan, without its first and its last, with `|` between them. It
/// fails if a line is no line of a plan, if a part is refused, and for want of memory.
pub fn network(alloc: Global, lines: &str) -> Result<Network, Fail> {
    let mut reader = PlanReader::new(alloc);
    read_lines(&mut reader, lines)?;
    Ok(reader.build(alloc)?)
}

/// The same with a delay. It fails besides if that is below 0 or above `MOST_DELAY`.
pub fn network_with_delay(alloc: Global, lines: &str, delay: Weight) -> Result<Network, Fail> {
    let mut reader = PlanReader::new(alloc);
    read_lines(&mut reader, lines)?;
    let net = reader.build(alloc)?;
    if delay < 0 || delay > Weight::from(MOST_DELAY) {
        return Err(Fail::from("no such delay"));
    }
    Ok(net.with_delay(delay))
}

fn read_lines(reader: &mut PlanReader, lines: &str) -> Result<(), WordFault> {
    reader.read_line(1, b"stnu 1")?;
    let mut number: u32 = 1;
    for line in lines.split('|') {
        number = number.saturating_add(1);
        reader.read_line(number, line.as_bytes())?;
    }
    reader.read_line(number.saturating_add(1), b"end")?;
    Ok(())
}

/// The edit that a line of a session is, if it is one.
pub fn edit(line: &str) -> Option<Edit> {
    match read_step(line.as_bytes()) {
        Ok(Step::Edit(edit)) => Some(edit),
        _ => None,
    }
}
