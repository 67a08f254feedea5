//! Lines of events, and the completions that a reader keeps of them.

use crate::rows::{cells, network, see_text};
use event_stream::{Event, EventReader, MOST_LINE};
use net_model::{FormatKind, Network, PointId};
use std::alloc::{AllocError, Global};
use std::process::Abort;
use std::test::Fail;

/// The plan of the points A, C and D to which the lines belong.
const PLAN: &str = "stnu 1|point A|point C|point D|bound b1 D C 4|link A 3 8 C|end";

/// Lines that one reader reads one after another: the event or the first fault, and the completions
/// that are then kept.
const LINES: &str = "\
done => done []
 => blank []
at 0 => at 0 []
at 3 C => at 3 [1]
\t\r  => blank [1]
#at 4 A => blank [1]
  # => blank [1]
\tdone\r => done [1]
at 4000000000000 D\tC  A\r => at 4000000000000 [2, 1, 0]
at 18446744073709551616 A => number-limit [2, 1, 0]
at 5 A A A A => at 5 [0, 0, 0, 0]
At 5 C => unknown-word [0, 0, 0, 0]
at5 C => unknown-word [0, 0, 0, 0]
finish C => unknown-word [0, 0, 0, 0]
DONE => unknown-word [0, 0, 0, 0]
point C! 01 => unknown-word [0, 0, 0, 0]
at => word-count [0, 0, 0, 0]
done x => word-count [0, 0, 0, 0]
done # x => word-count [0, 0, 0, 0]
at x C => bad-number [0, 0, 0, 0]
at C => bad-number [0, 0, 0, 0]
at 01 C => bad-number [0, 0, 0, 0]
at +1 => bad-number [0, 0, 0, 0]
at -1 C! Q => bad-number [0, 0, 0, 0]
at -0 => bad-number [0, 0, 0, 0]
at 4000000000001 C! => number-limit [0, 0, 0, 0]
at -4000000000001 => bad-number [0, 0, 0, 0]
at 0 C! => bad-name [0, 0, 0, 0]
at 0 C! Q => bad-name [0, 0, 0, 0]
at 0 Q C! => unknown-name [0, 0, 0, 0]
at 0 Q => unknown-name [0, 0, 0, 0]
at 0 A C D b1 => unknown-name [0, 0, 0, 0]
at 0 c => unknown-name [0, 0, 0, 0]
at 0 C # x => bad-name [0, 0, 0, 0]
at 0 C 9 => bad-name [0, 0, 0, 0]
at 0 abcdefghijklmnopqrstuvwxyzabcdef => unknown-name [0, 0, 0, 0]
at 0 abcdefghijklmnopqrstuvwxyzabcdefg => bad-name [0, 0, 0, 0]
at 0 => at 0 []";

/// The answer to a line, and what is then kept.
fn push_answer(
    alloc: Global,
    reader: &mut EventReader,
    net: &Network,
    line: &[u8],
    text: &mut String,
) -> Result<(), AllocError> {
    if line.len() > MOST_LINE as usize {
        return Err(AllocError);
    }
    push_read(reader.read(line, net), text)?;
    let points = numbers(alloc, reader.completions())?;
    write!(text, " {points:?}")
}

/// The event of a line, or its fault.
fn push_read(read: Result<Event, FormatKind>, text: &mut String) -> Result<(), AllocError> {
    match read {
        Ok(Event::Blank) => text.push_str("blank"),
        Ok(Event::At(moment)) => write!(text, "at {moment}"),
        Ok(Event::Done) => text.push_str("done"),
        Err(fault) => write!(text, "{fault}"),
    }
}

/// The numbers of points.
fn numbers(alloc: Global, points: &[PointId]) -> Result<Vec<u32>, AllocError> {
    let mut numbers = Vec::new(alloc);
    for point in points {
        numbers.push(point.0)?;
    }
    Ok(numbers)
}

fn try_line(
    rt: &impl Abort,
    alloc: Global,
    reader: &mut EventReader,
    net: &Network,
    row: &str,
) -> Result<(), Fail> {
    let (line, wanted) = cells(row).ok_or("a row")?;
    let mut result_text = String::new(alloc);
    push_answer(alloc, reader, net, line.as_bytes(), &mut result_text)?;
    see_text(rt, result_text.as_str(), wanted, line);
    Ok(())
}

fn try_lines(rt: &impl Abort, alloc: Global, net: &Network) -> Result<(), Fail> {
    let mut reader = EventReader::new(alloc)?;
    for row in LINES.split('\n') {
        try_line(rt, alloc, &mut reader, net, row)?;
    }
    Ok(())
}

#[test]
fn events(rt: HostRuntime) -> Result<(), Fail> {
    let net = network(rt.alloc(), PLAN)?;
    try_lines(&rt, rt.alloc(), &net)
}

/// A line of 65,536 bytes that names C 32,766 times.
fn longest_line(alloc: Global) -> Result<Vec<u8>, AllocError> {
    let mut line = b"at 0".to_vec(alloc)?;
    for _ in 0..32_766 {
        line.extend_from_slice(b" C")?;
    }
    Ok(line)
}

/// How many completions of C are kept of a line.
fn completions(alloc: Global, net: &Network, line: &[u8]) -> Result<usize, AllocError> {
    let mut reader = EventReader::new(alloc)?;
    read_line(alloc, net, line, &mut reader)?;
    Ok(count_of(reader.completions(), PointId(1)))
}

fn read_line(
    alloc: Global,
    net: &Network,
    line: &[u8],
    reader: &mut EventReader,
) -> Result<(), AllocError> {
    let mut answer = String::new(alloc);
    push_answer(alloc, reader, net, line, &mut answer)
}

fn count_of(points: &[PointId], wanted: PointId) -> usize {
    let mut count = 0usize;
    for point in points {
        if *point == wanted {
            count = count.saturating_add(1);
        }
    }
    count
}

#[test]
fn longest_event(rt: HostRuntime) -> Result<(), Fail> {
    let line = longest_line(rt.alloc())?;
    assert_eq!(rt; line.len(), 65_536);
    try_longest(&rt, rt.alloc(), &line)
}

fn try_longest(rt: &impl Abort, alloc: Global, line: &[u8]) -> Result<(), Fail> {
    let net = network(alloc, PLAN)?;
    let count = completions(alloc, &net, line)?;
    assert_eq!(rt; count, 32_766);
    Ok(())
}
