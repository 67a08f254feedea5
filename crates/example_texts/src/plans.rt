//! Plan texts: lines that are read alone, texts, and their networks.

ghost use Rattle.std.specs.Prelude.{◌≡◌, ◌⊎◌};

use crate::rows::{cells, exchange, feed, see_bytes, see_text, with_line_ends};
use plan_format::{
    PlanLine, PlanReader, PlanSection, PlanStage, PlanVersion, print_plan, read_plan,
    read_plan_line,
};
use std::alloc::{AllocError, Global};
use std::process::Abort;
use std::test::Fail;

/// Lines that are read alone in version 1, and what each is.
const LINES: &str = "\
\t\r => blank
  #point A => blank
stnu 1 => header
\tstnu  1\r => header
point end => part
bound b A A -1000000000 => part
link A -5 1000000000 A => part
\tend\r => end
point => word-count
point A # x => word-count
bound b A B 1 2 => word-count
bound 9 9 9 => word-count
link A 1 2 => word-count
end end => word-count
foo => unknown-word
Point A => unknown-word
poin A => unknown-word
ends => unknown-word
delay 1 => unknown-word
between b A 1 2 A => unknown-word
certificate 1 => unknown-word
\x0bpoint A => unknown-word
stnu => unknown-word
stnu 2 => header
stnu 3 => unknown-word
stnu 01 => unknown-word
stnu 1 x => unknown-word
point a! => bad-name
point aaaaaaaaaaaaaaaaaaaaaaaaaaaaaaaaa => bad-name
bound b A! B 01 => bad-name
bound b! A B 1000000001 => bad-name
link A 1 2 9B => bad-name
bound b A B 01 => bad-number
bound b A B +1 => bad-number
bound b A B -0 => bad-number
bound b A B - => bad-number
bound b A B 1e3 => bad-number
link A x 1000000001 9B => bad-number
bound b A B 1000000001 => number-limit
bound b A B -1000000001 => number-limit
bound b A B 99999999999999999999999999999999999999999999999999999999999999999999999999999 => number-limit
link A 1000000001 5 9B => number-limit
link A 5 -1000000001 9B => number-limit";

/// Lines that are read alone in version 2, and what each is.
const SECOND: &str = "\
stnu 1 => header
stnu 2 => header
stnu 3 => unknown-word
point A => part
end => end
delay 0 => delay
delay 1000000 => delay
between b A -1000000000 1000000000 A => between
between aaaaaaaaaaaaaaaaaaaaaaaaaaaa A 2 1 B => between
delay => word-count
delay 1 2 => word-count
between b A 1 2 => word-count
between 9 9 9 9 9 9 => word-count
delays 1 => unknown-word
betwee b A 1 2 B => unknown-word
between aaaaaaaaaaaaaaaaaaaaaaaaaaaaa A 1 2 B => bad-name
between aaaaaaaaaaaaaaaaaaaaaaaaaaaaa 9 01 2 B => bad-name
between b 9 1000000001 2 B => bad-name
between b A 1 2 9 => bad-name
delay -1 => bad-number
delay -0 => bad-number
delay 01 => bad-number
delay A => bad-number
between b A 1 - 9 => bad-number
delay 1000001 => number-limit
delay 99999999999999999999999999999999999999999999999 => number-limit
between b A -1000000001 - 9 => number-limit
between b A 1 1000000001 9 => number-limit";

/// What a line is, or its fault.
fn shown_line(alloc: Global, line: &str, version: u32) -> Result<String, AllocError>
    requires { (version ≡ 1) ⊎ (version ≡ 2) }
{
    match read_plan_line(line.as_bytes(), version) {
        Ok(read) => line_word(&read).to_string(alloc),
        Err(fault) => fault.to_string(alloc),
    }
}

fn line_word(line: &PlanLine) -> &'static str {
    match line {
        PlanLine::Blank => "blank",
        PlanLine::Header(_) => "header",
        PlanLine::Part(_) => "part",
        PlanLine::Delay(_) => "delay",
        PlanLine::Between(_, _, _, _, _) => "between",
        PlanLine::End => "end",
    }
}

fn try_line<R: Abort>(rt: &R, alloc: Global, row: &str, version: u32) -> Result<(), Fail>
    requires { (version ≡ 1) ⊎ (version ≡ 2) }
{
    let (line, answer) = cells(row).ok_or("a row")?;
    let shown = shown_line(alloc, line, version)?;
    see_text(rt, shown.as_str(), answer, line);
    Ok(())
}

fn are_lines<R: Abort>(rt: &R, alloc: Global, rows: &str, version: u32) -> Result<(), Fail>
    requires { (version ≡ 1) ⊎ (version ≡ 2) }
{
    for row in rows.split('\n') {
        try_line(rt, alloc, row, version)?;
    }
    Ok(())
}

#[test]
fn lines(rt: HostRuntime) -> Result<(), Fail> {
    are_lines(&rt, rt.alloc(), LINES, 1)?;
    are_lines(&rt, rt.alloc(), SECOND, 2)
}

/// Plan texts, and what is printed of the network that each declares, or the fault.
const PLANS: &str = "\
stnu 1|end => stnu 2|end|
#| stnu 1|point\tA1|point C1|link A1 1 3 C1|bound b1 C1 A1 -2|point A2|bound end A2 A1 1000000000|end|foo => stnu 2|point A1|point C1|point A2|bound b1 C1 A1 -2|bound end A2 A1 1000000000|link A1 1 3 C1|end|
stnu 1|point A|point B|bound b A B 0|bound A B B 5|end => stnu 2|point A|point B|bound b A B 0|bound A B B 5|end|
point A|end => no-header in line 1
|#|end => no-header in line 3
stnu 1 x|end => no-header in line 1
certificate 1|end => no-header in line 1
point 9|end => no-header in line 1
|stnu 1|point A => no-end in line 4
stnu 1|point A|point A => no-end in line 4
stnu 1|# stnu 1|stnu 1|end => unknown-word in line 3
stnu 1|point A|point A|foo|end => unknown-word in line 4
stnu 1|end x|end => word-count in line 2
stnu 1||point 9|bound|end => bad-name in line 3
stnu 1|bound b A B -0|end => bad-number in line 2
stnu 1|link A 1 2000000000 B|end => number-limit in line 2
stnu 1|point A|point A|end => duplicate-name in line 3
stnu 1|point A||bound b A A 1|bound b X A 1|end => duplicate-name in line 5
stnu 1|bound b A B 1|point A|point B|end => unknown-name in line 2
stnu 1|point A|bound b A B 1|end => unknown-name in line 3
stnu 1|point A|link X 1 2 A|end => unknown-name in line 3
stnu 1|point A|link A 1 2 A|end => link-to-itself in line 3
stnu 1|point A|point B|point C|link A 1 2 B|# x|link C 0 2 B|end => two-links-on-point in line 7
stnu 1|point A|point B|link A 0 4 B|end => bad-interval in line 4
stnu 1|point A|point B|link A 3 2 B|end => bad-interval in line 4
stnu 2|end => stnu 2|end|
stnu 2||delay 0|# x|end => stnu 2|end|
stnu 2|delay 1|point A|point B|between w A 2 5 B|end => stnu 2|delay 1|point A|point B|bound w.max A B 5|bound w.min B A -2|end|
stnu 2|#|delay 1000000|end => stnu 2|delay 1000000|end|
stnu 2|point A|point B|between w A 5 -2 B|link A 1 2 B|end => stnu 2|point A|point B|bound w.max A B -2|bound w.min B A -5|link A 1 2 B|end|
stnu 1|delay 1|end => unknown-word in line 2
stnu 1|between|end => unknown-word in line 2
stnu 2|delay|end => word-count in line 2
stnu 2|delay 1000001|end => number-limit in line 2
stnu 2|delay 1|delay 1|end => unknown-word in line 3
stnu 2|delay 1||delay|end => unknown-word in line 4
stnu 2|point A|delay 1|end => unknown-word in line 3
stnu 2|point A|point A|between w A 1 2|end => word-count in line 4
delay 1|stnu 2|end => no-header in line 1
stnu 3|end => no-header in line 1
stnu 2|stnu 2|end => unknown-word in line 2
stnu 2|delay 1 => no-end in line 3
stnu 2|point A|bound w.max A A 1|between w A 0 0 A|end => duplicate-name in line 4
stnu 2|point A|bound w.min A A 1|between w A 0 0 A|end => duplicate-name in line 4
stnu 2|point A|between w A 0 0 X|end => unknown-name in line 3";

/// The plan text of the network that was read, with `|` for each line end, or why there is none.
fn declared(alloc: Global, reader: &PlanReader) -> Result<Vec<u8>, AllocError> {
    match reader.build(alloc) {
        Ok(net) => {
            let mut text = print_plan(alloc, &net)?;
            exchange(&mut text, b'\n', b'|');
            Ok(text)
        }
        Err(fault) => Ok(fault.to_string(alloc)?.into_bytes()),
    }
}

/// The answer to a plan text that is read line by line.
fn answer_by_line(alloc: Global, text: &str) -> Result<Vec<u8>, AllocError> {
    let mut reader = PlanReader::new(alloc);
    match feed(&mut reader, text) {
        Ok(()) => declared(alloc, &reader),
        Err(fault) => Ok(fault.to_string(alloc)?.into_bytes()),
    }
}

fn try_plan(rt: &impl Abort, alloc: Global, row: &str) -> Result<(), Fail> {
    let (text, answer) = cells(row).ok_or("a row")?;
    let result_text = answer_by_line(alloc, text)?;
    see_bytes(rt, result_text.as_slice(), answer.as_bytes(), text);
    Ok(())
}

#[test]
fn plans(rt: HostRuntime) -> Result<(), Fail> {
    for row in PLANS.split('\n') {
        try_plan(&rt, rt.alloc(), row)?;
    }
    Ok(())
}

/// Whole texts: their fault, or the lines of their parts, the bytes that were used and the delay.
const TEXTS: &str = "\
| => no-header in line 2
 => no-header in line 1
||# x| => no-header in line 4
stnu 1 => no-end in line 2
stnu 1| => no-end in line 2
stnu 1|| => no-end in line 3
stnu 1|point A|end x => word-count in line 3
stnu 1|end => [] 10 0
stnu 1|end|foo => [] 11 0
stnu 2|delay 3|point A|point B|between w A 1 2 B|end => [3, 4, 5, 5] 52 3
stnu 1\r||point A\r|# x|point B|bound A A B 1||link A 1 2 B|  end  \r|foo => [3, 5, 6, 8] 67 0";

/// The lines of the parts of a text, the bytes that were used and the delay, or the fault.
fn answer_to_whole(alloc: Global, text: &[u8]) -> Result<String, AllocError> {
    if text.len() > 1_000 {
        return Err(AllocError);
    }
    match read_plan(alloc, text) {
        Ok(read) => format!(in alloc; "{:?} {} {}", read.lines.as_slice(), read.used, read.delay),
        Err(fault) => fault.to_string(alloc),
    }
}

fn try_whole_text(rt: &impl Abort, alloc: Global, row: &str) -> Result<(), Fail> {
    let (text, answer) = cells(row).ok_or("a row")?;
    let bytes = with_line_ends(alloc, text)?;
    let result_text = answer_to_whole(alloc, &bytes)?;
    see_text(rt, result_text.as_str(), answer, text);
    Ok(())
}

#[test]
fn whole_texts(rt: HostRuntime) -> Result<(), Fail> {
    for row in TEXTS.split('\n') {
        try_whole_text(&rt, rt.alloc(), row)?;
    }
    Ok(())
}

/// Gives a reader the header, a line for each of so many points, and the `end` line.
fn feed_points(alloc: Global, reader: &mut PlanReader, count: u32) -> Result<(), Fail> {
    reader.read_line(1, b"stnu 1")?;
    for number in 0..count {
        let line = format!(in alloc; "point p{number}")?;
        reader.read_line(number.saturating_add(2), line.as_bytes())?;
    }
    reader.read_line(count.saturating_add(2), b"end")?;
    Ok(())
}

/// How many points the network of a plan of so many points has, or why there is none.
fn points(alloc: Global, count: u32) -> Result<String, Fail> {
    let mut reader = PlanReader::new(alloc);
    feed_points(alloc, &mut reader, count)?;
    Ok(points_read(alloc, &reader)?)
}

fn points_read(alloc: Global, reader: &PlanReader) -> Result<String, AllocError> {
    match reader.build(alloc) {
        Ok(net) => net.points().len().to_string(alloc),
        Err(fault) => fault.to_string(alloc),
    }
}

fn try_points(rt: &impl Abort, alloc: Global, count: u32, answer: &str) -> Result<(), Fail> {
    let points = points(alloc, count)?;
    assert_eq!(rt; points.as_str(), answer);
    Ok(())
}

#[test]
fn largest_plan(rt: HostRuntime) -> Result<(), Fail> {
    try_points(&rt, rt.alloc(), 2_000, "2000")?;
    try_points(&rt, rt.alloc(), 2_001, "limit in line 2002")
}

fn look_at(rt: &impl Abort, reader: &PlanReader) {
    assert_eq!(rt;
        reader.section(),
        PlanSection::Started(PlanVersion::One, PlanStage::PastDelay)
    );
    assert_eq!(rt; reader.parts().len(), 1);
    assert_eq!(rt; reader.lines(), [3].as_slice());
}

/// What was read so far; a refused line changes nothing.
#[test]
fn progress_of_a_reader(rt: HostRuntime) {
    let mut reader = PlanReader::new(rt.alloc());
    assert!(rt; feed(&mut reader, "stnu 1||point A").is_err());
    look_at(&rt, &reader);
    assert!(rt; feed(&mut reader, "point 9").is_err());
    look_at(&rt, &reader);
}
