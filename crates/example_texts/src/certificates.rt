//! Certificates: lines that are read alone, and whole texts.

use crate::rows::{cells, see_bytes, see_text, with_line_ends};
use cert_format::{CertText, print_certificate, read_cert_line, read_certificate};
use std::alloc::{AllocError, Global};
use std::process::Abort;
use std::test::Fail;

/// Lines that are read alone, each with what it is, or with its first fault.
const LINES: &str = " => blank
# bound => blank
\tcertificate  1\r => header
refutation => refutation
bound end walk drop 999999999999999999 => line
link C C A -8 => line
no 1 18446744073709551615 A B -999999999999999999 => line
up 1 3 D A C -7 => line
low C 2 A D 2 => line
cross C 2 A D B 0 => line
drop 6 A B -3 => line
walk 0 => walk
table => table
order end => order
edge A B -999999999999999999 => entry
upper A C 0 => entry
end => end
certificate => unknown-word
certificate 01 => unknown-word
certificate 1 1 => unknown-word
tables => unknown-word
edges A B 1 => unknown-word
Bound b A B 1 => unknown-word
refutation 1 => word-count
table 1 => word-count
order => word-count
edge A B => word-count
upper A C 1 2 => word-count
bound b A B => word-count
walk 1 # x => word-count
end ! => word-count
bound 9b 01 B x => bad-name
order 9b => bad-name
edge 9b B! x => bad-name
upper A B! x => bad-name
bound b A abcdefghijklmnopqrstuvwxyzabcdefg 01 => bad-name
no 01 -1 A! B 1 => bad-number
no 1 -1 A! B 1 => bad-number
up 1 2 A B C! 01 => bad-name
low C +1 A D 2 => bad-number
walk 18446744073709551616 => number-limit
bound b A B -0 => bad-number
edge A B 01 => bad-number
bound b A B 1000000000000000000 => number-limit
upper A C -1000000000000000000 => number-limit
bound b A B -1000000000000000000 => number-limit";

/// Texts, each with what is printed of it, or with its first fault; `|` stands for a line end.
const TEXTS: &str = " => no-header in line 1
|# x|| => no-header in line 4
refutation| => no-header in line 1
|certificate 1 1| => no-header in line 2
certificate 1 => no-end in line 2
certificate 1|tables|end| => unknown-word in line 2
certificate 1|table 1|end| => word-count in line 2
certificate 1|table|refutation|end| => unknown-word in line 3
certificate 1|table|bound b A B 1|end| => unknown-word in line 3
certificate 1|refutation|edge A B 1|end| => unknown-word in line 3
certificate 1|table|order A|edge A B 1|order B|end| => unknown-word in line 5
certificate 1|table|edge A B 1|order| => unknown-word in line 4
certificate 1|table|edge A B| => word-count in line 3
certificate 1|table|order A|walk 1| => unknown-word in line 4
certificate 1|table|order A|edge A B 1 => no-end in line 5
certificate 1|refutation 1|end| => word-count in line 2
certificate 1|certificate 1| => unknown-word in line 2
certificate 1|walk| => unknown-word in line 2
certificate 1|refutation|refutation 1| => unknown-word in line 3
certificate 1|refutation|certificate 1| => unknown-word in line 3
certificate 1|refutation|bound b A B 01| => bad-number in line 3
certificate 1|refutation|end x| => word-count in line 3
certificate 1|refutation|walk 1|bound| => unknown-word in line 4
certificate 1|refutation|bound b A B 1|walk 1 => no-end in line 5
certificate 1|refutation|end => certificate 1|refutation|end|
certificate 1|table|end => certificate 1|table|end|
certificate 1|table|upper C C -8|end => certificate 1|table|upper C C -8|end|
 certificate 1|#|table||order A|order B |#|upper C C -8| edge\tA B 5|edge A B 7|end|end => certificate 1|table|order A|order B|upper C C -8|edge A B 5|edge A B 7|end|
| # x| certificate\t1\r||refutation|#|bound b A B 3| |walk 1|end\r|foo|end x| => certificate 1|refutation|bound b A B 3|walk 1|end|
certificate 1|refutation|bound b1 A B 3|bound b2 B A -5|no 1 2 A A -2|walk 3|end| => certificate 1|refutation|bound b1 A B 3|bound b2 B A -5|no 1 2 A A -2|walk 3|end|
certificate 1|refutation|link C C A -8|up 1 3 D A C -7|low C 2 A D 2|cross end 18446744073709551615 walk no drop -999999999999999999|drop 6 A A -3|walk 7|end| => certificate 1|refutation|link C C A -8|up 1 3 D A C -7|low C 2 A D 2|cross end 18446744073709551615 walk no drop -999999999999999999|drop 6 A A -3|walk 7|end|";

/// What a line is that is read alone, or its fault.
fn line_answer(alloc: Global, line: &[u8]) -> Result<String, AllocError> {
    match read_cert_line(line) {
        Ok(said) => String::from_str(alloc, line_word(&said)),
        Err(fault) => fault.to_string(alloc),
    }
}

fn line_word(said: &CertText) -> &'static str {
    match said {
        CertText::Blank => "blank",
        CertText::Header => "header",
        CertText::Refutation => "refutation",
        CertText::Table => "table",
        CertText::Line(_) => "line",
        CertText::Walk(_) => "walk",
        CertText::Order(_) => "order",
        CertText::Entry(_) => "entry",
        CertText::End => "end",
    }
}

/// What is printed of a text, or its fault.
fn text_answer(alloc: Global, text: &[u8]) -> Result<Vec<u8>, AllocError> {
    if text.len() > 1000 {
        return Ok(Vec::new(alloc));
    }
    match read_certificate(alloc, text) {
        Ok(certificate) => print_certificate(alloc, &certificate),
        Err(fault) => Ok(fault.to_string(alloc)?.into_bytes()),
    }
}

/// What is printed of the text of a cell, or its fault.
fn cell_answer(alloc: Global, cell: &str) -> Result<Vec<u8>, AllocError> {
    let text = with_line_ends(alloc, cell)?;
    text_answer(alloc, text.as_slice())
}

fn try_line<R: Abort>(rt: &R, alloc: Global, row: &str) -> Result<(), Fail> {
    let (line, expected) = cells(row).ok_or("a row")?;
    let answer = line_answer(alloc, line.as_bytes())?;
    see_text(rt, answer.as_str(), expected, row);
    Ok(())
}

fn try_text<R: Abort>(rt: &R, alloc: Global, row: &str) -> Result<(), Fail> {
    let (text, expected) = cells(row).ok_or("a row")?;
    let expected = with_line_ends(alloc, expected)?;
    try_cell(rt, alloc, text, expected.as_slice())
}

/// The text of a cell has this answer.
fn try_cell<R: Abort>(rt: &R, alloc: Global, cell: &str, expected: &[u8]) -> Result<(), Fail> {
    let answer = cell_answer(alloc, cell)?;
    see_bytes(rt, answer.as_slice(), expected, cell);
    Ok(())
}

#[test]
fn lines_are_read_alone(rt: HostRuntime) -> Result<(), Fail> {
    for row in LINES.split('\n') {
        try_line(&rt, rt.alloc(), row)?;
    }
    Ok(())
}

#[test]
fn texts_are_read_and_printed(rt: HostRuntime) -> Result<(), Fail> {
    for row in TEXTS.split('\n') {
        try_text(&rt, rt.alloc(), row)?;
    }
    Ok(())
}
