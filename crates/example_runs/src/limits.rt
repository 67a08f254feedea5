//! Runs of the program at a limit and beyond it, over inputs whose parts are written in a loop.

use crate::runs::{Calls, try_row};
use std::alloc::{AllocError, Global};
use std::process::Abort;
use std::test::Fail;
use std::thread::Threads;

/// Rows: the words, the input, what is put, and the exit status; `|` stands for a line end, and
/// `{COUNT TEXT}` for the text so many times, in which `*` is the number of the time, from 1. In
/// order: a fleet of as many plans as there may be, and of one more; plans of a fleet with a point
/// and with a link more than there may be; such plans alone; as many points as shared cells are
/// made for, and one more; and a line of as many bytes as there may be, and of one more, in each
/// part of an input.
const RUNS: &str =
    "stnu fleet => fleet 1|{64 plan p*|stnu 1|point A|end|}go|p64 at 0|p1 done|p64 done|end| => {64 p* controllable|p* due 0|}p64 act 0 A|p64 due none|p1 act 0 A|p1 complete|p64 complete| => 0
stnu fleet => fleet 1|{64 plan p*|stnu 1|point A|end|}plan q|stnu 1|end|go|end| => error limit 258 plans| => 4
stnu fleet => fleet 1|plan x|stnu 1|{2001 point p*|}end|go|x done|end| => x refused limit 2001 points|x idle| => 0
stnu fleet => fleet 1|plan x|stnu 1|{802 point p*|}{801 link p802 1 2 p*|}end|go|end| => x refused limit 1603 links| => 0
stnu check => stnu 1|{2001 point p*|}end| => error limit 2002 points| => 4
stnu check => stnu 1|{802 point p*|}{801 link p802 1 2 p*|}end| => error limit 1604 links| => 4
stnu check --engine cells => stnu 1|{1000 point p*|}end| => controllable| => 0
stnu check --engine cells => stnu 1|{1001 point p*|}end| => error limit 1003 cells| => 4
stnu check => {65536 #}|stnu 1|end| => controllable| => 0
stnu check => {65537 #}|stnu 1|end| => error limit 1 line| => 4
stnu run => stnu 1|end|{65536 #}|{65537 #}|done| => controllable|due none|error limit 4 line| => 4
stnu session => stnu 1|end|{65537 #}|end| => ready|error limit 3 line| => 4
stnu fleet => fleet 1|plan x|stnu 1|point A|end|go|x {65535 #}|x done|end| => x controllable|x due 0|error limit 7 line| => 4";

/// Adds a text to another, with a number in place of each `*`.
fn push_numbered(text: &mut String, piece: &str, number: &str) -> Result<(), AllocError> {
    for (place, part) in piece.split('*').enumerate() {
        if place > 0 {
            text.push_str(number)?;
        }
        text.push_str(part)?;
    }
    Ok(())
}

/// Adds what stands between braces to a text, written out.
fn push_repeated(alloc: Global, text: &mut String, repeated: &str) -> Result<(), AllocError> {
    let (count, piece) = repeated.split_once(' ').unwrap_or(("0", ""));
    for place in 0..count.parse::<u32>().unwrap_or(0) {
        let number = (place + 1).to_string(alloc)?;
        push_numbered(text, piece, number.as_str())?;
    }
    Ok(())
}

/// A row, with what stands between braces written out.
fn written_out(alloc: Global, row: &str) -> Result<String, AllocError> {
    let mut text = String::new(alloc);
    for piece in row.split('{') {
        let (repeated, after) = piece.split_once('}').unwrap_or(("", piece));
        push_repeated(alloc, &mut text, repeated)?;
        text.push_str(after)?;
    }
    Ok(text)
}

fn try_written_out<R: Abort + Threads + Sync>(
    rt: &R,
    alloc: Global,
    row: &str,
) -> Result<(), AllocError> {
    let text = written_out(alloc, row)?;
    let calls = Calls {
        cut: 0,
        failing_take: 0,
        failing_put: 0,
    };
    try_row(rt, alloc, text.as_str(), Some(calls))
}

#[test]
fn runs_end_at_their_limits(rt: HostRuntime) -> Result<(), Fail> {
    for row in RUNS.split('\n') {
        try_written_out(&rt, rt.alloc(), row)?;
    }
    Ok(())
}
