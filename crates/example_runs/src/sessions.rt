//! The command `session` over ports in memory.

use crate::runs::{Calls, RunRow, row_of, try_calls};
use std::alloc::AllocError;
use std::process::Abort;
use std::test::Fail;
use std::thread::Threads;

/// Rows: the words, the input, what is put, and the exit status; `|` stands for a line end. In
/// order: a bound dropped and added again, and the reason; a bound that was in the way, and what
/// the edit kept; edges that rest on one another; a network that is executed once it is
/// controllable; the same without edits; the conditions of points; every question when some
/// strategy controls the network, and when none does; the plan as it stands; the report; every
/// cause of a refused edit, after which the session goes on; lines that state nothing; inputs that
/// end; lines after `go`; a plan as a document; and words.
const SESSIONS: &str =
    "stnu session => stnu 1|point A|point C|point D|bound b1 D C 1|bound b2 C D -1|link A 3 8 C|end|verdict|drop bound b2|verdict|add bound b2 C D -1|proof|drop bound zz|end| => ready|not controllable|ok|controllable|ok|certificate 1|refutation|bound b1 D C 1|bound b2 C D -1|link C C A -8|up 1 3 D A C -7|low C 2 A D 2|up 5 4 A A C -5|drop 6 A A -3|walk 7|end|refused unknown-name| => 0
stnu session => stnu 1|point A|point B|bound b1 A B 5|bound b2 A B 3|bound b3 B A -4|end|proof|drop bound b2|verdict|report|end| => ready|certificate 1|refutation|bound b2 A B 3|bound b3 B A -4|no 1 2 A A -1|walk 3|end|ok|controllable|report 2 2 2| => 0
stnu session => stnu 1|point X|point Y|point Z|bound a X Y 0|bound b Y X 0|bound g X Z -5|bound c Z X 3|end|verdict|drop bound g|verdict|drop point X|end| => ready|not controllable|ok|controllable|refused still-used bound a| => 0
stnu session => stnu 1|point A|point C|point D|bound b1 D C 1|bound b2 C D -1|link A 3 8 C|end|go|drop bound b2|go|at 0|at 5 C|done| => ready|not controllable|ok|controllable|due 0|act 0 A|due 7|act 5 D|due none|complete| => 0
stnu session => stnu 1|point A|point C|point D|bound b1 D C 4|link A 3 8 C|end|go|at 0|at 3 C|done|nothing here|is looked at => ready|controllable|due 0|act 0 A|due 4|act 3 D|due none|complete| => 0
stnu session => stnu 1|point A|point C|point D|bound b1 D C 4|link A 3 8 C|end|table|end| => ready|after D A 3|wait D C 4|table end| => 0
stnu session => stnu 1|point A|point B|point C|bound b1 B A -2|bound b2 C B -3|bound b3 C A -4|end|table|go|at 0|at 4|done| => ready|after B A 2|after C A 4|after C B 3|table end|controllable|due 0|act 0 A|due 2|act 2 B|due 5|act 5 C|complete| => 0
stnu session => stnu 1|point A|point C|point D|bound b1 D C 4|link A 3 8 C|end|verdict|proof|report|# a remark||end| => ready|controllable|certificate 1|table|order A|order C|order D|edge A A 0|edge C A -3|upper C C -8|edge D A -3|upper D C -4|edge D C 4|end|report none| => 0
stnu session => stnu 1|point A|point C|point D|bound b1 D C 1|bound b2 C D -1|link A 3 8 C|end|table|go|end| => ready|not controllable|not controllable| => 0
stnu session => stnu 1|point A|point C|point D|bound b1 D C 4|link A 3 8 C|end|add point E|add bound b2 E D -5|set bound b1 6|set link C 2 9|drop bound b2|add bound b3 E A 0|plan|end| => ready|ok|ok|ok|ok|ok|ok|stnu 2|point A|point C|point D|point E|bound b1 D C 6|bound b3 E A 0|link A 2 9 C|end| => 0
stnu session => stnu 1|end|add point A|report|drop point A|plan|verdict|table|end| => ready|ok|report 0 0 1|ok|stnu 2|end|controllable|table end| => 0
stnu session => stnu 1|point A|point C|point D|bound b1 D C 4|link A 3 8 C|end|add point A|drop point Q|add bound b1 A D 0|add bound b2 A Q 0|drop bound b2|set bound b2 1|add link D 1 2 C|add link D 1 2 D|add link D 0 2 A|set link C 3 2|set link D 1 2|drop link A|drop point A|report|verdict|end| => ready|refused duplicate-name|refused unknown-name|refused duplicate-name|refused unknown-name|refused unknown-name|refused unknown-name|refused two-links-on-point|refused link-to-itself|refused bad-interval|refused bad-interval|refused unknown-name|refused unknown-name|refused still-used link C|report none|controllable| => 0
stnu session => stnu 1|point A|end|frob|end| => ready|error format 4 unknown-word| => 3
stnu session => stnu 1|point A|end|verdict|set point A| => ready|controllable|error format 5 unknown-word| => 3
stnu session => stnu 1|point A|end|add| => ready|error format 4 word-count| => 3
stnu session => stnu 1|point A|end|verdict now| => ready|error format 4 word-count| => 3
stnu session => stnu 1|point A|end|drop bound 9x| => ready|error format 4 bad-name| => 3
stnu session => stnu 1|point A|end|set bound b 01| => ready|error format 4 bad-number| => 3
stnu session => stnu 1|point A|end|set bound b 1000000001| => ready|error limit 4 number| => 4
stnu session => stnu 1|point A|end|verdict => ready|controllable|error format 5 no-end| => 3
stnu session => stnu 1|point A|end => ready|error format 4 no-end| => 3
stnu session => stnu 1|point A|point A|end|verdict| => error plan 3 duplicate-name| => 3
stnu session => stnu 1|point A => error format 3 no-end| => 3
stnu session => stnu 1|point A|point C|point D|bound b1 D C 4|link A 3 8 C|end|go|at 0|at 9| => ready|controllable|due 0|act 0 A|due 4|error event 10 overdue C 8| => 7
stnu session => stnu 1|point A|point C|point D|bound b1 D C 4|link A 3 8 C|end|go|end| => ready|controllable|due 0|error format 9 unknown-word| => 3
stnu session => stnu 1|point A|point C|point D|bound b1 D C 4|link A 3 8 C|end|go => ready|controllable|due 0|error format 9 no-end| => 3
stnu session --json => {\"stnu\":1,\"points\":[\"A\"]}|end|verdict|plan|end| => ready|controllable|stnu 2|point A|end| => 0
stnu session => stnu 2|delay 1|end|add point A|plan|add between w A 1 2 A| => ready|ok|stnu 2|delay 1|point A|end|error format 6 unknown-word| => 3
stnu session --delay 3 => stnu 1|point A|end|plan|end| => ready|stnu 2|delay 3|point A|end| => 0
stnu session --delay=3 => stnu 2|delay 1|point A|end|plan|end| => ready|stnu 2|delay 3|point A|end| => 0
stnu session --workers=0 => stnu 1|end|end| => error words| => 2
stnu session now => stnu 1|end|end| => error words| => 2";

/// The places of the rows that are tried with each number of workers.
const WITH_WORKERS: [usize; 3] = [0, 1, 3];

/// Some numbers of workers, in both spellings.
const WORKERS: [&str; 4] = [
    "stnu session --workers 1",
    "stnu session --workers=2",
    "stnu session --workers 7",
    "stnu session --workers=64",
];

/// Rows: how many bytes a take gives at most, if that is above 0, which take and which put fails;
/// and then as above.
const FAILING: [(Calls, &str); 3] = [
    (
        Calls {
            cut: 0,
            failing_take: 0,
            failing_put: 2,
        },
        "stnu session => stnu 1|point A|end|verdict|verdict|end| => ready| => 6",
    ),
    (
        Calls {
            cut: 1,
            failing_take: 30,
            failing_put: 0,
        },
        "stnu session => stnu 1|point A|end|verdict|verdict|end| => ready|controllable|error read| => 5",
    ),
    (
        Calls {
            cut: 1,
            failing_take: 0,
            failing_put: 0,
        },
        "stnu session => stnu 1|point A|end|verdict|verdict|end| => ready|controllable|controllable| => 0",
    ),
];

/// No call fails, and a take gives so many bytes at most, if that is above 0.
fn cut_at(cut: u32) -> Calls {
    Calls {
        cut,
        failing_take: 0,
        failing_put: 0,
    }
}

fn try_text<R: Abort + AllocGlobal + Threads + Sync>(
    rt: &R,
    text: &str,
    calls: Calls,
) -> Result<(), AllocError> {
    if let Some(row) = row_of(text) {
        try_calls(rt, rt.alloc(), row, calls)
    } else {
        assert!(rt; false, "{text}");
        Ok(())
    }
}

/// A row, with these words in place of its own.
fn try_with_words<R: Abort + AllocGlobal + Threads + Sync>(
    rt: &R,
    place: usize,
    words: &str,
) -> Result<(), AllocError> {
    if let Some(row) = row_of(SESSIONS.split('\n').nth(place).unwrap_or("")) {
        try_calls(rt, rt.alloc(), RunRow { words, ..row }, cut_at(0))
    } else {
        assert!(rt; false, "{words}");
        Ok(())
    }
}

#[test]
fn sessions_answer_each_line(rt: HostRuntime) -> Result<(), Fail> {
    for text in SESSIONS.split('\n') {
        for cut in [0, 1] {
            try_text(&rt, text, cut_at(cut))?;
        }
    }
    Ok(())
}

#[test]
fn workers_change_no_answer(rt: HostRuntime) -> Result<(), Fail> {
    for words in WORKERS {
        for place in WITH_WORKERS {
            try_with_words(&rt, place, words)?;
        }
    }
    Ok(())
}

#[test]
fn sessions_report_failed_calls(rt: HostRuntime) -> Result<(), Fail> {
    for (calls, text) in FAILING {
        try_text(&rt, text, calls)?;
    }
    Ok(())
}
