//! Lines of a session: edits, questions and faults.

use crate::rows::{cells, see_text};
use edit_script::{Step, read_step};
use net_model::Edit;
use std::alloc::{AllocError, Global};
use std::process::Abort;
use std::test::Fail;

/// Lines of a session, and what each states or its first fault.
const LINES: &str = "\
\t\r => blank
  #add point A => blank
\tadd  point A\r => add point A
add bound point end verdict -1000000000 => add bound point end verdict -1000000000
add link A -5 1000000000 C => add link A -5 1000000000 C
drop point A => drop point A
drop bound b => drop bound b
drop link C => drop link C
set bound b 0 => set bound b 0
set link C 3 8 => set link C 3 8
verdict => verdict
proof => proof
table => table
 plan => plan
report => report
go\r => go
end => end
foo => unknown-word
Add point A => unknown-word
point A => unknown-word
stnu 1 => unknown-word
add verdict => unknown-word
add delay 1 => unknown-word
add Point A => unknown-word
drop b => unknown-word
set point A => unknown-word
set point 9 01 x => unknown-word
add => word-count
drop => word-count
set => word-count
add point => word-count
add point A # x => word-count
add bound b A C => word-count
add bound 9 9 9 9 9 => word-count
add link A 1 2 => word-count
drop bound b 1 => word-count
set bound b => word-count
set link C 3 => word-count
verdict now => word-count
end end => word-count
add point a! => bad-name
add bound b A! C 01 => bad-name
add link A 1 2 9B => bad-name
drop link 9 => bad-name
set bound b! 1000000001 => bad-name
set link aaaaaaaaaaaaaaaaaaaaaaaaaaaaaaaaa x y => bad-name
add bound b A C 01 => bad-number
add link A x 1000000001 9B => bad-number
set bound b -0 => bad-number
set link C + 1000000001 => bad-number
add bound b A C 1000000001 => number-limit
add link A 1000000001 x 9B => number-limit
set bound b -1000000001 => number-limit
set link C 99999999999999999999999999999999999999999 x => number-limit
set link C 3 1000000001 => number-limit";

/// An edit, as its line is spelled.
fn push_edit(edit: &Edit, text: &mut String) -> Result<(), AllocError> {
    match edit {
        Edit::AddPoint(name) => write!(text, "add point {name}"),
        Edit::DropPoint(name) => write!(text, "drop point {name}"),
        Edit::AddBound(name, from, to, most) => {
            write!(text, "add bound {name} {from} {to} {most}")
        }
        Edit::DropBound(name) => write!(text, "drop bound {name}"),
        Edit::SetBound(name, most) => write!(text, "set bound {name} {most}"),
        Edit::AddLink(from, low, high, to) => write!(text, "add link {from} {low} {high} {to}"),
        Edit::DropLink(to) => write!(text, "drop link {to}"),
        Edit::SetLink(to, low, high) => write!(text, "set link {to} {low} {high}"),
    }
}

/// The word of a line that states no edit.
fn step_word(step: &Step) -> &'static str {
    match step {
        Step::Blank => "blank",
        Step::Edit(_) => "edit",
        Step::Verdict => "verdict",
        Step::Proof => "proof",
        Step::Table => "table",
        Step::Plan => "plan",
        Step::Report => "report",
        Step::Go => "go",
        Step::End => "end",
    }
}

/// What a line states, or its fault.
fn push_step(line: &str, text: &mut String) -> Result<(), AllocError> {
    match read_step(line.as_bytes()) {
        Ok(Step::Edit(edit)) => push_edit(&edit, text),
        Ok(step) => text.push_str(step_word(&step)),
        Err(fault) => write!(text, "{fault}"),
    }
}

fn try_line(rt: &impl Abort, alloc: Global, row: &str) -> Result<(), Fail> {
    let (line, wanted) = cells(row).ok_or("a row")?;
    let mut result_text = String::new(alloc);
    push_step(line, &mut result_text)?;
    see_text(rt, result_text.as_str(), wanted, line);
    Ok(())
}

#[test]
fn steps(rt: HostRuntime) -> Result<(), Fail> {
    for row in LINES.split('\n') {
        try_line(&rt, rt.alloc(), row)?;
    }
    Ok(())
}
