//! Plans, each with a tightest deadline and its certificates.

use crate::deadline_text::printed_between;
use example_plans::{network, network_with_delay};
use net_model::{Network, Weight};
use parallel_rounds::NoGate;
use std::alloc::{AllocError, Global};
use std::process::Abort;
use std::test::Fail;
use std::thread::Threads;

/// A plan in which D comes when C has come, or 4 after A.
const WAIT: &str = "point A|point C|point D|bound b1 D C 4|link A 3 8 C";

/// The same, with two bounds of which only one matters.
const NAMED: &str = "point A|point C|point D|bound goal D C 4|bound goal.1 D C 4|link A 3 8 C";

/// The deadline from A to D there, if the bound of the plan and the goal have these names.
const PROVED: &str =
    "4|certificate 1|table|order A|order C|order D|edge A A 0|upper A C 0|edge C A -3|upper C C -8|edge D A -3|upper D C -4|edge D C 4|edge A D 4|end|certificate 1|refutation|";

const REFUTED: &str = "link C C A -8|up 1 3 D A C -4|up 2 4 A A C -1|drop 5 A A -1|walk 6|end|";

/// What is printed, with `|` for line ends.
fn answer_text<R: Threads + Sync>(
    rt: &R,
    alloc: Global,
    net: Network,
    ends: (&str, &str),
) -> Result<String, Fail> {
    let text = printed_between(rt, alloc, net, ends, 2, &NoGate)?;
    let mut answer_text = String::new(alloc);
    for byte in text.as_slice() {
        let byte = if *byte == b'\n' { b'|' } else { *byte };
        answer_text.push(char::from(byte))?;
    }
    Ok(answer_text)
}

#[test]
fn deadline_is_proved_and_refuted(rt: HostRuntime) -> Result<(), Fail> {
    let alloc = rt.alloc();
    let found = answer_text(&rt, alloc, network(alloc, WAIT)?, ("A", "D"))?;
    let wanted = format!(in alloc; "{PROVED}bound b1 D C 4|bound goal A D 3|{REFUTED}")?;
    let same = found.as_str() == wanted.as_str();
    assert!(rt; same, "{found}");
    Ok(())
}

#[test]
fn goal_has_the_first_free_name(rt: HostRuntime) -> Result<(), Fail> {
    let alloc = rt.alloc();
    let found = answer_text(&rt, alloc, network(alloc, NAMED)?, ("A", "D"))?;
    let wanted = format!(in alloc; "{PROVED}bound goal D C 4|bound goal.2 A D 3|{REFUTED}")?;
    let same = found.as_str() == wanted.as_str();
    assert!(rt; same, "{found}");
    Ok(())
}

/// A delay, the lines of a plan, two points, and the first line of what is printed of the deadline
/// between them.
const ROWS: &str = "0 point A|point C|point D|bound b1 D C 4|link A 3 8 C => A C => 8
0 point A|point C|point D|bound b1 D C 4|link A 3 8 C => D D => 0
0 point A|point C|point D|bound b1 D C 4|link A 3 8 C => C A => -3
0 point A|point C|point D|bound b1 D C 4|link A 3 8 C => D C => at-most
0 point A|point C|point D|bound b1 D C 0|link A 3 8 C => C D => 0
3 point A|point C|point D|bound b1 D C 0|link A 3 8 C => C D => 3
3 point A|point C|point D|bound b1 D C 0|link A 3 8 C => A D => 8
0 point A|point B => A B => at-most
0 point A|point B|point C|bound p B A -1000000000|bound q C B -1 => A C => none
0 point A|point B|point C|bound p B A -1000000000|bound q C B -1 => A B => 1000000000
0 point A|point B|bound p A B -1000000000 => A B => at-most
0 point A|point B|bound p A B -999999999|bound q B A 999999999 => A B => -999999999
0 point A|point C|point D|bound b1 D C 1|bound b2 C D -1|link A 3 8 C => A D => not controllable";

fn try_row<R: Threads + Sync + Abort>(rt: &R, alloc: Global, row: &str) -> Result<(), Fail> {
    let mut parts = row.split(" => ");
    let (Some(plan), Some(ends), Some(wanted)) = (parts.next(), parts.next(), parts.next()) else {
        return Err(Fail::from("no row"));
    };
    let (Some((delay, lines)), Some(ends)) = (plan.split_once(' '), ends.split_once(' ')) else {
        return Err(Fail::from("no row"));
    };
    let delay: Weight = if delay == "3" { 3 } else { 0 };
    let found = answer_text(rt, alloc, network_with_delay(alloc, lines, delay)?, ends)?;
    let first = found.as_str().split('|').next();
    let same = first == Some(wanted);
    assert!(rt; same, "{row}: {found}");
    Ok(())
}

#[test]
fn deadlines_of_plans(rt: HostRuntime) -> Result<(), Fail> {
    for row in ROWS.split('\n') {
        try_row(&rt, rt.alloc(), row)?;
    }
    Ok(())
}
