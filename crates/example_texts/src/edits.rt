//! Edits of a network, and what each makes of it.

use crate::rows::{cells, network, see_text};
use edit_script::{Step, read_step};
use net_model::{Bound, Edit, EditFault, Link, Name, NameFault, Network, User};
use std::alloc::{AllocError, Global};
use std::process::Abort;
use std::test::Fail;

/// The plan that each edit changes: nothing uses the point E.
const PLAN: &str =
    "stnu 1|point A|point E|point C|point D|bound b1 D C 1|bound b2 C D -1|link A 3 8 C|end";

/// An edit, and the points, bounds and links that it makes, or why it is refused.
const EDITS: &str = "\
add point b1 => A E C D b1; b1 3 2 1, b2 2 3 -1; 0 3 8 2
drop point E => A C D; b1 2 1 1, b2 1 2 -1; 0 3 8 1
add bound A A A -5 => A E C D; b1 3 2 1, b2 2 3 -1, A 0 0 -5; 0 3 8 2
drop bound b1 => A E C D; b2 2 3 -1; 0 3 8 2
set bound b1 -7 => A E C D; b1 3 2 -7, b2 2 3 -1; 0 3 8 2
add link C 1 1 D => A E C D; b1 3 2 1, b2 2 3 -1; 0 3 8 2, 2 1 1 3
drop link C => A E C D; b1 3 2 1, b2 2 3 -1; 
set link C 5 5 => A E C D; b1 3 2 1, b2 2 3 -1; 0 5 5 2
add point A => duplicate-name
drop point b1 => unknown-name
drop point C => still-used bound 0
drop point A => still-used link 0
add bound b1 x y 1 => duplicate-name
add bound b3 x C 1 => unknown-name
add bound b3 A x 1 => unknown-name
drop bound A => unknown-name
set bound b3 1 => unknown-name
add link x 1 2 D => unknown-name
add link A 1 2 x => unknown-name
add link C 1 2 C => link-to-itself
add link A 5 3 C => two-links-on-point
add link A 0 3 D => bad-interval
add link A 5 3 D => bad-interval
drop link A => unknown-name
drop link x => unknown-name
set link A 0 0 => unknown-name
set link C 0 3 => bad-interval
set link C 5 3 => bad-interval";

/// The names of points, with a blank between two.
fn push_points(text: &mut String, points: &[Name]) -> Result<(), AllocError> {
    let mut gap = "";
    for name in points {
        write!(text, "{gap}{name}")?;
        gap = " ";
    }
    Ok(())
}

fn push_bounds(text: &mut String, bounds: &[Bound]) -> Result<(), AllocError> {
    let mut gap = "; ";
    for b in bounds {
        write!(text, "{gap}{} {} {} {}", b.name, b.from.0, b.to.0, b.most)?;
        gap = ", ";
    }
    Ok(())
}

fn push_links(text: &mut String, links: &[Link]) -> Result<(), AllocError> {
    text.push_str("; ")?;
    let mut gap = "";
    for l in links {
        write!(text, "{gap}{} {} {} {}", l.from.0, l.low, l.high, l.to.0)?;
        gap = ", ";
    }
    Ok(())
}

/// The points, bounds and links of a network, each list after `; `.
fn push_network(text: &mut String, net: &Network) -> Result<(), AllocError> {
    push_points(text, net.points())?;
    push_bounds(text, net.bounds())?;
    push_links(text, net.links())
}

/// The points, bounds and links of a network as a text.
pub fn network_text(alloc: Global, net: &Network) -> Result<String, AllocError> {
    let mut text = String::new(alloc);
    push_network(&mut text, net)?;
    Ok(text)
}

fn push_fault(text: &mut String, fault: EditFault) -> Result<(), AllocError> {
    write!(text, "{fault}")?;
    match fault {
        EditFault::StillUsed(User::Bound(id)) => write!(text, " bound {}", id.0),
        EditFault::StillUsed(User::Link(id)) => write!(text, " link {}", id.0),
        EditFault::Limit(which) => write!(text, " {}", which.word()),
        _ => Ok(()),
    }
}

/// What an edit makes of a network, or why it is refused.
fn push_answer(
    alloc: Global,
    net: &Network,
    edit: &Edit,
    text: &mut String,
) -> Result<(), AllocError> {
    match net.apply(alloc, edit) {
        Ok(new) => push_network(text, &new),
        Err(fault) => push_fault(text, fault),
    }
}

/// The edit of a line.
pub fn edit_of(line: &str) -> Option<Edit> {
    match read_step(line.as_bytes()) {
        Ok(Step::Edit(edit)) => Some(edit),
        _ => None,
    }
}

fn try_edit(rt: &impl Abort, alloc: Global, net: &Network, row: &str) -> Result<(), Fail> {
    let (line, wanted) = cells(row).ok_or("a row")?;
    let edit = edit_of(line).ok_or("an edit")?;
    let mut result_text = String::new(alloc);
    push_answer(alloc, net, &edit, &mut result_text)?;
    see_text(rt, result_text.as_str(), wanted, line);
    Ok(())
}

fn try_edits(rt: &impl Abort, alloc: Global, net: &Network) -> Result<(), Fail> {
    for row in EDITS.split('\n') {
        try_edit(rt, alloc, net, row)?;
    }
    Ok(())
}

#[test]
fn edits(rt: HostRuntime) -> Result<(), Fail> {
    let net = network(rt.alloc(), PLAN)?;
    try_edits(&rt, rt.alloc(), &net)
}

/// Edits with a number beyond its limit, which no line states: of a new bound c and a new link to
/// A, and of b and the link to C.
fn too_great() -> Result<[Edit; 4], NameFault> {
    let (b, c) = (Name::new(b"b")?, Name::new(b"C")?);
    let a = Name::new(b"A")?;
    Ok([
        Edit::AddBound(c, a, c, 1_000_000_001),
        Edit::SetBound(b, -1_000_000_001),
        Edit::AddLink(c, 1, 1_000_000_001, a),
        Edit::SetLink(c, 1, 1_000_000_001),
    ])
}

fn try_number(rt: &impl Abort, alloc: Global, net: &Network, edit: &Edit) -> Result<(), Fail> {
    let mut result_text = String::new(alloc);
    push_answer(alloc, net, edit, &mut result_text)?;
    assert_eq!(rt; result_text.as_str(), "limit number", "{edit:?}");
    Ok(())
}

fn try_numbers(rt: &impl Abort, alloc: Global, net: &Network) -> Result<(), Fail> {
    for edit in too_great()? {
        try_number(rt, alloc, net, &edit)?;
    }
    Ok(())
}

#[test]
fn numbers_beyond_their_limit(rt: HostRuntime) -> Result<(), Fail> {
    let net = network(
        rt.alloc(),
        "stnu 1|point A|point C|bound b A C 1|link A 1 2 C|end",
    )?;
    try_numbers(&rt, rt.alloc(), &net)
}
