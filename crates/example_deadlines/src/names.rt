//! Plans with many bounds.

use crate::deadline_text::printed_between;
use example_plans::network;
use parallel_rounds::NoGate;
use std::alloc::Global;
use std::process::Abort;
use std::test::Fail;

/// The lines of a plan of two points with so many bounds.
fn with_bounds(alloc: Global, bounds: u32) -> Result<String, Fail> {
    let mut lines = String::new(alloc);
    lines.push_str("point A|point B")?;
    for number in 0..bounds {
        lines.push_str(format!(in alloc; "|bound b{number} B A -1")?.as_str())?;
    }
    Ok(lines)
}

#[test]
fn full_plan_has_no_capacity(rt: HostRuntime) -> Result<(), Fail> {
    let alloc = rt.alloc();
    let lines = with_bounds(alloc, 20_000)?;
    let net = network(alloc, lines.as_str())?;
    let text = printed_between(&rt, alloc, net, ("A", "B"), 1, &NoGate)?;
    let full = text.as_slice() == b"full\n".as_slice();
    assert!(rt; full, "full");
    Ok(())
}

#[test]
fn last_bound_is_the_goal(rt: HostRuntime) -> Result<(), Fail> {
    let alloc = rt.alloc();
    let lines = with_bounds(alloc, 19_999)?;
    let net = network(alloc, lines.as_str())?;
    let text = printed_between(&rt, alloc, net, ("A", "B"), 1, &NoGate)?;
    let found = text.as_slice().starts_with(b"1\ncertificate 1\ntable\n");
    assert!(rt; found, "found");
    Ok(())
}
