//! How many numbers a search tries, counted by its gate.

use crate::deadline_text::printed_between;
use example_plans::network;
use parallel_rounds::Gate;
use std::alloc::Global;
use std::process::Abort;
use std::sync::atomic::{AtomicU64, Ordering};
use std::test::Fail;
use std::thread::Threads;

/// Counts how often it is called with the second point, and how often with another.
#[derive(Drop)]
struct CallCounter {
    second: AtomicU64,
    other: AtomicU64,
}

impl Gate for CallCounter {
    fn before(&self, target: u32) {
        if target == 1 {
            self.second.fetch_add(1, Ordering::SeqCst);
        } else {
            self.other.fetch_add(1, Ordering::SeqCst);
        }
    }
}

/// How often the gate is called in a search between two points of a plan: with the second point,
/// and with another.
fn calls<R: Threads + Sync>(
    rt: &R,
    alloc: Global,
    lines: &str,
    ends: (&str, &str),
) -> Result<(u64, u64), Fail> {
    let gate = CallCounter {
        second: AtomicU64::new(0),
        other: AtomicU64::new(0),
    };
    let _ = printed_between(rt, alloc, network(alloc, lines)?, ends, 1, &gate)?;
    Ok((
        gate.second.load(Ordering::SeqCst),
        gate.other.load(Ordering::SeqCst),
    ))
}

/// If nothing delays a point only the lowest number is tried, and the gate is told its point.
#[test]
fn floor_is_tried_at_once(rt: HostRuntime) -> Result<(), Fail> {
    let (second, other) = calls(&rt, rt.alloc(), "point A|point B", ("A", "B"))?;
    assert!(rt; second == 1 && other == 0, "{second} {other}");
    Ok(())
}

/// If a bound limits how soon a point may come, that number and the one below are tried, and the
/// rows of one round, one for each point, refute the latter.
#[test]
fn bound_is_tried_at_once(rt: HostRuntime) -> Result<(), Fail> {
    let (second, other) = calls(
        &rt,
        rt.alloc(),
        "point A|point B|bound b B A -700",
        ("A", "B"),
    )?;
    assert!(rt; second == 3 && other == 1, "{second} {other}");
    Ok(())
}

/// If the least number is far above the guess, which takes each duration for the longest, the steps
/// to it double: the 999 numbers between are not all tried.
#[test]
fn far_number_is_reached_by_doubled_steps(rt: HostRuntime) -> Result<(), Fail> {
    let (second, _) = calls(
        &rt,
        rt.alloc(),
        "point C|point A|link A 1 1000 C",
        ("C", "A"),
    )?;
    assert!(rt; second < 100, "{second}");
    Ok(())
}
