//! Which rows are made in later rounds, and that the gate is called with their targets.

ghost use Rattle.std.specs.Prelude.{◌≡◌, length};
ghost use Rattle.std.specs.List.{All};
ghost use Rattle.net_model.specs.Network.{IsPoint};
ghost use Rattle.parallel_rounds.specs.Targets.{AreRisingPoints};
ghost use Rattle.closure_model.specs.ReferenceRow.{HasWeightsWithin};
ghost use Rattle.closure_model.specs.Tables.{IsFor};

use crate::gates::FirstRows;
use crate::networks::network;
use crate::workers::base;
use derivation_dag::Plain;
use example_plans::Meeting;
use labelled_graph::Table;
use net_model::{Network, PointId};
use parallel_rounds::{Gate, Outcome, propagate, round_of, stale};
use std::alloc::Global;
use std::process::Abort;
use std::sync::atomic::{AtomicU64, Ordering};
use std::test::Fail;
use std::thread::Threads;

/// The points A, C and D have the numbers 0, 1 and 2.
const PLAN: &str = "point A|point C|point D|bound b1 D C 1|bound b2 C D -1|link A 3 8 C";

/// Counts the calls for each of three targets.
#[derive(Drop)]
struct CallCounter {
    a: AtomicU64,
    c: AtomicU64,
    d: AtomicU64,
}

impl CallCounter {
    fn new() -> CallCounter {
        CallCounter {
            a: AtomicU64::new(0),
            c: AtomicU64::new(0),
            d: AtomicU64::new(0),
        }
    }

    /// Whether the gate was called so often for the three targets.
    fn was_called(&self, a: u64, c: u64, d: u64) -> bool {
        self.a.load(Ordering::SeqCst) == a
            && self.c.load(Ordering::SeqCst) == c
            && self.d.load(Ordering::SeqCst) == d
    }
}

impl Gate for CallCounter {
    fn before(&self, target: u32) {
        match target {
            0 => self.a.fetch_add(1, Ordering::SeqCst),
            1 => self.c.fetch_add(1, Ordering::SeqCst),
            _ => self.d.fetch_add(1, Ordering::SeqCst),
        };
    }
}

/// In the first round all rows are made, in the second the one of A alone.
fn try_propagation<R: Threads + Sync + Abort>(
    rt: &R,
    alloc: Global,
    net: &Network,
) -> Result<(), Fail> {
    let gate = CallCounter::new();
    let loops = loops_in_two(rt, alloc, net, &gate)?;
    assert!(rt; loops);
    assert!(rt; gate.was_called(2, 1, 1));
    Ok(())
}

/// Whether the rounds of a network end in a cycle after two.
fn loops_in_two<R: Threads + Sync>(
    rt: &R,
    alloc: Global,
    net: &Network,
    gate: &CallCounter,
) -> Result<bool, Fail> {
    let mut store = Plain::of(alloc, net)?;
    let outcome = propagate(rt, alloc, net, &mut store, 1, gate)?;
    Ok(matches!(
        outcome,
        Outcome::Looped {
            rounds: 2,
            cycle: _
        }
    ))
}

/// Negative edges go from C to A and to D, so these are stale after C; and the rows of these two
/// are made by two workers, the gate called with A and D.
fn try_stale<R: Threads + Sync + Abort>(
    rt: &R,
    alloc: Global,
    net: &Network,
    table: &Table,
) -> Result<(), Fail>
    requires fits { IsFor net.now table.now }
    requires within { HasWeightsWithin net.now table.now }
    requires three { length net.now.points ≡ 3 }
{
    let changed = [PointId(1)];
    let targets = stale(alloc, table, net, changed.as_slice())?;
    assert!(rt; targets.as_slice() == [PointId(0), PointId(2)].as_slice());
    try_calls(rt, alloc, net, table, targets.as_slice())?;
    try_meeting(rt, alloc, net, table, targets.as_slice())
}

/// The gate is called with A and D.
fn try_calls<R: Threads + Sync + Abort>(
    rt: &R,
    alloc: Global,
    net: &Network,
    table: &Table,
    targets: &[PointId],
) -> Result<(), Fail>
    requires fits { IsFor net.now table.now }
    requires within { HasWeightsWithin net.now table.now }
    requires points { All (IsPoint net.now) targets.now }
    requires rise { AreRisingPoints targets.now }
{
    let gate = CallCounter::new();
    let rows = round_of(rt, alloc, table, net, targets, 2, &gate)?;
    assert!(rt; rows.len() == 2 && gate.was_called(1, 0, 1));
    Ok(())
}

fn try_meeting<R: Threads + Sync + Abort>(
    rt: &R,
    alloc: Global,
    net: &Network,
    table: &Table,
    targets: &[PointId],
) -> Result<(), Fail>
    requires fits { IsFor net.now table.now }
    requires within { HasWeightsWithin net.now table.now }
    requires points { All (IsPoint net.now) targets.now }
    requires rise { AreRisingPoints targets.now }
{
    let gate = FirstRows(Meeting::of(2));
    round_of(rt, alloc, table, net, targets, 2, &gate)?;
    assert!(rt; gate.0.met() == Some(2), "two workers make rows at once");
    Ok(())
}

#[test]
fn later_rounds_make_stale_rows(rt: HostRuntime) -> Result<(), Fail> {
    let net = network(rt.alloc(), PLAN)?;
    try_propagation(&rt, rt.alloc(), &net)
}

#[test]
fn rows_of_stale_targets(rt: HostRuntime) -> Result<(), Fail> {
    let net = network(rt.alloc(), PLAN)?;
    try_three(&rt, rt.alloc(), &net)
}

fn try_three<R: Threads + Sync + Abort>(rt: &R, alloc: Global, net: &Network) -> Result<(), Fail> {
    if net.points().len() != 3 {
        return Err("the network has other points".into());
    }
    let table = base(alloc, net)?;
    try_stale(rt, alloc, net, &table)
}
