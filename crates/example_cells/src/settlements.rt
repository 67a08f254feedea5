//! What the cells of small networks settle to.

ghost use Rattle.std.specs.Prelude.{◌≤◌};
ghost use Rattle.closure_model.specs.Tables.{IsFor};

use crate::gates::{CallCounter, FirstTargets};
use cell_table::{NoCellGate, Settled, close_by_cells, fits, settle};
use example_plans::{Meeting, network};
use net_model::{Network, PointId};
use network_closure::{Closed, close};
use situation_player::forge;
use std::alloc::Global;
use std::test::Fail;
use std::thread::Threads;

/// A row to a network: its points, bounds and links. The second has a loop at its first point, two
/// others a cycle.
const PLANS: [&str; 7] = [
    "point A|point C|point D|bound b1 D C 4|link A 3 8 C",
    "point A|point C|point D|bound b1 D C 1|bound b2 C D -1|link A 3 8 C",
    "point A1|point C1|point A2|point C2|bound w A1 A2 0|link A1 1 4 C1|link A2 2 6 C2|bound x C1 C2 9",
    "point A|point B|bound e1 B A -2|bound e2 A B 1",
    "point A",
    "point A|point B|link A 1 2 B|link B 1 2 A",
    "point A1|point C1|point A2|point C2|bound p A1 C2 2|bound q A2 C1 2|link A1 1 10 C1|link A2 1 10 C2",
];

/// A plan of ten points.
const TEN: &str =
    "point a|point b|point c|point d|point e|point f|point g|point h|point i|point j|bound early b a -2|bound late a b 9|link c 2 5 d|bound after e d -1";

/// A plan of three points, of which one sweep makes the closure.
const THREE: &str = "point a|point b|point c|bound ab b a -1|bound bc c b -1";

/// Whether a network closes by shared cells and so many workers as it closes without them.
fn closes_as_without<R: Threads + Sync>(
    rt: &R,
    alloc: Global,
    net: &Network,
    workers: u32,
) -> Result<bool, Fail>
    requires { (1 ≤ workers) × (workers ≤ 64) }
{
    if !fits(net) {
        return Ok(false);
    }
    match (
        close_by_cells(rt, alloc, net, workers)?,
        close(rt, alloc, net, 1)?,
    ) {
        (None, None) => Ok(true),
        (Some(one), Some(other)) => are_same(alloc, net, &one, &other),
        _ => Ok(false),
    }
}

/// Whether two closed tables of a network and their orders are the same.
fn are_same(alloc: Global, net: &Network, one: &Closed, other: &Closed) -> Result<bool, Fail>
    requires one { IsFor net.now one.now.table }
    requires other { IsFor net.now other.now.table }
{
    for point in 0..net.points().len() as u32 {
        let row = one.table.row_into(alloc, PointId(point))?;
        let other_row = other.table.row_into(alloc, PointId(point))?;
        if row.as_slice() != other_row.as_slice() {
            return Ok(false);
        }
    }
    Ok(one.order.as_slice() == other.order.as_slice())
}

/// Whether each of so many workers begins a target before any of them goes over its own.
fn meet<R: Threads + Sync>(rt: &R, alloc: Global, net: &Network, workers: u32) -> Result<bool, Fail>
    requires { (1 ≤ workers) × (workers ≤ 64) }
{
    let gate = FirstTargets(Meeting::of(workers as u64));
    settle(rt, alloc, net, workers, &gate)?;
    let targets = net.points().len() as u64;
    Ok(gate.0.met().is_some_and(|begun| begun >= targets))
}

/// How many targets the sweeps of a network go over until it is settled.
fn swept_count<R: Threads + Sync>(
    rt: &R,
    alloc: Global,
    net: &Network,
    workers: u32,
) -> Result<u64, Fail>
    requires { (1 ≤ workers) × (workers ≤ 64) }
{
    let counter = CallCounter::new();
    settle(rt, alloc, net, workers, &counter)?;
    Ok(counter.calls())
}

/// Whether a network settles to a cycle of its first point alone.
fn loops_at_the_first<R: Threads + Sync>(
    rt: &R,
    alloc: Global,
    net: &Network,
) -> Result<bool, Fail> {
    match settle(rt, alloc, net, 2, &NoCellGate)? {
        Settled::Looped(cycle) => Ok(cycle.as_slice() == [PointId(0)].as_slice()),
        Settled::Closed(_) => Ok(false),
    }
}

#[test]
fn networks_close_as_without_cells(rt: HostRuntime) -> Result<(), Fail> {
    for plan in PLANS {
        let net = network(rt.alloc(), plan)?;
        for workers in [1, 2, 7, 64] {
            assert!(rt;
                closes_as_without(&rt, rt.alloc(), &net, workers)?,
                "{plan}"
            );
        }
    }
    Ok(())
}

#[test]
fn forged_networks_close_as_without_cells(rt: HostRuntime) -> Result<(), Fail> {
    for number in 0..100 {
        let net = forge(rt.alloc(), number, number % 6 + 1)?;
        for workers in [1, 2, 7] {
            assert!(rt;
                closes_as_without(&rt, rt.alloc(), &net, workers)?,
                "{number}"
            );
        }
    }
    Ok(())
}

#[test]
fn a_loop_is_found(rt: HostRuntime) -> Result<(), Fail> {
    let net = network(rt.alloc(), PLANS[1])?;
    assert!(rt; loops_at_the_first(&rt, rt.alloc(), &net)?);
    Ok(())
}

#[test]
fn workers_sweep_at_once(rt: HostRuntime) -> Result<(), Fail> {
    let net = network(rt.alloc(), TEN)?;
    for workers in [2, 7] {
        assert!(rt; meet(&rt, rt.alloc(), &net, workers)?, "{workers}");
    }
    Ok(())
}

/// A sweep that lowered nothing would be followed by another.
#[test]
fn one_sweep_closes_a_short_plan(rt: HostRuntime) -> Result<(), Fail> {
    let net = network(rt.alloc(), THREE)?;
    for workers in [1, 2] {
        assert_eq!(rt; swept_count(&rt, rt.alloc(), &net, workers)?, 3);
    }
    Ok(())
}
