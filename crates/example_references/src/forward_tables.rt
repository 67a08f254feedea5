//! How many edges a forward closed table has beside the closed one: a search that goes on from
//! first edges below 0 too decides the same, more slowly.

ghost use Rattle.std.specs.Prelude.{◌≡◌};
ghost use Rattle.closure_model.specs.Closure.{IsForwardTable};
ghost use Rattle.closure_model.specs.Tables.{IsFor};
ghost use Rattle.closure_laws.specs.Forward.{IsDispatchedForward};
ghost use Rattle.forward_closure.specs.Decision.{IsDecidedForward};

use crate::plans::network;
use forward_closure::close_forward;
use labelled_graph::Table;
use net_model::{Network, PointId};
use network_closure::close;
use std::alloc::Global;
use std::process::Abort;
use std::test::Fail;
use std::thread::Threads;

/// In a closed table of a chain each point has an edge to each point before it, in a forward closed
/// one only to the last of these. In both each but the last has one to the next point, and so one
/// to itself.
#[test]
fn forward_closed_tables_are_smaller(rt: HostRuntime) -> Result<(), Fail> {
    let parts = chain(rt.alloc(), 40)?;
    let net = network(rt.alloc(), parts.as_str())?.shown(rt.alloc())?;
    assert!(rt; closed_edges(&rt, rt.alloc(), &net)? == 20 * 39 + 2 * 39);
    assert!(rt; forward_edges(&rt, rt.alloc(), &net)? == 3 * 39);
    Ok(())
}

/// A chain of so many points, each of which comes 2 to 5 moments after the one before.
fn chain(alloc: Global, points: u32) -> Result<String, Fail> {
    let mut lines = String::new(alloc);
    lines.push_str("point p0")?;
    for number in 1..points {
        let before = number.saturating_sub(1);
        write!(
            lines,
            "|point p{number}|bound a{number} p{before} p{number} 5|bound b{number} p{number} p{before} -2"
        )?;
    }
    Ok(lines)
}

/// How many edges the closed table of a network has; 0 if there is none.
fn closed_edges<R: Threads + Sync>(rt: &R, alloc: Global, net: &Network) -> Result<usize, Fail> {
    match close(rt, alloc, net, 1)? {
        Some(closed) => Ok(edges(net, &closed.table)),
        None => Ok(0),
    }
}

/// How many the forward closed table of a network without a delay has; 0 if there is none.
fn forward_edges<R: Threads + Sync>(rt: &R, alloc: Global, net: &Network) -> Result<usize, Fail>
    requires no_delay { net.now.delay ≡ 0 }
{
    match close_forward(rt, alloc, net, 1)? {
        Some(closed) => Ok(edges(net, &closed.table)),
        None => Ok(0),
    }
}

fn edges(net: &Network, table: &Table) -> usize
    requires table { IsFor net.now table.now }
{
    let mut count: usize = 0;
    for point in 0..net.points().len() as u32 {
        count = count.saturating_add(table.entries(PointId(point)).len());
    }
    count
}
