//! The closing without rounds compared with the rounds: the same verdict, table and order.

ghost use Rattle.std.specs.Prelude.{◌≤◌};
ghost use Rattle.closure_model.specs.Tables.{IsFor};

use labelled_graph::Table;
use net_model::{Network, PointId};
use network_closure::close;
use parallel_rounds::Outcome;
use std::alloc::Global;
use std::test::Fail;
use std::thread::Threads;

/// Whether a network is closed by so many workers as its rounds ended: to their table and order, or
/// to none if they ended in a cycle.
pub(crate) fn closes_as<R: Threads + Sync>(
    rt: &R,
    alloc: Global,
    net: &Network,
    workers: u32,
    outcome: &Outcome,
    table: &Table,
) -> Result<bool, Fail>
    requires table { IsFor net.now table.now }
    requires workers { 1 ≤ workers }
{
    match (close(rt, alloc, net, workers)?, outcome) {
        (None, Outcome::Looped { .. }) => Ok(true),
        (Some(closed), Outcome::Closed { rounds: _, order }) => {
            let same = are_same(alloc, net, &closed.table, table)?;
            Ok(same && closed.order.as_slice() == order.as_slice())
        }
        _ => Ok(false),
    }
}

/// Whether two tables have the same edges.
fn are_same(alloc: Global, net: &Network, one: &Table, other: &Table) -> Result<bool, Fail>
    requires one { IsFor net.now one.now }
    requires other { IsFor net.now other.now }
{
    for point in 0..net.points().len() as u32 {
        let row = one.row_into(alloc, PointId(point))?;
        let other_row = other.row_into(alloc, PointId(point))?;
        if row.as_slice() != other_row.as_slice() {
            return Ok(false);
        }
    }
    Ok(true)
}
