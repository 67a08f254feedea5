//! Whether a network is controllable, by a forward closed table and its order.

ghost use Rattle.std.specs.Prelude.{◌≡◌, ◌≤◌, IfOk};
ghost use Rattle.strategy_model.specs.Plays.{IsInstant};
ghost use Rattle.forward_closure.specs.Decision.{IsDecidedForward, IsFound};

use crate::forward_test::is_forward_closed;
use crate::search::searched;
use closure_laws::laws::{
    law_closures_are_forward_tables, law_cycles_of_tables_exclude,
    law_ordered_forward_tables_are_controllable,
};
use labelled_graph::Table;
use loop_finder::{Found, order};
use net_model::{Items, Network, PointId};
use network_closure::close;
use std::alloc::{AllocError, Global};
use std::thread::Threads;

/// A forward closed table of a network, and an order of its points.
#[derive(Debug, Drop)]
pub struct ForwardClosed {
    /// Edges that are derivable, and among them whatever follows forward from them.
    pub table: Table,
    /// Each point once; each negative ordinary edge of the table goes from a later point to an
    /// earlier one.
    pub order: Items<PointId>,
}

/// A forward closed table of a network without a delay, and its order, exactly if some strategy
/// controls the network; `None` exactly if none does. A table is searched over sparse rows, and
/// then tested by so many workers, at least one; whether there is an answer does not depend on
/// their number. If the test found something left, the closure would be made: no clause says that
/// it never is. `AllocError` comes only for want of memory.
pub fn close_forward<R: Threads + Sync>(
    rt: &R,
    alloc: Global,
    net: &Network,
    workers: u32,
) -> Result<Option<ForwardClosed>, AllocError>
    requires some { 1 ≤ workers }
    requires no_delay { net.now.delay ≡ 0 }
    ensures { IfOk result (IsDecidedForward net.now) }
{
    law_cycles_of_tables_exclude();
    law_ordered_forward_tables_are_controllable();
    net.sound();
    let table = searched(alloc, net)?;
    match order(alloc, &table, net.points().len() as u32)? {
        Found::Cycle(_) => Ok(None),
        Found::Order(order) => tested(rt, alloc, net, workers, ForwardClosed { table, order }),
    }
}

/// A table with its order if it passes the test, else what the closure decides.
fn tested<R: Threads + Sync>(
    rt: &R,
    alloc: Global,
    net: &Network,
    workers: u32,
    found: ForwardClosed,
) -> Result<Option<ForwardClosed>, AllocError>
    requires some { 1 ≤ workers }
    requires instant { IsInstant net.now }
    requires found { IsFound net.now found }
    ensures { IfOk result (IsDecidedForward net.now) }
{
    law_ordered_forward_tables_are_controllable();
    if is_forward_closed(rt, alloc, &found.table, net, workers)? {
        return Ok(Some(found));
    }
    decided_by_closure(rt, alloc, net, workers)
}

/// The same by the closure.
fn decided_by_closure<R: Threads + Sync>(
    rt: &R,
    alloc: Global,
    net: &Network,
    workers: u32,
) -> Result<Option<ForwardClosed>, AllocError>
    requires some { 1 ≤ workers }
    requires instant { IsInstant net.now }
    ensures { IfOk result (IsDecidedForward net.now) }
{
    law_closures_are_forward_tables();
    law_cycles_of_tables_exclude();
    law_ordered_forward_tables_are_controllable();
    match close(rt, alloc, net, workers)? {
        None => Ok(None),
        Some(closed) => Ok(Some(ForwardClosed {
            table: closed.table,
            order: closed.order,
        })),
    }
}
