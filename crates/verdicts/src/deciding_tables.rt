//! Tables that decide whether a network without a delay is controllable: a forward closed one, and
//! its closure, which is larger.

ghost use Rattle.std.specs.Prelude.{◌≡◌, IfOk};
ghost use Rattle.net_model.specs.Network.{Plan};
ghost use Rattle.dispatch_net.specs.Dispatchable.{IsDispatchBy};
ghost use Rattle.verdicts.specs.Decisions.{IsDecidedBy, IsOrderedClosure, IsOrderedForwardTable};

use dispatch_net::Dispatch;
use forward_closure::{ForwardClosed, close_forward};
use longest_case::is_excluded_at_longest;
use net_model::Network;
use network_closure::Closed;
use parallel_rounds::Workers;
use std::alloc::{AllocError, Global};
use std::thread::Threads;

/// A table with an order, of a network without a delay, that decides whether the network is
/// controllable.
pub trait DecidingTable: Drop {
    /// What is so of the table of a controllable network.
    ghost decides: { Plan → Self → Type 0 };
}

impl DecidingTable for ForwardClosed {
    ghost decides = { IsOrderedForwardTable };
}

impl DecidingTable for Closed {
    ghost decides = { IsOrderedClosure };
}

/// A forward closed table of a network without a delay, with its order, exactly if the network is
/// controllable. A network that is excluded already if every link takes its longest duration is
/// refused before a table is closed. The workers test the table. `AllocError` comes only if memory
/// is refused.
pub fn forward_table_if_controllable<R: Threads + Sync, G>(
    workers: &Workers<'_, R, G>,
    net: &Network,
) -> Result<Option<ForwardClosed>, AllocError>
    requires no_delay { net.now.delay ≡ 0 }
    ensures { IfOk result (IsDecidedBy IsOrderedForwardTable net.now) }
{
    let alloc = workers.alloc();
    if is_excluded_at_longest(alloc, net)? {
        return Ok(None);
    }
    close_forward(workers.rt(), alloc, net, workers.count())
}

/// The dispatchable network of a controllable network by a forward closed table of it. `AllocError`
/// comes only if memory is refused.
pub fn dispatch_by(
    alloc: Global,
    net: &Network,
    closed: &ForwardClosed,
) -> Result<Dispatch, AllocError>
    requires { IsOrderedForwardTable net.now closed.now }
    ensures { IfOk result (IsDispatchBy net.now closed.now.table) }
{
    Dispatch::of(alloc, net, &closed.table, closed.order.as_slice())
}
