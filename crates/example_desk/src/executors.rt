//! The executor of a network that is dispatched by its closure.

ghost use Rattle.std.specs.Prelude.{◌≡◌, IfOk};
ghost use Rattle.sensor_desk.specs.Follower.{IsExecutionFor};
ghost use Rattle.network_closure.specs.Saturation.{IsClosedBy};

use dispatch_net::Dispatch;
use live_executor::Executor;
use net_model::Network;
use network_closure::{Closed, close};
use std::alloc::{AllocError, Global};
use std::test::Fail;
use std::thread::Threads;

/// The executor of a network without a delay, at its start.
pub(crate) fn start(
    rt: &(impl Threads + Sync),
    alloc: Global,
    net: &Network,
) -> Result<Executor, Fail>
    requires { net.now.delay ≡ 0 }
    ensures { IfOk result (IsExecutionFor net.now) }
{
    match close(rt, alloc, net, 1)? {
        Some(closed) => Ok(executor_by(alloc, net, &closed)?),
        None => Err(Fail::from("not controllable")),
    }
}

/// The executor of a network by its closed table.
fn executor_by(alloc: Global, net: &Network, closed: &Closed) -> Result<Executor, AllocError>
    requires no_delay { net.now.delay ≡ 0 }
    requires closed { IsClosedBy net.now closed.now }
    ensures { IfOk result (IsExecutionFor net.now) }
{
    net.sound();
    let dispatch = Dispatch::of(alloc, net, &closed.table, closed.order.as_slice())?;
    Executor::start(alloc, net, dispatch)
}
