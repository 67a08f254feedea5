//! The executor of a network that is dispatched by its closure.

ghost use Rattle.std.specs.Prelude.{◌≡◌, ◌<◌, length, IfOk, true};
ghost use Rattle.std.specs.List.{All};
ghost use Rattle.live_executor.specs.Sound.{IsDispatchOf};

use crate::slow_executor::SlowExecutor;
use derivation_dag::{Plain, Supports};
use dispatch_net::Dispatch;
use execution_model::{Act, Fed, Finished};
use live_executor::Executor;
use net_model::{Network, PointId};
use parallel_rounds::{NoGate, Outcome, propagate};
use std::alloc::Global;
use std::test::Fail;
use std::thread::Threads;

/// The dispatchable network of the closure of a network without a delay.
fn dispatch(rt: &(impl Threads + Sync), alloc: Global, net: &Network) -> Result<Dispatch, Fail>
    ensures dispatched { IfOk result (IsDispatchOf net.now) }
    ensures whole { IfOk result (λ dispatch. length dispatch.made ≡ length net.now.points) }
    ensures kept { IfOk result (λ dispatch. length dispatch.kept ≡ length net.now.points) }
{
    if net.delay() != 0 {
        return Err(Fail::from("a delay"));
    }
    let mut store = Plain::of(alloc, net)?;
    let _points = net.points();
    let Outcome::Closed { rounds: _, order } = propagate(rt, alloc, net, &mut store, 1, &NoGate)?
    else {
        return Err(Fail::from("not controllable"));
    };
    let dispatch = Dispatch::of(alloc, net, store.table(), order.as_slice())?;
    Ok(dispatch)
}

/// The slow executor of a network.
pub(crate) fn slow(
    rt: &(impl Threads + Sync),
    alloc: Global,
    net: &Network,
) -> Result<SlowExecutor, Fail> {
    let dispatch = dispatch(rt, alloc, net)?;
    SlowExecutor::start(alloc, net, dispatch)
}

/// A dispatchable network of a network, without the lower bounds and waits that others imply.
fn slim(net: &Network, whole: Dispatch) -> Dispatch
    requires of { IsDispatchOf net.now whole }
    ensures dispatched { IsDispatchOf net.now result }
    ensures made { result.made ≡ whole.made }
{
    whole.slim()
}

/// The executor on slim lists, and how many points it has.
#[derive(Drop)]
pub(crate) struct Live {
    executor: Executor,
    points: u32,
    ghost whole: { points ≡ length executor.setting.dispatch },
}

impl Live {
    pub(crate) fn start(
        rt: &(impl Threads + Sync),
        alloc: Global,
        net: &Network,
    ) -> Result<Live, Fail> {
        let dispatch = slim(net, dispatch(rt, alloc, net)?);
        let points = net.points().len() as u32;
        let executor = Executor::start(alloc, net, dispatch)?;
        Ok(Live { executor, points })
    }

    pub(crate) fn feed(&mut self, moment: u64, listed: &[PointId]) -> Result<Fed, Fail> {
        if !are_below(listed, self.points) {
            return Err(Fail::from("no point"));
        }
        Ok(self.executor.feed(moment, listed))
    }

    pub(crate) fn finish(&mut self) -> Finished {
        self.executor.finish()
    }

    pub(crate) fn acts(&self) -> &[Act] {
        self.executor.acts()
    }

    pub(crate) fn next_due(&self) -> Option<u64> {
        self.executor.next_due()
    }

    /// The moment of a point, or `None` for one that the network doesn't have.
    pub(crate) fn moment_of(&self, point: PointId) -> Option<u64> {
        if point.0 < self.points {
            self.executor.moment_of(point)
        } else {
            None
        }
    }
}

/// Whether the numbers of points are below this one.
fn are_below(points: &[PointId], count: u32) -> bool
    ensures { result ≡ true → All (λ point. point.0 < count) points.now }
{
    points.iter().all(|point| point.0 < count)
}
