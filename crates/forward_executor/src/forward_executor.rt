//! The executor of a network by a forward closed table of it.

ghost use Rattle.std.specs.Prelude.{◌≡◌, ◌<◌, ◌≤◌, length, IfOk};
ghost use Rattle.std.specs.List.{All};
ghost use Rattle.canonical_closure.specs.CanonicalClosure.{canonical_closure};
ghost use Rattle.net_model.specs.Moments.{moment_of};
ghost use Rattle.execution_model.specs.Feeds.{started, IsFed, IsFinished, IsDueAnswer};
ghost use Rattle.execution_model.specs.Laws.{setting_of};
ghost use Rattle.forward_executor.specs.ForwardExecutions.{IsForwardDispatch, IsSlim};

use canonical_closure::laws::law_controllable_have_canonical_closures;
use closure_laws::laws::law_ordered_forward_tables_are_controllable;
use dispatch_net::Dispatch;
use execution_model::laws::law_forward_executions_are_alike;
use execution_model::{Act, Fed, Finished};
use live_executor::Executor;
use net_model::{Network, PointId};
use std::alloc::{AllocError, Global};
use std::marker::Model;
use std::snapshot::Snapshot;

/// An execution of a network, in which reaction is instantaneous, by the lower bounds and waits of
/// a forward closed table of it. Contracts see it as the execution by the closure of the network:
/// by either the moments, the acts, the refusals and the next due moments are the same
/// (`law_forward_executions_are_alike`). The closure is not made.
#[derive(Drop)]
pub struct ForwardExecutor {
    executor: Executor,
    net: Snapshot<Network>,
}

impl Model for ForwardExecutor {
    ghost use Rattle.execution_model.specs.Feeds.{Execution};
    ghost use Rattle.forward_executor.specs.ForwardExecutions.{by_closure, IsForwardExecution};

    ghost Value = { Execution };

    ghost view = { λ forward. by_closure forward.net.value forward.executor };

    ghost invariant = { λ forward. IsForwardExecution forward.net.value forward.executor };
}

impl ForwardExecutor {
    /// Starts an execution of a network on the dispatchable network of a forward closed table of
    /// it, a slim one, as `Dispatch::slim` makes it. No point has come, and nothing was fed. All
    /// memory that an execution needs is taken here. `AllocError` comes only if memory is refused.
    pub fn start(
        alloc: Global,
        net: &Network,
        dispatch: Dispatch,
    ) -> Result<ForwardExecutor, AllocError>
        requires dispatch { IsForwardDispatch net.now dispatch }
        requires slim { IsSlim dispatch }
        ensures started { IfOk result (λ forward. forward ≡ started
            (setting_of net.now (canonical_closure net.now))) }
        ensures size { IfOk result
            (λ forward. length forward.setting.dispatch ≡ length net.now.points) }
    {
        law_controllable_have_canonical_closures();
        law_ordered_forward_tables_are_controllable();
        let executor = Executor::start(alloc, net, dispatch)?;
        Ok(ForwardExecutor {
            executor,
            net: Snapshot::of(net),
        })
    }

    /// The acts of the last feed that was answered `Acts`, or of the end, as `Executor::acts`.
    pub fn acts(&self) -> &[Act]
        ensures value { result.now ≡ self.now.acts }
        ensures few { length self.now.acts ≤ length self.now.moments }
        ensures count { length self.now.moments ≡ length self.now.setting.dispatch }
    {
        self.executor.acts()
    }

    /// The moment at which a point was executed or has completed, or `None` if it has not.
    pub fn moment_of(&self, point: PointId) -> Option<u64>
        requires { point.0 < length self.now.setting.dispatch }
        ensures { result ≡ moment_of self.now.moments point }
    {
        self.executor.moment_of(point)
    }

    /// The next due moment, as `Executor::next_due`.
    pub fn next_due(&self) -> Option<u64>
        ensures { IsDueAnswer self.now result }
    {
        law_controllable_have_canonical_closures();
        law_ordered_forward_tables_are_controllable();
        law_forward_executions_are_alike();
        self.executor.next_due()
    }

    /// Feeds a moment, with the points that complete at it, as `Executor::feed`.
    pub fn feed(&mut self, moment: u64, completions: &[PointId]) -> Fed
        requires { All (λ point. point.0 < length self.old.setting.dispatch) completions.now }
        ensures fed { IsFed self.old moment completions.now result self.new }
    {
        law_controllable_have_canonical_closures();
        law_ordered_forward_tables_are_controllable();
        law_forward_executions_are_alike();
        self.executor.feed(moment, completions)
    }

    /// Ends the execution, as `Executor::finish`.
    pub fn finish(&mut self) -> Finished
        ensures finished { IsFinished self.old result self.new }
    {
        law_controllable_have_canonical_closures();
        law_ordered_forward_tables_are_controllable();
        law_forward_executions_are_alike();
        self.executor.finish()
    }
}
