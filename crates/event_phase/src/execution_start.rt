//! The start of an execution over lines of events.

ghost use Rattle.std.specs.Prelude.{◌≡◌, ◌≤◌, IfOk, OnOk, IfSome};
ghost use Rattle.desk_feeding.specs.Fed.{most_feeders};
ghost use Rattle.forward_executor.specs.ForwardExecutions.{IsForwardDispatch};
ghost use Rattle.command_engine.specs.Machine.{HasCapacity};
ghost use Rattle.event_phase.specs.ExecutionStart.{BeginsExecution, BeginsExecutionBy, PutsStart};
ghost use Rattle.event_phase.specs.EventPhase.{executing_machine, answer_capacity};
ghost use Rattle.event_phase.specs.CompletionOrders.{completion_order_where};

use crate::event_answers::put_due;
use crate::phase::Executing;
use canonical_closure::laws::law_controllable_have_canonical_closures;
use closure_laws::laws::law_ordered_forward_tables_are_controllable;
use command_engine::{Answer, Flow, Word};
use dispatch_net::Dispatch;
use dispatch_net::laws::law_slim_stays_slim;
use net_model::Network;
use std::alloc::{AllocError, Global};

/// Starts the execution of a controllable network without a delay by the dispatchable network of a
/// forward closed table, such as its closure, and prints that the network is controllable, and the
/// first due moment, in place of what stood in the buffer. `AllocError` comes only if memory is
/// refused.
pub fn begin_dispatched(
    alloc: Global,
    answer: &mut Answer,
    net: Network,
    dispatch: Dispatch,
) -> Result<Flow<Executing>, AllocError>
    requires dispatch { IsForwardDispatch net dispatch }
    ensures begins { IfOk result (BeginsExecution net answer.new.text) }
    ensures spare_capacity { IfOk result
        (λ flow. HasCapacity executing_machine flow answer.new.capacity) }
{
    begin_with_feeders(alloc, answer, net, dispatch, None)
}

/// Starts an execution as `begin_dispatched` does, but if there is a number of feeders, from 1 to
/// 64, it is fed from a desk: then the points of each line are fed to it in the order of their
/// numbers. How many feeders there are no clause shows. The desk and all that feeding from it needs
/// are made before anything is printed. `AllocError` comes only if memory is refused.
pub fn begin_with_feeders(
    alloc: Global,
    answer: &mut Answer,
    net: Network,
    dispatch: Dispatch,
    feeders: Option<u32>,
) -> Result<Flow<Executing>, AllocError>
    requires dispatch { IsForwardDispatch net dispatch }
    requires feeders { IfSome feeders (λ count. (1 ≤ count) × (count ≤ most_feeders)) }
    ensures begins { IfOk result (BeginsExecutionBy
        (completion_order_where feeders) net answer.new.text) }
    ensures spare_capacity { IfOk result
        (λ flow. HasCapacity executing_machine flow answer.new.capacity) }
{
    law_controllable_have_canonical_closures();
    law_ordered_forward_tables_are_controllable();
    law_slim_stays_slim();
    let state = Executing::start(alloc, net, dispatch.slim(), feeders)?;
    put_start(answer, &state)?;
    Ok(Flow::Continue(state))
}

/// Prints that a network is controllable, and the first due moment of its execution, in place of
/// what stood in the buffer, and reserves the capacity that the answers to events need.
fn put_start(answer: &mut Answer, state: &Executing) -> Result<(), AllocError>
    ensures put { OnOk result (PutsStart state.now.execution answer.new.text) }
    ensures spare_capacity { OnOk result (answer_capacity state.now.net ≤ answer.new.capacity) }
{
    answer.clear();
    state.reserve(answer)?;
    answer.put_line(&[Word::Text("controllable")]);
    put_due(answer, state.next_due());
    Ok(())
}
