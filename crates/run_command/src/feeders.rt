//! The feeders of an execution, as words say them.

ghost use Rattle.std.specs.Prelude.{◌≡◌, option_map, IfOk};
ghost use Rattle.command_engine.specs.Machine.{HasCapacity};
ghost use Rattle.forward_executor.specs.ForwardExecutions.{IsForwardDispatch};
ghost use Rattle.event_phase.specs.ExecutionStart.{BeginsExecutionBy};
ghost use Rattle.event_phase.specs.EventPhase.{executing_machine};
ghost use Rattle.run_command.specs.RunCommand.{completion_order_given};

use command_contracts::count_within;
use command_engine::{Answer, Flow};
use dispatch_net::Dispatch;
use event_phase::{Executing, begin_with_feeders};
use net_model::Network;
use std::alloc::{AllocError, Global};
use std::marker::Model;

/// How many feeders there may be.
const MOST_FEEDERS: u32 = 64;

/// How many feeders, from 1 to 64, post the completions of a line, or none. Contracts see the order
/// in which the points of a line are passed to the execution; how many feeders there are decides
/// nothing of it.
#[derive(Drop)]
pub(crate) struct Feeders {
    count: Option<u32>,
}

impl Model for Feeders {
    ghost use Rattle.std.specs.Prelude.{◌≤◌, IfSome};
    ghost use Rattle.desk_feeding.specs.Fed.{most_feeders};
    ghost use Rattle.event_phase.specs.CompletionOrders.{CompletionOrder, completion_order_where};

    ghost Value = { CompletionOrder };

    ghost view = { λ feeders. completion_order_where feeders.count };

    ghost invariant = { λ feeders. IfSome feeders.count (λ count. (1 ≤ count)
        × (count ≤ most_feeders)) };
}

impl Feeders {
    /// So many feeders as the value of the option `--feeders` says, or none if it is not given;
    /// `None` if the value is no number from 1 to 64.
    pub(crate) fn of(value: Option<&str>) -> Option<Feeders>
        ensures { result ≡ completion_order_given (option_map (λ text. text.now) value.entry) }
    {
        match value {
            None => Some(Feeders { count: None }),
            Some(word) => {
                let count = count_within(word.as_bytes(), MOST_FEEDERS)?;
                Some(Feeders { count: Some(count) })
            }
        }
    }

    /// Begins the execution of a controllable network without a delay, and puts that the network is
    /// controllable, and the first due moment, in place of what stood in the buffer. If there are
    /// feeders, their desk is made first. `AllocError` comes only for want of memory.
    pub(crate) fn begin(
        &self,
        alloc: Global,
        answer: &mut Answer,
        net: Network,
        dispatch: Dispatch,
    ) -> Result<Flow<Executing>, AllocError>
        requires dispatch { IsForwardDispatch net dispatch }
        ensures begins { IfOk result (BeginsExecutionBy self.now net answer.new.text) }
        ensures spare_capacity { IfOk result
            (λ flow. HasCapacity executing_machine flow answer.new.capacity) }
    {
        begin_with_feeders(alloc, answer, net, dispatch, self.count)
    }
}
