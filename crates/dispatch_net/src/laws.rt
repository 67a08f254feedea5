//! Laws about the dispatchable network of a table and its executions, each the contract of a
//! function without parameters.

ghost use Rattle.dispatch_net.specs.Laws.{ListsAreExact, ExecutionsAreDispatched};
ghost use Rattle.dispatch_net.specs.Laws.{ExecutionsSatisfy, ExecutionsArePlayed};
ghost use Rattle.dispatch_net.specs.Laws.{ForwardTablesMayDispatch, ClosuresMayDispatch};
ghost use Rattle.dispatch_net.specs.Laws.{ForwardTablesExecuteEarliest};
ghost use Rattle.dispatch_net.specs.Laws.{SlimExecutionsAreTheSame, SlimStaysSlim};

/// The lower bounds and waits of an executable point are exactly the negative edges that the table
/// has from it, each once and in order of number. A contingent point has none.
pub fn law_lists_are_exact()
    ensures { ListsAreExact }
{}

/// The executions of the dispatchable network of a table are the schedules of lower bounds and
/// waits of the table's edges. So what the laws of strategy_model say of those holds of these.
pub fn law_executions_are_dispatched()
    ensures { ExecutionsAreDispatched }
{}

/// If reaction is instantaneous, the dispatchable network of a forward closed table with an order
/// has an execution in every situation, and each satisfies the network.
pub fn law_executions_satisfy()
    ensures { ExecutionsSatisfy }
{}

/// If reaction is instantaneous, a strategy that controls the network plays the execution of that
/// dispatchable network in every situation.
pub fn law_executions_are_played()
    ensures { ExecutionsArePlayed }
{}

/// A network may be dispatched by a forward closed table of its derivable edges, in an order of it.
pub fn law_forward_tables_may_dispatch()
    ensures { ForwardTablesMayDispatch }
{}

/// A network may be dispatched by its closure, in an order of it.
pub fn law_closures_may_dispatch()
    ensures { ClosuresMayDispatch }
{}

/// If reaction is instantaneous, and a network is dispatched by a forward closed table of its
/// derivable edges, a schedule is the earliest of a situation exactly if it is the execution.
pub fn law_forward_tables_execute_earliest()
    ensures { ForwardTablesExecuteEarliest }
{}

/// The executions by the lists of a forward closed table with an order, without the lower bounds and waits
/// that others imply, are the executions by the whole lists.
pub fn law_slim_executions_are_the_same()
    ensures { SlimExecutionsAreTheSame }
{}

/// No lower bound or wait that is left is implied by others that are left.
pub fn law_slim_stays_slim()
    ensures { SlimStaysSlim }
{}
