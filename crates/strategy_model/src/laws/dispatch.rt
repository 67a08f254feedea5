//! Laws about closed and forward closed lists of edges, the schedules of lower bounds and waits that
//! they give, and what trees play.

ghost use Rattle.strategy_model.specs.DispatchLaws.{ClosedListsAreForwardClosed};
ghost use Rattle.strategy_model.specs.DispatchLaws.{ForwardListsGiveStrategies, DispatchedSatisfy};
ghost use Rattle.strategy_model.specs.DispatchLaws.{DispatchedExist, DispatchedAreOne};
ghost use Rattle.strategy_model.specs.DispatchLaws.{DispatchedComeOnceFree, DispatchedSeeAlone};
ghost use Rattle.strategy_model.specs.DispatchLaws.{DispatchedAreEarliest};
ghost use Rattle.strategy_model.specs.DispatchLaws.{DynamicStrategiesAreTrees, TreesAreDynamic};
ghost use Rattle.strategy_model.specs.DispatchLaws.{ClosedListsHaveOrders, ClosedListsDecide};
ghost use Rattle.strategy_model.specs.DispatchLaws.{EarliestSeeAlone};

/// A closed list of edges is forward closed, so what is said here of forward closed lists is said of
/// it.
pub fn law_closed_lists_are_forward_closed()
    ensures { ClosedListsAreForwardClosed }
{}

/// A forward closed list of edges with an order gives a strategy that controls the network and plays
/// the schedule of lower bounds and waits in every situation.
pub fn law_forward_lists_give_strategies()
    ensures { ForwardListsGiveStrategies }
{}

/// The schedule of lower bounds and waits of a forward closed list satisfies the network.
pub fn law_dispatched_satisfy()
    ensures { DispatchedSatisfy }
{}

/// A forward closed list of edges with an order has a schedule of lower bounds and waits in every
/// situation.
pub fn law_dispatched_exist()
    ensures { DispatchedExist }
{}

/// A forward closed list of edges with an order has one schedule of lower bounds and waits in a
/// situation and no other.
pub fn law_dispatched_are_one()
    ensures { DispatchedAreOne }
{}

/// In the schedule of lower bounds and waits an executable point has come by a moment exactly if no
/// edge holds it back beyond that moment.
pub fn law_dispatched_come_once_free()
    ensures { DispatchedComeOnceFree }
{}

/// What the schedule of lower bounds and waits executes up to a moment depends on the completions
/// up to it alone.
pub fn law_dispatched_see_alone()
    ensures { DispatchedSeeAlone }
{}

/// If the edges of the list are true of every strategy that controls the network, the schedule of
/// lower bounds and waits is the earliest.
pub fn law_dispatched_are_earliest()
    ensures { DispatchedAreEarliest }
{}

/// Every dynamic execution strategy is what some tree plays.
pub fn law_dynamic_strategies_are_trees()
    ensures { DynamicStrategiesAreTrees }
{}

/// What a tree plays in every situation is a dynamic execution strategy.
pub fn law_trees_are_dynamic()
    ensures { TreesAreDynamic }
{}

/// A closed list of edges without a cycle of negative ordinary edges has an order.
pub fn law_closed_lists_have_orders()
    ensures { ClosedListsHaveOrders }
{}

/// A closed list of edges that are true of every strategy that controls the network decides whether
/// the network is controllable: it is exactly if the list has no cycle of negative ordinary edges.
pub fn law_closed_lists_decide()
    ensures { ClosedListsDecide }
{}

/// What the earliest schedules execute up to a moment depends on what is completed up to it alone.
pub fn law_earliest_see_alone()
    ensures { EarliestSeeAlone }
{}
