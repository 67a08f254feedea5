//! Laws about derivable edges, closed and forward closed tables and the closure, each the contract
//! of a function without parameters.

ghost use Rattle.closure_laws.specs.Laws.{DerivableAreTrue, DerivableCyclesExclude};
ghost use Rattle.closure_laws.specs.Laws.{ClosedTablesAreClosedLists, ClosuresAreClosedLists};
ghost use Rattle.closure_laws.specs.Laws.{ClosuresDecide, OrderedClosuresAreControllable};
ghost use Rattle.closure_laws.specs.Laws.{CyclesOfTablesExclude, StandingCyclesExclude};
ghost use Rattle.closure_laws.specs.Laws.{ClosuresDispatchEarliest};
ghost use Rattle.closure_laws.specs.ForwardLaws.{ClosedTablesAreForwardClosed};
ghost use Rattle.closure_laws.specs.ForwardLaws.{ClosuresAreForwardTables, DerivableAreCovered};
ghost use Rattle.closure_laws.specs.ForwardLaws.{ForwardClosedTablesAreLists};
ghost use Rattle.closure_laws.specs.ForwardLaws.{ForwardTablesAreForwardLists};
ghost use Rattle.closure_laws.specs.ForwardLaws.{ForwardTablesDispatchAlike};
ghost use Rattle.closure_laws.specs.ForwardLaws.{ForwardTablesDispatchEarliest};
ghost use Rattle.closure_laws.specs.ForwardLaws.{OrderedForwardTablesAreControllable};

/// Every derivable edge is true of every strategy that controls the network.
pub fn law_derivable_are_true()
    ensures { DerivableAreTrue }
{}

/// A cycle of negative ordinary edges that are derivable excludes every strategy that controls the
/// network.
pub fn law_derivable_cycles_exclude()
    ensures { DerivableCyclesExclude }
{}

/// The edges of a closed table of a network are a closed list.
pub fn law_closed_tables_are_closed_lists()
    ensures { ClosedTablesAreClosedLists }
{}

/// The edges of the closure of a network are a closed list.
pub fn law_closures_are_closed_lists()
    ensures { ClosuresAreClosedLists }
{}

/// A network is controllable exactly if its closure has no cycle of negative ordinary edges.
pub fn law_closures_decide()
    ensures { ClosuresDecide }
{}

/// A network whose closure has an order is controllable.
pub fn law_ordered_closures_are_controllable()
    ensures { OrderedClosuresAreControllable }
{}

/// A network is not controllable if a table of derivable edges, closed or not, has a cycle of
/// negative ordinary edges.
pub fn law_cycles_of_tables_exclude()
    ensures { CyclesOfTablesExclude }
{}

/// A network is not controllable if a table that stands on it with its derivation list has a cycle,
/// whatever led to the list.
pub fn law_standing_cycles_exclude()
    ensures { StandingCyclesExclude }
{}

/// If the closure of a network has an order, a schedule is the earliest of a situation exactly if
/// it is that of the lower bounds and waits of the closure.
pub fn law_closures_dispatch_earliest()
    ensures { ClosuresDispatchEarliest }
{}

/// A closed table is forward closed.
pub fn law_closed_tables_are_forward_closed()
    ensures { ClosedTablesAreForwardClosed }
{}

/// The closure of a network is a forward closed table of derivable edges.
pub fn law_closures_are_forward_tables()
    ensures { ClosuresAreForwardTables }
{}

/// The edges of a sound table that is forward closed are a forward closed list.
pub fn law_forward_closed_tables_are_lists()
    ensures { ForwardClosedTablesAreLists }
{}

/// The edges of a forward closed table of derivable edges are a forward closed list.
pub fn law_forward_tables_are_forward_lists()
    ensures { ForwardTablesAreForwardLists }
{}

/// A network that has a forward closed table of derivable edges with an order is controllable.
pub fn law_ordered_forward_tables_are_controllable()
    ensures { OrderedForwardTablesAreControllable }
{}

/// If a forward closed table of derivable edges has an order, a schedule is the earliest of a
/// situation exactly if it is that of the lower bounds and waits of the table.
pub fn law_forward_tables_dispatch_earliest()
    ensures { ForwardTablesDispatchEarliest }
{}

/// Two such tables give the same schedules.
pub fn law_forward_tables_dispatch_alike()
    ensures { ForwardTablesDispatchAlike }
{}

/// Every derivable edge is covered by a forward closed list.
pub fn law_derivable_are_covered()
    ensures { DerivableAreCovered }
{}
