//! Laws about orders and cycles, each the contract of a function without parameters.

ghost use Rattle.closure_model.specs.OrderLaws.{PlacedPointsAreAnOrder, CyclesAreMet};
ghost use Rattle.closure_model.specs.OrderLaws.{OrdersExcludeCycles, OrdersStay};
ghost use Rattle.closure_model.specs.OrderLaws.{OrderedTablesArePlaced};

/// If every point of a table is placed, the placed points are an order.
pub fn law_placed_points_are_an_order()
    ensures { PlacedPointsAreAnOrder }
{}

/// If a point of a table cannot be placed, a cycle of negative ordinary edges is reached from the
/// lowest such point.
pub fn law_cycles_are_met()
    ensures { CyclesAreMet }
{}

/// A table that has an order has no cycle.
pub fn law_orders_exclude_cycles()
    ensures { OrdersExcludeCycles }
{}

/// The order of one table is one of another of as many points, if each negative ordinary edge of
/// the other was one of the first, or goes from a later place of the order to an earlier one.
pub fn law_orders_stay()
    ensures { OrdersStay }
{}

/// If a table has an order, every point is placed.
pub fn law_ordered_tables_are_placed()
    ensures { OrderedTablesArePlaced }
{}
