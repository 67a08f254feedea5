//! What holds of orders that are kept, as the contract of a function with an empty body.

ghost use Rattle.loop_finder.specs.KeptOrders.{OrdersAreKept};

/// An order of a table stays one while every edge that improves goes along it.
pub fn law_orders_are_kept()
    ensures { OrdersAreKept }
{}
