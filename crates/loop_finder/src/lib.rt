//! An order of the points of a table, or a cycle of negative ordinary edges; and an order that is
//! kept while edges improve.
#![tactic(auto)]

mod kept_order;
mod laws;
mod open_edges;
mod order_or_cycle;
mod placement;
mod successors;

pub use kept_order::KeptOrder;
pub use laws::law_orders_are_kept;
pub use order_or_cycle::Found;
pub use placement::order;
