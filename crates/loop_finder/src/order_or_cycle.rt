//! The answer of the search: an order or a cycle, as data.

use net_model::{Items, PointId};

/// What is found in a table.
#[derive(Debug, Drop)]
pub enum Found {
    /// Each point once; each negative ordinary edge goes from a later point to an earlier one.
    Order(Items<PointId>),
    /// A negative ordinary edge goes from each point to the next, and from the last to the first.
    Cycle(Items<PointId>),
}
