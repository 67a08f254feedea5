//! The two ends of rounds: a closed table, or a cycle.

use net_model::{Items, PointId};

/// The end of the rounds: with a closed table and its order, or with a cycle.
#[derive(Debug, Drop)]
pub enum Ending {
    Closed(Items<PointId>),
    Looped(Items<PointId>),
}
