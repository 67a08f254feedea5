//! A goal: one bound more for a network.

use net_model::{Name, PointId, Weight};

/// The least number of a plan, and of a deadline, in whole moments.
pub const LOWEST: Weight = -1_000_000_000;

/// The greatest number of a plan, and of a deadline, in whole moments.
pub const HIGHEST: Weight = 1_000_000_000;

/// The bound `to - from <= most` that a network is to have more, but for its number.
#[derive(Clone, Copy)]
pub(crate) struct Goal {
    pub name: Name,
    pub from: PointId,
    pub to: PointId,
}
