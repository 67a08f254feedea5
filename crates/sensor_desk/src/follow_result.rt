//! The result of following a desk at a moment.

use execution_model::Fed;
use net_model::PointId;

/// The result of following a desk at a moment.
#[derive(Clone, Copy, Debug, PartialEq, Eq)]
pub enum Followed {
    /// A link stands at a moment below that one, and the executor has none for its point: the first
    /// such point, and the moment that stands. Nothing was fed.
    Late(PointId, u64),
    /// Exactly the points whose links stand at the moment were fed, with this answer.
    Fed(Fed),
}
