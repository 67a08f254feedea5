//! The acts of an execution, and the answers to a feed and to its end.

use net_model::PointId;

/// A point that is executed at a moment.
#[derive(Clone, Copy, Debug, PartialEq, Eq)]
pub struct Act {
    /// The moment, in whole moments from 0.
    pub moment: u64,
    /// An executable point.
    pub point: PointId,
}

/// Why a feed is refused.
#[derive(Clone, Copy, Debug, PartialEq, Eq)]
pub enum Why {
    /// The moment isn't after the last one fed, which this is.
    NotLater(u64),
    /// A listed point is not contingent.
    NotContingent(PointId),
    /// A listed point has completed before, or stands earlier in the list: at this moment.
    Twice(PointId, u64),
    /// The link that ends in a listed point is not active: its activation point has no moment
    /// before the one fed.
    NotActive(PointId),
    /// A listed point completes before its link's shortest duration has passed, which is at this
    /// moment.
    TooSoon(PointId, u64),
    /// A point has not completed when its link's longest duration had passed, which was at this
    /// moment.
    Overdue(PointId, u64),
    /// The moment is above the greatest that may be fed.
    MomentLimit,
}

/// The answer to a feed.
#[derive(Clone, Copy, Debug, PartialEq, Eq)]
pub enum Fed {
    /// The completions were taken, and the acts made.
    Acts,
    /// This feed is refused: no act is made, and the execution is over.
    Refused(Why),
    /// An earlier feed was refused, for this cause.
    Ended(Why),
}

/// The answer to the end of an execution.
#[derive(Clone, Copy, Debug, PartialEq, Eq)]
pub enum Finished {
    /// All remaining acts are made.
    Complete,
    /// A contingent point hasn't completed: the lowest one.
    Unfinished(PointId),
    /// An earlier feed was refused, for this cause.
    Ended(Why),
}
