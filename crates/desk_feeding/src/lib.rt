//! The feeding of an execution from a desk: the points that a line of events names are posted by
//! feeders, each in its own thread, read back, and fed in the order of their numbers. All memory is
//! taken when a feeding is made.
#![tactic(auto)]

mod feeders;
mod point_order;

pub use feeders::Feeding;
