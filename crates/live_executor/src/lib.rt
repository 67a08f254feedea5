//! Executes a dispatchable network over a stream of completions, moment by moment. After the start
//! nothing takes memory.
//!
//! An executor goes by the lower bounds and waits that its dispatchable network keeps, all or only
//! those that no others imply; contracts speak of all that were made. When it starts it gathers
//! which points each point wakes and which it activates. The points that are due stand in one
//! queue, by moment, and those that are expected to complete in another, by their latest moments. A
//! feed looks at the lower bounds and waits of those points alone that it wakes, and copies no
//! moments: that no clause says.
#![tactic(auto)]

mod activations;
mod completions;
mod condition_moments;
mod dispatched_network;
mod execution_state;
mod executor;
mod expected_points;
mod feed;
mod moments;
mod open_conditions;
mod point_lists;
mod undo;
mod wakes;

pub use execution_model::{Act, Fed, Finished, MOST_MOMENT, Why};
pub use executor::Executor;
