//! How a dispatchable network is executed over a stream of completions: the state of an execution,
//! a feed, the end and the next due moment, and when a stream is faithful: definitions, and laws
//! about them. Nothing here executes.
#![tactic(auto)]

mod feed_answers;
pub mod laws;

pub use feed_answers::{Act, Fed, Finished, Why};
pub use net_model::MOST_MOMENT;
