//! The dispatchable network of a table: the lower bounds and waits by which points are executed.
#![tactic(auto)]

mod dispatch;
mod held_lists;
pub mod laws;
mod outgoing;
mod slim_lists;

pub use dispatch::{Conditions, Dispatch};
