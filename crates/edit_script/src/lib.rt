//! The lines of a session: edits of a plan and questions about it, each line read alone and without
//! memory.
#![tactic(auto)]

pub mod laws;
mod lines;
mod step;

pub use lines::read_step;
pub use step::Step;
