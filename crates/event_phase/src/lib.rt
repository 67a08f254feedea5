//! The execution of a network over lines of events: the phase that answers them, what is printed
//! for a day, and what is specified of it.
#![tactic(auto)]

mod event_answers;
mod execution_start;
mod phase;

pub use event_answers::{put_due, refuse_line};
pub use execution_start::{begin_dispatched, begin_with_feeders};
pub use phase::{Executing, put_end, put_fed};
