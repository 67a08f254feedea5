//! The lines of events, which state the completions of an execution: one line is read at a time,
//! without memory.
#![tactic(auto)]

mod event;
pub mod laws;
mod limits;
mod names;
mod reader;

pub use event::Event;
pub use limits::{MOST_COMPLETIONS, law_limits_are_defined};
pub use net_model::MOST_MOMENT;
pub use reader::EventReader;
pub use texts::MOST_LINE;
