//! The command `show`: a plan, and the same plan put in either notation.
#![tactic(auto)]

mod laws;
mod show_question;

pub use laws::{law_show_is_lawful, law_show_is_read_exactly};
pub use show_question::Show;
