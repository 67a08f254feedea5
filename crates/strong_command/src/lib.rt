//! The command `strong`: one schedule of the executable points for every situation, or a
//! certificate that there is none.
#![tactic(auto)]

mod laws;
mod strong_question;
mod times;

pub use laws::{law_strong_is_lawful, law_strong_is_read_exactly};
pub use strong_question::StrongQuestion;
