//! The command `judge`: a plan and a certificate, and whether it proves what it claims.
#![tactic(auto)]

mod judge_question;
mod laws;

pub use judge_question::Judge;
pub use laws::{law_judge_is_lawful, law_judge_is_read_exactly};
