//! The command `deadline`: the tightest deadline from one point of a plan to another, with the
//! certificates of that.
#![tactic(auto)]

mod deadline_question;
mod laws;
mod points;

pub use deadline_question::DeadlineQuestion;
pub use laws::{law_deadline_is_lawful, law_deadline_is_read_exactly};
pub use points::{DeadlineWords, PlanPoints};
