//! The tightest deadline: the least number for which a network with one bound more can be
//! controlled, certified on both sides.
#![tactic(auto)]

mod answer;
mod bisection;
mod certified_answer;
mod first_guess;
mod goal;
mod goal_names;
mod goal_search;
mod tightest_deadline;

pub use answer::{Deadline, DeadlineFault};
pub use goal::{HIGHEST, LOWEST};
pub use tightest_deadline::tightest;
