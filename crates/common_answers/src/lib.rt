//! Answers that several commands put: the first refusal of an input, and the verdict of a network.
#![tactic(auto)]

mod faults;
mod verdict_lines;

pub use faults::{Fault, stop_fault};
pub use verdict_lines::{push_verdict, put_controllable, put_proved, put_refuted};
