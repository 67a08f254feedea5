//! The command `check`: a plan, and whether the network that it declares is controllable.
#![tactic(auto)]

mod check_question;
mod engine;
mod laws;

pub use check_question::{Check, CheckFlags, CheckText};
pub use engine::{Engine, EnginePlan, EngineTest};
pub use laws::{
    law_check_is_lawful, law_check_is_read_exactly, law_engine_changes_the_limit_alone,
};
