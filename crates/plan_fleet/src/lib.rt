//! A fleet of plans, each executed on its own: they are decided side by side, and no call for one
//! changes another. Only `Fleet::open` takes memory.
#![tactic(auto)]

mod fleet;
mod fleet_plan;
mod fleet_start;
mod plan_execution;
mod states;

pub use fleet::Fleet;
pub use states::{FleetFed, FleetFinished, State};
