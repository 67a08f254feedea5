//! The least moments that keep edges between points, or a loop of edges of negative total.
#![tactic(auto)]

pub mod laws;
mod least;
mod rounds;
mod trace;
mod turn;

pub use least::{MomentsOrLoop, least_moments};
