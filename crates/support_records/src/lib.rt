//! A store of derivations that follows the edits of a network: what rests on nothing taken away is
//! kept.
#![tactic(auto)]

mod kept_nodes;
mod moves;
mod names;
mod new_base;
mod points;
mod store;

pub use store::{Store, Withdrawn};
