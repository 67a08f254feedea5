//! The table proof of a controllable network: its certificate, made from its closure and the order
//! of its points.
#![tactic(auto)]

mod closure_proof;
mod entries;
pub mod laws;
mod names;

pub use closure_proof::table_proof;
