//! The certificate that refutes a network, made from a derivation list and a cycle of negative
//! ordinary edges of its table.
#![tactic(auto)]

mod cycle_refutation;
pub mod laws;
mod lines;
mod names;

pub use cycle_refutation::{refutation, refutation_if_held};
pub use names::link_name;
