//! Relaxed networks: what a strategy of a network is worth in one that asks less. A network is
//! relaxed to another if bounds are loosened or dropped, intervals of links narrowed, or the delay
//! is lowered. Definitions and laws: nothing here decides a network.
#![tactic(auto)]

pub mod laws;
