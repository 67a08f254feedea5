//! The histories of a table of the labelled distance graph that several workers share: what they
//! are, and that each one that is settled ends in the closure, whatever was read early or late. A
//! history is steps of any workers in any order, each of which reads the weight of a key or relaxes
//! an edge; it is settled if no rule gives from the final weights an edge whose key has none or a
//! greater one. Definitions and laws: nothing here makes an edge.
#![tactic(auto)]

pub mod laws;
