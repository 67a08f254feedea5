//! The closure of a network as a function of it: the table to which the reference rounds come.
//! Definitions and a law: nothing here makes an edge.
#![tactic(auto)]

pub mod laws;
