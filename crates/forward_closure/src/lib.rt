//! A forward closed table of a network and its order: what decides whether the network is
//! controllable, and far smaller than the closure.
#![tactic(auto)]

mod decision;
mod first_edges;
mod forward_test;
mod least_words;
mod open_row;
mod search;
mod source;
mod source_lists;
mod sparse_rows;

pub use decision::{ForwardClosed, close_forward};
