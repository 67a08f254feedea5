//! The reference rows, orders, rounds and refutations, and what an edit keeps of a derivation list,
//! as plain slow programs on lists, each of which gives what its definition says, tried on small
//! networks as tests. They stand on no part of the engine; a test makes the rounds of drawn
//! networks by both, closes them without rounds, and follows drawn edits of them.
#![tactic(auto)]

#[cfg(test)]
mod closure_match;
#[cfg(test)]
mod comparison;
#[cfg(test)]
mod consequence_lists;
#[cfg(test)]
mod drawn_edits;
#[cfg(test)]
mod drawn_networks;
#[cfg(test)]
mod edit_cases;
#[cfg(test)]
mod edit_comparison;
mod edited_network;
mod ending;
#[cfg(test)]
mod forward_tables;
#[cfg(test)]
mod kept_nodes;
#[cfg(test)]
mod names;
#[cfg(test)]
mod nodes;
#[cfg(test)]
mod orders;
#[cfg(test)]
mod plans;
#[cfg(test)]
mod reductions;
#[cfg(test)]
mod refutation;
#[cfg(test)]
mod rounds;
#[cfg(test)]
mod rows;
#[cfg(test)]
mod small_cases;

pub use edited_network::Edited;
pub use ending::Ending;
