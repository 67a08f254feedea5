//! What a table of the labelled distance graph is, and when it is closed; derivable weights,
//! closures and derivation lists; the rounds by which a closed table is made: definitions, and laws
//! about them. Nothing here makes an edge.
//!
//! An edge is derivable if it is that of a bound or a link, or a rule gives it from derivable
//! edges. A table is closed if it has, at a weight that is no greater, whatever a rule gives from
//! its edges, and the edges of bounds and links. The closure of a network has for each key its
//! least derivable weight. An ordinary edge is one without a label. An order of a table has each
//! point once, and each negative ordinary edge goes from a later point to an earlier one; a cycle
//! is of negative ordinary edges.
#![tactic(auto)]

mod derivation;
pub mod laws;
pub mod order_laws;
pub mod round_laws;
pub mod rows;
pub mod table_laws;

pub use derivation::{Item, Node, NodeId, Rule};
