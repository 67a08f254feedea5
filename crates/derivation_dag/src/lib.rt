//! Derivation lists: edges in the order of making, each with its rule and its premises; and stores
//! of derivations, which have the table of their edges besides.
#![tactic(auto)]

mod ancestors;
mod dag;
mod found;
mod key;
mod keyed_dag;
mod made_nodes;
mod marks;
mod node_list;
mod numbers;
mod plain;
mod premises;
mod pruned;
mod pruned_dag;
mod rest_marks;
mod square;
mod supports;
mod trail;

pub use closure_model::{Item, Node, NodeId, Rule};
pub use dag::Dag;
pub use plain::{Plain, bound_node, link_node};
pub use pruned::Pruned;
pub use pruned_dag::Numbered;
pub use supports::{MadeRow, Supports};
