//! The closed table of a network and its order, without rounds: a dense table is relaxed in place,
//! and then tested.
#![tactic(auto)]

mod closure;
mod consequences;
mod dense;
mod dense_copies;
mod depth_first;
pub mod laws;
mod open_row;
mod relaxable;
mod relaxation;
mod sequence;
mod shared_test;
mod table_test;
mod unsaturated_edges;

pub use closure::{Closed, close};
pub use consequences::{after, over_link, without_label};
pub use depth_first::DepthFirst;
pub use relaxable::Relaxable;
pub use table_test::unsaturated_edge;
