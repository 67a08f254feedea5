//! Plans as JSON documents: the parts that a document declares, and the document of a network.
#![tactic(auto)]

mod document;
mod fault;
pub mod laws;
mod place;
mod read;
mod write;

pub use fault::{JsonFault, Member};
pub use read::{JsonPlan, from_json};
pub use write::to_json;
