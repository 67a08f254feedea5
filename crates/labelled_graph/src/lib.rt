//! The table of the labelled distance graph: for each key its least weight so far.
#![tactic(auto)]

mod dense_row;
mod entry;
mod ordered_entries;
mod row;
mod table;

pub use dense_row::{DenseRow, nearest_word};
pub use entry::Entry;
pub use table::Table;
