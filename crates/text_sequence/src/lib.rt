//! Any number of texts, each under a key after a line that opens it, up to a line that closes them.
//! They are read by the grammar that is made of that of the texts.
#![tactic(auto)]

pub mod laws;
mod read_texts;
mod separators;
mod series;

pub use read_texts::Done;
pub use separators::{Separator, Separators};
pub use series::Series;
