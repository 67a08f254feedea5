//! What all texts share: their lines, the words of a line, and lines that are printed.
//!
//! Only `push_line` takes memory.
#![tactic(auto)]

pub mod laws;
mod limits;
mod lines;
mod printed_lines;
mod words;

pub use limits::{MOST_LINE, law_limits_are_defined};
pub use lines::next_line;
pub use printed_lines::push_line;
pub use words::{first_word, is_blank, next_word};
