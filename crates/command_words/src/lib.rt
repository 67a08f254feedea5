//! The words after the word of a command. Which words a command takes is a line of data, its
//! `Syntax`: flags, options with a value, and operands. `read` gives the `Arguments` that a list of
//! words means. The words are parsed by `clap`.
#![tactic(auto)]

mod arguments;
mod clap_matches;
mod command;
pub mod laws;
mod syntax;
mod word_reader;

pub use arguments::Arguments;
pub use syntax::Syntax;
pub use word_reader::read;
