//! Examples of commands: a text, a question about it, a text whose lines have a limit together, a
//! phase that begins from it and wants no memory, and a command that answers lines before it serves
//! that phase. The tests run them over ports, and show what lists of words mean to a command.
#![tactic(auto)]

mod counted_text;
mod document;
#[cfg(test)]
mod runs;
mod tally;
mod tally_command;
#[cfg(test)]
mod words;

pub use counted_text::{AtMost, CountFault, Counting, HowMany, HowManyEach};
pub use document::{Document, DocumentFault, HowLarge};
pub use tally::{FromCount, Tally};
pub use tally_command::TallyCommand;
