//! Commands of one kind side by side, each under a name, over one stream of lines, each of which
//! belongs to the command that it names first. Of what is put, the lines that begin with a name are
//! what that command puts alone for its own lines. Nothing here knows what the commands are: any
//! command whose lines have a fixed limit, and whose answers end with line ends, can stand side by
//! side so. Together they are one command (`merged_machine`), which wants no memory. The laws say
//! nothing of how many there are.
#![tactic(auto)]

pub mod laws;
mod named_lines;

pub use named_lines::{after_first, push_named, put_named};
