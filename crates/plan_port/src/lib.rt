//! What the program reads from and writes to: a port that gives and takes bytes, a reader of lines
//! over it, and writing to it.
//!
//! A take gives bytes of the input, a put takes bytes of the output. The talk of a port is what was
//! said over it: the pieces that takes gave, each with how many bytes had been put before it; all
//! bytes put; and how far the two had come when a take, and when a put, last failed. A port may
//! show its talk to contracts, and what is left of its input. What no clause can see is a call that
//! takes or puts nothing and does not fail: it leaves no trace in the talk.
#![tactic(auto)]

mod limits;
mod lines;
mod memory;
mod ports;
mod source;
mod standard;
mod steady;
mod window;
mod written_bytes;

pub use limits::{MOST_READ, law_limits_are_defined};
pub use lines::{Line, LineReader};
pub use memory::MemoryPort;
pub use ports::{Port, Sent, Took};
pub use standard::StdPort;
pub use steady::SteadyPort;
pub use texts::MOST_LINE;
pub use written_bytes::{Written, write_all};
