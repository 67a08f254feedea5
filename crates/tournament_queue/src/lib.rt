//! Points by the moment from which on they are due, and which of them comes first.
//!
//! A tree whose leaves are the points, and whose inner places contain what comes first of what is
//! below them, as in a tournament (Knuth, The Art of Computer Programming 3, 5.4.1). Unlike a heap
//! it can move a point in place: each point stands in it once.
//!
//! Only `DueQueue::new` takes memory. How many steps the other calls take no clause says.
#![tactic(auto)]

mod firsts;
mod queue;

pub use queue::DueQueue;
