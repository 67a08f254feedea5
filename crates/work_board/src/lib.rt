//! A board of numbered targets that several workers draw from: each number is drawn once, by one
//! atomic step. Each worker owns a seat, and none waits for another.
#![tactic(auto)]

mod board;
pub mod laws;
mod rule;
mod seat;
mod view;

pub use board::{Board, Drawn};
pub use seat::Seat;
pub use view::{Draw, Size, View};
