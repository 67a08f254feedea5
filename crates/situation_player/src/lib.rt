//! Situations of a network: by number, the shortest and the longest; the earliest schedule of each,
//! played out by an execution; and networks that are forged from a number.
#![tactic(auto)]

mod forged_network;
mod generator;
pub mod laws;
mod parts;
mod played_day;
mod situations;
mod tasks;

pub use forged_network::forge;
pub use generator::Generator;
pub use parts::MOST_TASKS;
pub use played_day::play_out;
pub use situations::{longest, shortest, situation};
pub use tasks::Task;
