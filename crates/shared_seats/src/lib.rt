//! Shared words, and the seats by which several threads step on them. Each thread owns a seat, and
//! none waits for another. What a seat knows, what its steps show, and the rule that the words and
//! the seats keep are its user's. This project's own choice.
#![tactic(auto)]

mod known;
mod noted;
mod rule;
mod seat;
mod standing;
mod words;

pub use known::{Finding, Known, SeatRule};
pub use noted::{Noted, Subject};
pub use seat::Seat;
pub use standing::Standing;
pub use words::SharedWords;
