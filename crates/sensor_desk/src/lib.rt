//! A desk at which sensors report: feeders, each in its own thread, post the moments at which links
//! were over, and an executor is fed from what was posted. A desk has a word for each link, which
//! is written once: the first post of a link stands, by one atomic step, and no thread waits for
//! another. A desk is made for the shown form of a network, so its moments are those at which
//! completions are shown. Only `Desk::new` takes memory. The rule of the desk is this project's own
//! choice.
//!
//! No clause says that two steps of a seat found words of one history: each call names a history of
//! its own, in which all that the seat has noted stands. `Desk::close` names one for all links.
#![tactic(auto)]

mod comparison;
mod desk;
mod end;
mod feeder;
mod findings;
mod follow_result;
mod follower;
pub mod laws;
mod post_result;
mod rule;
mod same;
mod seat;
mod view;

pub use desk::Desk;
pub use end::Closing;
pub use feeder::{Feeder, NoPostGate, PostGate};
pub use follow_result::Followed;
pub use post_result::Posted;
pub use seat::DeskSeat;
pub use view::{About, Look, Note, View};
