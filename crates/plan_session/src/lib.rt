//! A plan under edits: a session keeps the derivations of a network while it is edited, and answers
//! whether the network as it stands is controllable, by a certificate or a dispatchable network of
//! it.
#![tactic(auto)]

mod answers;
pub mod laws;
mod open_session;
mod propagated;
mod session;
mod session_network;

pub use answers::{AskFault, Report, SessionFault, Verdict};
pub use open_session::{Edited, OpenSession};
pub use session::Session;
