//! The command `session`: a plan, then edits of its network and questions about it, and after `go`
//! the execution of the network as it stands.
#![tactic(auto)]

mod decided_network;
mod derivations;
mod edit_history;
mod edited_session;
mod laws;
mod session;
mod session_answers;

pub use laws::{law_session_is_lawful, law_session_is_read_exactly};
pub use session::SessionCommand;
