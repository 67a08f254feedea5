//! The certificate of a network by rounds from its base, whose derivation list gives up the nodes on
//! which nothing rests any more.
#![tactic(auto)]

mod proving;
mod rounds_certificate;

pub use proving::prove;
pub use rounds_certificate::certify;
