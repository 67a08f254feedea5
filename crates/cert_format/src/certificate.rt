//! A certificate: a refutation or a table proof.

use crate::entry::Entry;
use crate::line::CertLine;
use net_model::{Items, Name};

/// A proof that a network is controllable, or that it is not.
#[derive(Debug, Drop)]
pub enum Certificate {
    /// No strategy controls the network: `lines` derive edges, and `walk` names, by the numbers of
    /// their lines from 1, the edges of a closed walk of negative length.
    Refutation {
        lines: Items<CertLine>,
        walk: Items<u64>,
    },
    /// Some strategy controls the network: `entries` are edges from which the rules give no other
    /// ones, and in `order` each negative ordinary one goes from a later point to an earlier one.
    TableProof {
        order: Items<Name>,
        entries: Items<Entry>,
    },
}
