//! The answer to the question whether a network has a strong schedule.

use cert_format::StrongCert;
use net_model::Items;

/// What is answered of a network.
#[derive(Debug, Drop)]
pub enum Strong {
    /// Its least strong schedule: a moment for each executable point, in order.
    Times(Items<u64>),
    /// It has none, and why.
    Refuted(StrongCert),
}
