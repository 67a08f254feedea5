//! A strong certificate, and its lines of bounds.

use net_model::{Items, Name, Weight};

/// A line of a strong certificate: an edge `to - from <= weight` between executable points, in
/// whole moments, that follows from the bound of this name in every situation.
#[derive(Clone, Copy, Debug, PartialEq, Eq)]
pub struct StrongLine {
    pub bound: Name,
    pub from: Name,
    pub to: Name,
    pub weight: Weight,
}

/// A proof that no one schedule of the executable points is right in every situation: `by` has
/// edges that are a closed walk of negative length, or `ring` the contingent points of a cycle of
/// links, each of which begins in the point before.
#[derive(Debug, Drop)]
pub struct StrongCert {
    pub by: Items<StrongLine>,
    pub ring: Items<Name>,
}
