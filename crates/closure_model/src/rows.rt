//! The row of a target while it is made, as data.

use net_model::{Edge, LinkId, PointId, Weight};

/// How a key of a row got a lesser weight: the rule, and its premises in the order of the edges,
/// with the weights that were used.
#[derive(Clone, Copy, Debug, PartialEq, Eq)]
pub enum Why {
    /// No-case, from an ordinary edge of the table and an ordinary edge of the row.
    No(Edge, Edge),
    /// Upper-case, from an ordinary edge of the table and a labelled edge of the row.
    Up(Edge, Edge),
    /// Lower-case, over a link, from an ordinary edge of the row.
    Low(LinkId, Edge),
    /// Cross-case, over a link, from a labelled edge of the row.
    Cross(LinkId, Edge),
    /// The removal of the label of an edge of the row.
    Drop(Edge),
}

/// An edge that a row gives, and how.
#[derive(Clone, Copy, Debug, PartialEq, Eq)]
pub struct Made {
    pub edge: Edge,
    pub why: Why,
}

/// A key of the row of a target as it stands while the row is made: where its edges begin and their
/// label, the weight that it has, how it got it if not from the table, and whether it is settled.
#[derive(Clone, Copy, Debug, PartialEq, Eq)]
pub struct Slot {
    pub from: PointId,
    pub label: Option<LinkId>,
    pub weight: Option<Weight>,
    pub why: Option<Why>,
    pub settled: bool,
}
