//! The nodes of a derivation list, as data: each is an edge and the rule by which it was made.

use net_model::{BoundId, Edge, LinkId};

/// The number of a node in a derivation list, from 0 in the order of making.
#[derive(Clone, Copy, Debug, PartialEq, Eq)]
pub struct NodeId(pub u64);

/// How a node of a derivation list was made: from a bound or a link of the network, or by a
/// reduction from nodes that stand earlier. Two premises stand in the order of the edges.
#[derive(Clone, Copy, Debug, PartialEq, Eq)]
pub enum Rule {
    /// The edge of a bound.
    Bound(BoundId),
    /// The edge of a link, labelled by the link.
    Link(LinkId),
    /// No-case, from two nodes.
    No(NodeId, NodeId),
    /// Upper-case, from two nodes.
    Up(NodeId, NodeId),
    /// Lower-case, over a link, from one node.
    Low(LinkId, NodeId),
    /// Cross-case, over a link, from one node.
    Cross(LinkId, NodeId),
    /// The removal of a label, from one node.
    Drop(NodeId),
}

/// A node of a derivation list: an edge, and the rule by which it was made.
#[derive(Clone, Copy, Debug, PartialEq, Eq)]
pub struct Node {
    pub rule: Rule,
    pub edge: Edge,
}

/// What an edit may take away, and on what nodes of a derivation list rest: a bound or a link of
/// the network.
#[derive(Clone, Copy, Debug, PartialEq, Eq)]
pub enum Item {
    Bound(BoundId),
    Link(LinkId),
}
