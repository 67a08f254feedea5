//! The kinds of the lines of a refutation: by which rule, and from what, an edge is derived.

use net_model::Name;

/// By what a line of a refutation derives its edge. A number is that of an earlier line, from 1:
/// the lines of the certificate that are not blank, after its second line.
#[derive(Clone, Copy, Debug, PartialEq, Eq)]
pub enum LineKind {
    /// The edge of the bound of this name.
    Bound(Name),
    /// The upper edge of the link that ends in this point.
    Link(Name),
    /// The no-case rule, from an edge and the edge that follows it.
    No(u64, u64),
    /// The upper-case rule, from an edge and the labelled edge that follows it.
    Up(u64, u64),
    /// The lower-case rule, from the link that ends in this point and an edge that begins there.
    Low(Name, u64),
    /// The cross-case rule, from the link that ends in this point and a labelled edge that begins
    /// there.
    Cross(Name, u64),
    /// The removal of a label.
    Drop(u64),
}
