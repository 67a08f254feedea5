//! The entries of a row: an edge in 16 bytes, and the order of their keys.

ghost use Rattle.std.specs.Prelude.{◌≡◌, ◌<◌, ◌^◌, IfSome};
ghost use Rattle.std.specs.Ordering.{nat_cmp};
ghost use Rattle.std.specs.Cmp.Lexicographic.{slice_cmp};
ghost use Rattle.net_model.specs.declared.ids.PointId.{PointId};
ghost use Rattle.closure_model.specs.Keys.{key_cmp, label_number};
ghost use Rattle.labelled_graph.specs.Entries.{edge_into, is_ordinary, key_into, key_with};
ghost use Rattle.labelled_graph.specs.Entries.{wide_label};

use net_model::{Edge, LinkId, PointId, Weight};
use std::cmp::Ordering;
use std::mem::size_of;

// An entry takes 16 bytes.
const _: () = prove!(size_of::<Entry>() == 16);

/// An edge in a row of a table, in 16 bytes: where it begins, the number of its label if it has
/// one, and its weight. The row says where it ends.
#[derive(Clone, Copy, Debug)]
pub struct Entry {
    pub from: PointId,
    pub label: Option<u16>,
    pub weight: Weight,
}

impl Entry {
    /// Whether the edge has no label.
    pub fn is_ordinary(&self) -> bool
        ensures { result ≡ is_ordinary self.now }
    {
        self.label.is_none()
    }

    /// The edge of the entry in the row of this point, in which it ends.
    pub fn edge_into(&self, to: PointId) -> Edge
        ensures { result ≡ edge_into to self.now }
    {
        Edge {
            from: self.from,
            to,
            label: wide_label(self.label),
            weight: self.weight,
        }
    }

    /// The entry of an edge.
    pub(crate) fn of(edge: &Edge) -> Entry
        requires { IfSome edge.now.label (λ label. label.0 < 2 ^ 16) }
        ensures { edge_into edge.now.to result ≡ edge.now }
    {
        Entry {
            from: edge.from,
            label: short_label(edge.label),
            weight: edge.weight,
        }
    }

    /// Compares the key of the entry with another key of its row.
    pub(crate) fn compare(&self, from: PointId, label: Option<LinkId>) -> Ordering
        ensures { (to : PointId) → result ≡ key_cmp (key_into to self.now)
            (key_with to from label) }
    {
        match self.from.0.cmp(&from.0) {
            Ordering::Equal => compare_labels(wide_label(self.label), label),
            other => other,
        }
    }
}

/// The number of a label in two bytes.
fn short_label(label: Option<LinkId>) -> Option<u16>
    requires { IfSome label (λ label. label.0 < 2 ^ 16) }
    ensures { wide_label result ≡ label }
{
    match label {
        Some(label) => Some(label.0 as u16),
        None => None,
    }
}

/// The label of a number.
pub(crate) fn wide_label(label: Option<u16>) -> Option<LinkId>
    ensures { result ≡ wide_label label }
{
    match label {
        Some(label) => Some(LinkId(label as u32)),
        None => None,
    }
}

/// Compares two labels: none comes before any, and labels are in the order of their numbers.
fn compare_labels(label: Option<LinkId>, other: Option<LinkId>) -> Ordering
    ensures { result ≡ slice_cmp nat_cmp (label_number label) (label_number other) }
{
    match (label, other) {
        (None, None) => Ordering::Equal,
        (None, Some(_)) => Ordering::Less,
        (Some(_), None) => Ordering::Greater,
        (Some(label), Some(other)) => label.0.cmp(&other.0),
    }
}
