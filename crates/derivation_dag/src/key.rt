//! The key of an edge, as the key of a hash map.

ghost use Rattle.std.specs.Prelude.{◌≡◌};

use net_model::{Edge, LinkId, PointId};

/// The key of an edge: its ends and its label.
#[derive(Clone, Copy, Debug, PartialEq, Eq, Hash)]
pub(crate) struct EdgeKey {
    to: PointId,
    from: PointId,
    label: Option<LinkId>,
}

impl EdgeKey {
    pub(crate) fn of(edge: &Edge) -> EdgeKey
        ensures to { result.to ≡ edge.now.to }
        ensures from { result.from ≡ edge.now.from }
        ensures label { result.label ≡ edge.now.label }
    {
        EdgeKey {
            to: edge.to,
            from: edge.from,
            label: edge.label,
        }
    }
}
