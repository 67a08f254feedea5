//! An edge of a row in 8 bytes.

ghost use Rattle.std.specs.Prelude.{◌≡◌};
ghost use Rattle.labelled_graph.specs.Words.{FitsWord};
ghost use Rattle.forward_closure.specs.Sources.{source_of, edge_from};

use net_model::{Edge, LinkId, PointId};
use std::mem::size_of;

// A source takes 8 bytes.
const _: () = prove!(size_of::<Source>() == 8);

/// Where an edge of a row begins, and its weight. The row says where it ends, and its label.
#[derive(Clone, Copy)]
pub(crate) struct Source {
    pub(crate) from: PointId,
    pub(crate) weight: i32,
}

impl Source {
    /// The source of an edge.
    pub(crate) fn of(edge: &Edge) -> Source
        requires { FitsWord edge.now.weight }
        ensures { result ≡ source_of edge.now }
    {
        Source {
            from: edge.from,
            weight: edge.weight as i32,
        }
    }

    /// The edge of the source in the row of this target and label.
    pub(crate) fn edge(&self, to: PointId, label: Option<LinkId>) -> Edge
        ensures { result ≡ edge_from self.now to label }
    {
        Edge {
            from: self.from,
            to,
            label,
            weight: self.weight as i64,
        }
    }
}
