//! Edges by the point in which they end.

use net_model::Edge;
use std::alloc::{AllocError, Global};

/// The places of edges in their list, by the point in which they end. No clause speaks of them.
#[derive(Drop)]
pub(crate) struct EdgeEnds {
    /// For each point the place of the last edge that ends in it.
    last: Vec<Option<usize>>,
    /// For each edge the place of the one before it that ends in the same point.
    before: Vec<Option<usize>>,
}

impl EdgeEnds {
    /// The places of edges between so many points.
    pub(crate) fn of(alloc: Global, points: usize, edges: &[Edge]) -> Result<EdgeEnds, AllocError> {
        let mut last = vec![in alloc; None; points]?;
        let mut before = Vec::with_capacity(alloc, edges.len())?;
        for (place, edge) in edges.iter().enumerate() {
            before.push(replaced(&mut last, edge.to.0 as usize, place))?;
        }
        Ok(EdgeEnds { last, before })
    }

    /// The place of the last edge that ends in a point.
    pub(crate) fn last_into(&self, point: usize) -> Option<usize> {
        *self.last.get(point)?
    }

    /// The place of the edge before one that ends in the same point.
    pub(crate) fn before(&self, place: usize) -> Option<usize> {
        *self.before.get(place)?
    }
}

/// Puts a place as that of a point, and gives the one that was there.
fn replaced(last: &mut Vec<Option<usize>>, point: usize, place: usize) -> Option<usize> {
    if point >= last.len() {
        return None;
    }
    let before = last[point];
    last[point] = Some(place);
    before
}
