//! The search for a loop of edges of negative total (Bellman 1958, Ford 1956): the moments of
//! points are raised along the edges, and the edges that raised them are followed back.

ghost use Rattle.std.specs.Prelude.{◌≡◌, true, IfOk, IfSome};
ghost use Rattle.std.specs.List.{All, Contains};
ghost use Rattle.longest_case.specs.Loops.{HasNegativeLoop};

use crate::edge_ends::EdgeEnds;
use crate::loop_check::is_negative_loop;
use net_model::{Edge, PointId};
use std::alloc::{AllocError, Global};

/// How many times the points are gone over at most: a loop that is not found by then is not looked
/// for any longer.
const PASSES: usize = 32;

/// The moment of each point, and which edge raised it last, by its place among the edges.
#[derive(Drop)]
struct Raised {
    moments: Vec<u64>,
    by: Vec<Option<usize>>,
    /// Whether each point was raised since the edges that end in it were gone over.
    waits: Vec<bool>,
}

/// Whether a loop of edges of negative total is found among edges between so many points. If none
/// is found, there may be one all the same.
pub(crate) fn has_loop(alloc: Global, points: usize, edges: &[Edge]) -> Result<bool, AllocError>
    ensures { IfOk result (λ found. found ≡ true → HasNegativeLoop edges.now) }
{
    let ends = EdgeEnds::of(alloc, points, edges)?;
    let mut raised = Raised {
        moments: vec![in alloc; 0; points]?,
        by: vec![in alloc; None; points]?,
        waits: vec![in alloc; true; points]?,
    };
    for pass in 0..PASSES {
        let Some(last) = raised.raise_all(edges, &ends, pass % 2 == 1) else {
            return Ok(false);
        };
        let walk = raised.loop_from(alloc, edges, last)?;
        if is_negative_loop(walk.as_slice()) {
            return Ok(true);
        }
    }
    Ok(false)
}

impl Raised {
    /// Goes over the points that wait, from the first to the last or back, and raises the points in
    /// which the edges begin that end in them (Yen 1970). Returns the last point that was raised.
    fn raise_all(&mut self, edges: &[Edge], ends: &EdgeEnds, back: bool) -> Option<PointId> {
        let points = self.waits.len();
        let mut last = None;
        for number in 0..points {
            let to = if back { points - 1 - number } else { number };
            if self.stops_waiting(to) {
                last = self.raise_before(edges, ends, to).or(last);
            }
        }
        last
    }

    /// Whether a point waits; it does so no longer.
    fn stops_waiting(&mut self, point: usize) -> bool {
        match self.waits.get_mut(point) {
            None => false,
            Some(waits) => {
                let waited = *waits;
                *waits = false;
                waited
            }
        }
    }

    /// Raises the points in which the edges begin that end in a point, one edge after another, as
    /// far as the edge requires. Returns the last point that was raised.
    fn raise_before(&mut self, edges: &[Edge], ends: &EdgeEnds, to: usize) -> Option<PointId> {
        let mut last = None;
        let mut next = ends.last_into(to);
        for _ in 0..edges.len() {
            let Some(place) = next else {
                return last;
            };
            if let Some(edge) = edges.get(place) {
                if self.raise(place, edge) {
                    last = Some(edge.from);
                }
            }
            next = ends.before(place);
        }
        last
    }

    /// Raises the point in which an edge begins as far as the edge requires, and says whether it
    /// was raised.
    fn raise(&mut self, place: usize, edge: &Edge) -> bool {
        let from = edge.from.0 as usize;
        let to = edge.to.0 as usize;
        let points = self.moments.len().min(self.by.len()).min(self.waits.len());
        if from >= points || to >= points {
            return false;
        }
        let required_moment = required_moment(self.moments[to], edge);
        if required_moment <= self.moments[from] {
            return false;
        }
        self.moments[from] = required_moment;
        self.by[from] = Some(place);
        self.waits[from] = true;
        true
    }

    /// The edges that raised points, followed from a point: once round their loop, if they have
    /// one.
    fn loop_from(
        &self,
        alloc: Global,
        edges: &[Edge],
        start: PointId,
    ) -> Result<Vec<Edge>, AllocError>
        ensures { IfOk result (λ walk. All (Contains edges.now) walk.items) }
    {
        let mut walk = Vec::new(alloc);
        let begin = self.far_from(edges, start);
        let mut at = begin;
        for _ in 0..self.by.len() {
            let Some(edge) = self.edge_from(edges, at) else {
                return Ok(walk);
            };
            walk.push(edge)?;
            at = edge.to;
            if at == begin {
                return Ok(walk);
            }
        }
        Ok(walk)
    }

    /// The point that is reached by as many of these edges as there are points, or in which they
    /// end.
    fn far_from(&self, edges: &[Edge], start: PointId) -> PointId {
        let mut at = start;
        for _ in 0..self.by.len() {
            match self.edge_from(edges, at) {
                Some(edge) => at = edge.to,
                None => return at,
            }
        }
        at
    }

    /// The edge that raised a point last.
    fn edge_from(&self, edges: &[Edge], point: PointId) -> Option<Edge>
        ensures { IfSome result (Contains edges.now) }
    {
        let place = (*self.by.get(point.0 as usize)?)?;
        edges.get(place).copied()
    }
}

/// How late an edge requires the point in which it begins to be, by the moment of that in which it
/// ends.
fn required_moment(to: u64, edge: &Edge) -> u64 {
    let size = edge.weight.unsigned_abs();
    if edge.weight < 0 {
        to.saturating_add(size)
    } else {
        to.saturating_sub(size)
    }
}
