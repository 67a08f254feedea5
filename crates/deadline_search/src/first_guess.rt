//! The first guess of a search: nothing that is specified depends on it.

ghost use Rattle.std.specs.Prelude.{pos, ◌<◌, ◌≤ℤ◌, IfOk};
ghost use Rattle.std.specs.List.{All};
ghost use Rattle.net_model.specs.Limits.{most_delay};
ghost use Rattle.net_model.specs.Network.{IsPoint};
ghost use Rattle.verdicts.specs.Decisions.{IsOrderedForwardTable};
ghost use Rattle.verdicts.specs.Verdict.{IsControllableBy};
ghost use Rattle.deadline_search.specs.Deadlines.{lowest, highest};
ghost use Rattle.deadline_search.specs.Trials.{IsGoalFor};

use crate::goal::{HIGHEST, LOWEST};
use crate::goal_search::Search;
use forward_closure::ForwardClosed;
use labelled_graph::Table;
use net_model::{Link, Network, PointId, Weight};
use std::alloc::{AllocError, Global};

/// How many passes over all edges shorten the walks at most.
const MOST_PASSES: u32 = 64;

/// The lengths of the walks from a point, as far as they are known.
#[derive(Drop)]
struct Walks {
    lengths: Vec<Option<Weight>>,
}

impl Search {
    /// A number at which to begin: were every duration the longest, no number below it would be a
    /// deadline, since each derivable edge would hold in its weight. So it is what the shortest
    /// walk from the goal's end back to its beginning leaves, over the edges of a forward closed
    /// table and of the links; those of the closure would shorten no walk
    /// (`law_derivable_are_covered`).
    pub fn guess(
        &self,
        alloc: Global,
        shown: Network,
        closed: ForwardClosed,
    ) -> Result<Weight, AllocError>
        requires goal { IsGoalFor self.now.net self.now.goal }
        requires closed { IsControllableBy IsOrderedForwardTable self.now.net shown closed }
        ensures low { IfOk result (λ guess. lowest ≤ℤ guess) }
        ensures high { IfOk result (λ guess. guess ≤ℤ highest) }
    {
        let mut walks = Walks::from(alloc, &shown, self.goal.to)?;
        walks.shorten(&closed, shown.links());
        let Some(length) = walks.length(self.goal.from) else {
            return Ok(LOWEST);
        };
        let lags = self.lag(self.goal.from) - self.lag(self.goal.to);
        let guess = lags.saturating_sub(length);
        Ok(guess.clamp(LOWEST, HIGHEST))
    }

    /// How many moments after it happened a point is shown.
    fn lag(&self, point: PointId) -> Weight
        requires { IsPoint self.now.net point }
        ensures { (pos 0 ≤ℤ result) × (result ≤ℤ pos most_delay) }
    {
        if self.net.is_contingent(point) {
            self.net.delay()
        } else {
            0
        }
    }
}

impl Walks {
    /// The walk of no edge, from a point of a network to itself.
    fn from(alloc: Global, net: &Network, point: PointId) -> Result<Walks, AllocError> {
        let mut lengths = Vec::new(alloc);
        for place in 0..net.points().len() as u32 {
            let length = if place == point.0 { Some(0) } else { None };
            lengths.push(length)?;
        }
        Ok(Walks { lengths })
    }

    /// The length of the shortest walk to a point that is known.
    fn length(&self, point: PointId) -> Option<Weight> {
        *self.lengths.as_slice().get(point.0 as usize)?
    }

    /// Shortens the walks by the edges of a table and of links, as long as some walk becomes
    /// shorter.
    fn shorten(&mut self, closed: &ForwardClosed, links: &[Link])
        requires { All (λ point. point.0 < closed.now.table.shape.points) closed.now.order }
    {
        for _ in 0..MOST_PASSES {
            let along = self.along(&closed.table, closed.order.as_slice());
            let linked = self.over(links);
            if !along && !linked {
                return;
            }
        }
    }

    /// Shortens the walks by the edges of a table, from the last point of an order to the first, as
    /// its negative edges go, and back again, and says whether it did.
    fn along(&mut self, table: &Table, order: &[PointId]) -> bool
        requires { All (λ point. point.0 < table.now.shape.points) order.now }
    {
        let mut shorter = false;
        for point in order.iter().rev() {
            shorter |= self.into_point(table, *point);
        }
        for point in order {
            shorter |= self.into_point(table, *point);
        }
        shorter
    }

    /// Shortens the walk to a point by the edges of a table that end there, and says whether it
    /// did.
    fn into_point(&mut self, table: &Table, to: PointId) -> bool
        requires { to.0 < table.now.shape.points }
    {
        let mut shorter = false;
        for entry in table.entries(to) {
            shorter |= self.shorten_by(entry.from, to, entry.weight);
        }
        shorter
    }

    /// Shortens walks by links of any duration, and says whether it did.
    fn over(&mut self, links: &[Link]) -> bool {
        let mut shorter = false;
        for link in links {
            shorter |= self.shorten_by(link.from, link.to, link.high);
            shorter |= self.shorten_by(link.to, link.from, link.low.wrapping_neg());
        }
        shorter
    }

    /// Shortens the walk to the end of an edge if the one to its beginning and the edge are
    /// shorter, and says whether they are.
    fn shorten_by(&mut self, from: PointId, to: PointId, weight: Weight) -> bool {
        let Some(before) = self.length(from) else {
            return false;
        };
        let length = before.saturating_add(weight);
        if self.length(to).is_some_and(|known| known <= length) {
            return false;
        }
        if let Some(known) = self.lengths.as_mut_slice().get_mut(to.0 as usize) {
            *known = Some(length);
        }
        true
    }
}
