//! The queue of points by the moments from which on they are due.

ghost use Rattle.std.specs.Prelude.{◌≡◌, ◌<◌, length, replicate, slice_set, IfOk, None};
ghost use Rattle.tournament_queue.specs.First.{IsFirstDue};
ghost use Rattle.tournament_queue.specs.Tournament.{entry};

use crate::firsts::find_above;
use net_model::PointId;
use std::alloc::{AllocError, Global};
use std::marker::Model;

/// So many points, each with a moment from which on it is due, or none. Contracts see it as the
/// list of these, by the number of the point.
#[derive(Drop)]
pub struct DueQueue {
    due: Vec<Option<u64>>,
    /// What comes first below each place of the tree: below the place k are those of 2k and 2k + 1,
    /// and the last places are the points.
    firsts: Vec<Option<(u64, PointId)>>,
}

impl Model for DueQueue {
    ghost use Rattle.net_model.specs.Moments.{Moments};
    ghost use Rattle.tournament_queue.specs.Tournament.{IsTournament};

    ghost Value = { Moments };

    ghost view = { λ queue. queue.due.items };

    ghost invariant = { λ queue. IsTournament queue.due.items queue.firsts.items };
}

impl DueQueue {
    /// The queue of so many points, of which none is due. `AllocError` comes only if memory is
    /// refused.
    pub fn new(alloc: Global, points: u32) -> Result<DueQueue, AllocError>
        ensures { IfOk result (λ queue. queue ≡ replicate points None) }
    {
        let points = points as usize;
        let due = vec![in alloc; None; points]?;
        let firsts = vec![in alloc; None; 2 * points]?;
        Ok(DueQueue { due, firsts })
    }

    /// Makes a point due from a moment on, or no longer due. It costs as many steps as the number
    /// of points has binary digits.
    pub fn set(&mut self, point: PointId, moment: Option<u64>)
        requires { point.0 < length self.old }
        ensures { self.new ≡ slice_set self.old point.0 moment }
    {
        let number = point.0 as usize;
        let leaf = self.due.len() + number;
        self.due[number] = moment;
        self.firsts[leaf] = entry(point, moment);
        find_above(self.firsts.as_mut_slice(), leaf);
    }

    /// The point that is due first, and from when on: the lowest of those that are due first.
    /// `None` if none is due. It takes constant time.
    pub fn first(&self) -> Option<(u64, PointId)>
        ensures { IsFirstDue self.now result }
    {
        match self.firsts.get(1) {
            Some(first) => *first,
            None => None,
        }
    }
}

/// A point at the moment from which on it is due.
fn entry(point: PointId, moment: Option<u64>) -> Option<(u64, PointId)>
    ensures { result ≡ entry point moment }
{
    Some((moment?, point))
}
