//! The moments of the points of an execution.

ghost use Rattle.std.specs.Prelude.{◌≡◌, ◌<◌, length, replicate, slice_set, IfOk, IfSome, None};
ghost use Rattle.net_model.specs.Moments.{moment_of};
ghost use Rattle.execution_model.specs.Feeds.{completed_at};
ghost use Rattle.live_executor.specs.Limits.{end_of_time};

use net_model::PointId;
use std::alloc::{AllocError, Global};
use std::marker::Model;

/// For each point its moment, or `None` if it has not come; each is before the end of time.
/// Contracts see them as their list.
#[derive(Drop)]
pub(crate) struct Moments {
    moments: Vec<Option<u64>>,
}

impl Model for Moments {
    ghost use Rattle.std.specs.Prelude.{List, Option, ℕ};
    ghost use Rattle.live_executor.specs.Limits.{AreBefore, end_of_time};

    ghost Value = { List (Option ℕ) };

    ghost view = { λ it. it.moments.items };

    ghost invariant = { λ it. AreBefore end_of_time it.moments.items };
}

impl Moments {
    /// Those of so many points, of which none has come. `AllocError` comes only if memory is
    /// refused.
    pub(crate) fn none(alloc: Global, points: u32) -> Result<Moments, AllocError>
        ensures { IfOk result (λ moments. moments ≡ replicate points None) }
    {
        let moments = vec![in alloc; None; points as usize]?;
        Ok(Moments { moments })
    }

    /// The moment of a point, or `None` if it has not come.
    pub(crate) fn of(&self, point: PointId) -> Option<u64>
        requires { point.0 < length self.now }
        ensures moment { result ≡ moment_of self.now point }
        ensures early { IfSome result (λ moment. moment < end_of_time) }
    {
        self.moments[point.0 as usize]
    }

    /// A point gets its moment.
    pub(crate) fn set(&mut self, point: PointId, moment: u64)
        requires point { point.0 < length self.old }
        requires early { moment < end_of_time }
        ensures { self.new ≡ completed_at self.old moment point }
    {
        self.moments[point.0 as usize] = Some(moment);
    }

    /// A point has not come after all.
    pub(crate) fn clear(&mut self, point: PointId)
        requires { point.0 < length self.old }
        ensures { self.new ≡ slice_set self.old point.0 None }
    {
        self.moments[point.0 as usize] = None;
    }
}
