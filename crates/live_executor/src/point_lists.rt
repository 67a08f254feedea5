//! A list of points for each point.

ghost use Rattle.std.specs.Prelude.{◌≡◌, ◌<◌, [], length, replicate, IfOk, OnOk};
ghost use Rattle.live_executor.specs.Wakes.{list_at, added_to_list};

use net_model::PointId;
use std::alloc::{AllocError, Global};
use std::marker::Model;

/// For each point a list of points. Contracts see it as these lists.
#[derive(Drop)]
pub(crate) struct PointLists {
    lists: Vec<Vec<PointId>>,
}

impl Model for PointLists {
    ghost use Rattle.std.specs.Prelude.{List, map};
    ghost use Rattle.net_model.specs.declared.ids.PointId.{PointId};

    ghost Value = { List (List PointId) };

    ghost view = { λ kept. map (λ list. list.items) kept.lists.items };
}

impl PointLists {
    /// Empty lists for so many points. `AllocError` comes only if memory is refused.
    pub(crate) fn new(alloc: Global, points: u32) -> Result<PointLists, AllocError>
        ensures { IfOk result (λ lists. lists ≡ replicate points []) }
    {
        let mut lists = Vec::new(alloc);
        for _ in 0..points {
            lists.push(Vec::new(alloc))?;
        }
        Ok(PointLists { lists })
    }

    /// Puts a point at the end of the list of another. `AllocError` comes only if memory is
    /// refused.
    pub(crate) fn add(&mut self, place: PointId, point: PointId) -> Result<(), AllocError>
        requires { place.0 < length self.old }
        ensures { OnOk result (self.new ≡ added_to_list self.old place point) }
    {
        self.lists[place.0 as usize].push(point)?;
        Ok(())
    }

    /// The list of a point.
    pub(crate) fn of(&self, point: PointId) -> &[PointId]
        requires { point.0 < length self.now }
        ensures { result.now ≡ list_at self.now point }
    {
        self.lists[point.0 as usize].as_slice()
    }
}
