//! Which points a point wakes when it gets its moment.

ghost use Rattle.std.specs.Prelude.{◌≡◌, ◌<◌, ◌≤◌, length, take, IfOk, OnOk};
ghost use Rattle.std.specs.List.{All};
ghost use Rattle.dispatch_net.specs.Dispatchable.{conditions_at};
ghost use Rattle.live_executor.specs.Sound.{IsLinkWithin, IsLowerBound, IsWait, IsSoundSetting};
ghost use Rattle.live_executor.specs.Wakes.{AreWakesOf, list_at, gathered, bound_place, wait_place};
ghost use Rattle.live_executor.specs.Wakes.{with_point_wakes};

use crate::point_lists::PointLists;
use dispatch_net::Dispatch;
use net_model::{Link, LinkId, PointId, Weight};
use std::alloc::{AllocError, Global};
use std::marker::Model;

/// For each point the points whose lower bounds and waits it fixes, each as often as it does, and
/// those with a wait for the link that ends in it.
#[derive(Drop)]
pub(crate) struct Wakes {
    fixes: PointLists,
    ends: PointLists,
}

impl Model for Wakes {
    ghost use Rattle.live_executor.specs.Wakes.{WakeLists};

    ghost Value = { WakeLists };

    ghost view = { λ kept. record { fixes = kept.fixes; ends = kept.ends } };
}

impl Wakes {
    /// The wakes of a dispatchable network with so many points, by what is kept of it. `AllocError`
    /// comes only if memory is refused.
    pub(crate) fn of(alloc: Global, dispatch: &Dispatch, points: u32) -> Result<Wakes, AllocError>
        requires sound { IsSoundSetting
            (record { links = dispatch.now.links; dispatch = dispatch.now.kept }) }
        requires count { points ≡ length dispatch.now.kept }
        ensures { IfOk result (AreWakesOf
            (record { links = dispatch.now.links; dispatch = dispatch.now.kept }) points) }
    {
        let fixes = PointLists::new(alloc, points)?;
        let ends = PointLists::new(alloc, points)?;
        let mut wakes = Wakes { fixes, ends };
        for number in 0..points {
            wakes.add(dispatch, PointId(number))?;
        }
        Ok(wakes)
    }

    /// Adds a point by its lower bounds and waits.
    fn add(&mut self, dispatch: &Dispatch, point: PointId) -> Result<(), AllocError>
        requires point { point.0 < length dispatch.now.kept }
        requires bounds { All (IsLowerBound (length self.old.fixes))
            (conditions_at dispatch.now.kept point).lower_bounds }
        requires waits { All (IsWait (length dispatch.now.links))
            (conditions_at dispatch.now.kept point).waits }
        requires links { All (IsLinkWithin (length self.old.fixes)) dispatch.now.links }
        requires ends { length self.old.ends ≡ length self.old.fixes }
        ensures { OnOk result (self.new ≡ with_point_wakes dispatch.now.links self.old point
            (conditions_at dispatch.now.kept point)) }
    {
        add_bounds(&mut self.fixes, point, dispatch.lower_bounds(point))?;
        add_activations(
            &mut self.fixes,
            point,
            dispatch.links(),
            dispatch.waits(point),
        )?;
        add_contingent(
            &mut self.ends,
            point,
            dispatch.links(),
            dispatch.waits(point),
        )
    }

    /// The points whose lower bounds and waits a point fixes, each as often as it does.
    pub(crate) fn fixes(&self, point: PointId) -> &[PointId]
        requires { point.0 < length self.now.fixes }
        ensures { result.now ≡ list_at self.now.fixes point }
    {
        self.fixes.of(point)
    }

    /// The points with a wait for the link that ends in a point.
    pub(crate) fn ends(&self, point: PointId) -> &[PointId]
        requires { point.0 < length self.now.ends }
        ensures { result.now ≡ list_at self.now.ends point }
    {
        self.ends.of(point)
    }
}

/// Adds a point to the list of the point of each lower bound.
fn add_bounds(
    lists: &mut PointLists,
    point: PointId,
    bounds: &[(PointId, Weight)],
) -> Result<(), AllocError>
    requires { All (IsLowerBound (length lists.old)) bounds.now }
    ensures given { OnOk result (lists.new ≡ gathered bound_place point lists.old bounds.now) }
    ensures count { OnOk result (length lists.new ≡ length lists.old) }
{
    for (after, _) in bounds {
        lists.add(*after, point)?;
    }
    Ok(())
}

/// Adds a point to the list of the activation point of the link of each wait.
fn add_activations(
    lists: &mut PointLists,
    point: PointId,
    links: &[Link],
    waits: &[(LinkId, Weight)],
) -> Result<(), AllocError>
    requires links { All (IsLinkWithin (length lists.old)) links.now }
    requires waits { All (IsWait (length links.now)) waits.now }
    ensures { OnOk result (lists.new ≡ gathered (wait_place (λ link. link.from) links.now) point
        lists.old waits.now) }
{
    for (link, _) in waits {
        lists.add(links[link.0 as usize].from, point)?;
    }
    Ok(())
}

/// Adds a point to the list of the contingent point of the link of each wait.
fn add_contingent(
    lists: &mut PointLists,
    point: PointId,
    links: &[Link],
    waits: &[(LinkId, Weight)],
) -> Result<(), AllocError>
    requires links { All (IsLinkWithin (length lists.old)) links.now }
    requires waits { All (IsWait (length links.now)) waits.now }
    ensures { OnOk result (lists.new ≡ gathered (wait_place (λ link. link.to) links.now) point
        lists.old waits.now) }
{
    for (link, _) in waits {
        lists.add(links[link.0 as usize].to, point)?;
    }
    Ok(())
}
