//! A network with the lists by which it is dispatched.

ghost use Rattle.std.specs.Prelude.{◌≡◌, ◌<◌, length, IfSome, IfOk};
ghost use Rattle.std.specs.List.{All};
ghost use Rattle.net_model.specs.declared.ids.PointId.{PointId};
ghost use Rattle.dispatch_net.specs.Dispatchable.{conditions_at};
ghost use Rattle.live_executor.specs.WokenPoints.{condition_count, AreFixedBy, AreEndedBy};
ghost use Rattle.live_executor.specs.Wakes.{list_at};
ghost use Rattle.execution_model.specs.Execution.{is_due, link_to};
ghost use Rattle.execution_model.specs.Feeds.{latest_of};
ghost use Rattle.live_executor.specs.ExpectedPoints.{AreActivatedBy};
ghost use Rattle.live_executor.specs.Due.{PassesFrom};
ghost use Rattle.live_executor.specs.Sound.{IsDispatchOf, IsLinkWithin, IsSoundSetting};
ghost use Rattle.live_executor.specs.Sound.{ComesToItsEnd, ExecutesTheSame, made_setting};

use crate::activations::activations;
use crate::condition_moments::{bounds_met, waits_met};
use crate::moments::Moments;
use crate::point_lists::PointLists;
use crate::wakes::Wakes;
use dispatch_net::Dispatch;
use execution_model::laws::law_no_acts_left_is_whole;
use net_model::{Link, Network, PointId};
use std::alloc::{AllocError, Global};
use std::marker::Model;

/// By what a network is executed: its links, the lower bounds and waits that are kept of its
/// points, which points each point wakes when it gets its moment, and which contingent points it
/// activates. Contracts see it as these, and as what was made.
#[derive(Drop)]
pub(crate) struct Dispatched {
    dispatch: Dispatch,
    points: u32,
    wakes: Wakes,
    activated: PointLists,
}

impl Model for Dispatched {
    ghost use Rattle.live_executor.specs.Sound.{KeptNetwork, kept_network, IsKeptWith};

    ghost Value = { KeptNetwork };

    ghost view = { λ kept. kept_network kept.dispatch kept.wakes };

    ghost invariant = { λ kept. IsKeptWith kept.dispatch kept.points kept.wakes kept.activated };
}

impl Dispatched {
    /// A network and its dispatchable network. `AllocError` comes only if memory is refused.
    pub(crate) fn new(
        alloc: Global,
        net: &Network,
        dispatch: Dispatch,
    ) -> Result<Dispatched, AllocError>
        requires { IsDispatchOf net.now dispatch }
        ensures { IfOk result (λ dispatched. made_setting dispatched ≡ record
            { links = net.now.links; dispatch = dispatch.made }) }
    {
        // The proof reads here that all that was made is kept, or what no others imply.
        let _ = dispatch.links();
        let points = net.points().len() as u32;
        let wakes = Wakes::of(alloc, &dispatch, points)?;
        let activated = activations(alloc, dispatch.links(), points)?;
        Ok(Dispatched {
            dispatch,
            points,
            wakes,
            activated,
        })
    }

    /// How many points there are.
    pub(crate) fn points(&self) -> u32
        ensures count { result ≡ length self.now.setting.dispatch }
        ensures made { result ≡ length self.now.made }
        ensures sound { IsSoundSetting self.now.setting }
    {
        self.points
    }

    /// If each contingent point has come, and no moment brings an act, every point has come.
    pub(crate) fn comes_to_its_end(&self)
        ensures { ComesToItsEnd self.now.setting }
    {
        // The proof reads here which network this is.
        let _ = &self.dispatch;
        law_no_acts_left_is_whole();
    }

    /// Executions by what is kept are the same as by what was made.
    pub(crate) fn executes_the_same(&self)
        ensures { ExecutesTheSame self.now }
    {
        // The proof reads here which network this is.
        let _ = &self.dispatch;
    }

    /// The link that ends in a point.
    pub(crate) fn link_to(&self, point: PointId) -> Option<Link>
        requires { point.0 < length self.now.setting.dispatch }
        ensures link { result ≡ link_to self.now.setting point }
        ensures sound { IfSome result (IsLinkWithin (length self.now.setting.dispatch)) }
    {
        self.dispatch.link_to(point)
    }

    /// How many lower bounds and waits a point has.
    pub(crate) fn condition_count(&self, point: PointId) -> usize
        requires { point.0 < length self.now.setting.dispatch }
        ensures { result ≡ condition_count (conditions_at self.now.setting.dispatch point) }
    {
        self.dispatch.lower_bounds(point).len() + self.dispatch.waits(point).len()
    }

    /// The points whose lower bounds and waits a point fixes, each as often as it does.
    pub(crate) fn fixes(&self, point: PointId) -> &[PointId]
        requires { point.0 < length self.now.setting.dispatch }
        ensures list { result.now ≡ list_at self.now.wakes.fixes point }
        ensures fixed { AreFixedBy self.now.setting point result.now }
        ensures inside { All (λ (other : PointId). other.0 < length self.now.setting.dispatch)
            result.now }
    {
        self.wakes.fixes(point)
    }

    /// The points with a wait for the link that ends in a point.
    pub(crate) fn ends(&self, point: PointId) -> &[PointId]
        requires { point.0 < length self.now.setting.dispatch }
        ensures list { result.now ≡ list_at self.now.wakes.ends point }
        ensures ended { AreEndedBy self.now.setting point result.now }
        ensures inside { All (λ (other : PointId). other.0 < length self.now.setting.dispatch)
            result.now }
    {
        self.wakes.ends(point)
    }

    /// The contingent points of the links whose activation point this is.
    pub(crate) fn activated(&self, point: PointId) -> &[PointId]
        requires { point.0 < length self.now.setting.dispatch }
        ensures activated { AreActivatedBy self.now.setting.links point result.now }
        ensures inside { All (λ (other : PointId). other.0 < length self.now.setting.dispatch)
            result.now }
    {
        self.activated.of(point)
    }

    /// The latest moment of a contingent point that has not completed, if its link is active.
    pub(crate) fn latest_of(&self, moments: &Moments, point: PointId) -> Option<u64>
        requires point { point.0 < length self.now.setting.dispatch }
        requires count { length moments.now ≡ length self.now.setting.dispatch }
        ensures { result ≡ latest_of self.now.setting moments.now point }
    {
        if moments.of(point).is_some() {
            return None;
        }
        let link = self.link_to(point)?;
        let activated = moments.of(link.from)?;
        Some(activated + link.high.unsigned_abs())
    }

    /// The moment from which on a point is due, or `None` if it has come or is contingent, or if
    /// that moment isn't fixed yet.
    pub(crate) fn due_from(&self, moments: &Moments, point: PointId) -> Option<u64>
        requires point { point.0 < length self.now.setting.dispatch }
        requires count { length moments.now ≡ length self.now.setting.dispatch }
        ensures { PassesFrom (λ t. is_due self.now.setting moments.now t point) result }
    {
        if self.link_to(point).is_some() {
            return None;
        }
        if moments.of(point).is_some() {
            return None;
        }
        let bounds = bounds_met(moments, self.dispatch.lower_bounds(point))?;
        let waits = waits_met(moments, self.dispatch.links(), self.dispatch.waits(point))?;
        Some(bounds.max(waits))
    }
}
