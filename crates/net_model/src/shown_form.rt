//! The shown form of a network with a delay: the network without a delay in which each contingent
//! point stands for the moment at which its completion is shown.

ghost use Rattle.std.specs.Prelude.{◌≡◌, ◌<◌, ◌≤◌, length, map, Some, slice_get, IfOk};
ghost use Rattle.std.specs.List.{All};
ghost use Rattle.std.specs.Option.{option_map};
ghost use Rattle.net_model.specs.Limits.{most_size};
ghost use Rattle.net_model.specs.Network.{IsPlan, IsPoint, IsBound, IsLink};
ghost use Rattle.net_model.specs.Rules.{bound_edge};
ghost use Rattle.net_model.specs.ShownForm.{lag, gain, shown_bound, shown_link, shown_form};
ghost use Rattle.net_model.specs.ShownForm.{shown_situation, shown_durations};

use crate::edges::bound_edge;
use crate::ids::{BoundId, LinkId, PointId, Weight};
use crate::network::Network;
use crate::part::{Bound, Edge, Link};
use std::alloc::{AllocError, Global};

impl Network {
    /// The edge of a bound, as it is in the shown form. It takes no memory.
    pub fn shown_bound(&self, id: BoundId) -> Edge
        requires { id.0 < length self.now.bounds }
        ensures { option_map bound_edge (slice_get (shown_form self.now).bounds id.0) ≡ Some
            result }
    {
        bound_edge(&self.bound_as_shown(&self.bounds()[id.0 as usize]))
    }

    /// A link, as it is in the shown form. It takes no memory.
    pub fn shown_link(&self, id: LinkId) -> Link
        requires { id.0 < length self.now.links }
        ensures { slice_get (shown_form self.now).links id.0 ≡ Some result }
    {
        self.link_as_shown(&self.links()[id.0 as usize])
    }

    /// The shown form: the same points and a delay of 0. A link whose activation is executable
    /// takes the delay longer. A bound to a contingent point is by the delay looser, one from a
    /// contingent point by the delay tighter, so one between two of them stays. Its numbers exceed
    /// the greatest of the network by the delay at most (`law_shown_numbers_are_near`).
    /// `AllocError` comes only for want of memory.
    pub fn shown(&self, alloc: Global) -> Result<Network, AllocError>
        ensures { IfOk result (λ net. net ≡ shown_form self.now) }
    {
        let bounds = self.shown_bounds(alloc)?;
        let links = self.shown_links(alloc)?;
        Network::instant(alloc, self.points(), bounds.as_slice(), links.as_slice())
    }

    /// A situation as it is in the shown form: one duration for each link, of at most 2,000,000,000
    /// moments (`most_size`), by the delay longer if the link's activation is executable.
    /// `AllocError` comes only for want of memory.
    pub fn shown_situation(&self, alloc: Global, situation: &[u64]) -> Result<Vec<u64>, AllocError>
        requires each { length situation.now ≡ length self.now.links }
        requires small { All (λ duration. duration ≤ most_size) situation.now }
        ensures { IfOk result (λ shown. shown.items ≡ shown_situation self.now situation.now) }
    {
        let mut shown = Vec::new(alloc);
        for k in 0..self.links().len() {
            let gain = self.gain(&self.links()[k]);
            shown.push(situation[k] + u64::from(gain))?;
        }
        Ok(shown)
    }

    /// How long after its moment a point is shown.
    fn lag(&self, point: PointId) -> u32
        requires { IsPoint self.now point }
        ensures { result ≡ lag self.now point }
    {
        if self.is_contingent(point) {
            self.delay
        } else {
            0
        }
    }

    /// What the durations of a link gain.
    fn gain(&self, link: &Link) -> u32
        requires { IsPoint self.now link.now.from }
        ensures { result ≡ gain self.now link.now }
    {
        if self.is_contingent(link.from) {
            0
        } else {
            self.delay
        }
    }

    fn bound_as_shown(&self, bound: &Bound) -> Bound
        requires { IsBound self.now bound.now }
        ensures { result ≡ shown_bound self.now bound.now }
    {
        let to = Weight::from(self.lag(bound.to));
        let from = Weight::from(self.lag(bound.from));
        bound.with_most(bound.most + to - from)
    }

    fn link_as_shown(&self, link: &Link) -> Link
        requires { IsLink self.now link.now }
        ensures { result ≡ shown_link self.now link.now }
    {
        let gain = Weight::from(self.gain(link));
        link.with_interval(link.low + gain, link.high + gain)
    }

    fn shown_bounds(&self, alloc: Global) -> Result<Vec<Bound>, AllocError>
        ensures { IfOk result (λ bounds. bounds.items ≡ (shown_form self.now).bounds) }
    {
        let mut bounds = Vec::new(alloc);
        for bound in self.bounds() {
            bounds.push(self.bound_as_shown(bound))?;
        }
        Ok(bounds)
    }

    fn shown_links(&self, alloc: Global) -> Result<Vec<Link>, AllocError>
        ensures { IfOk result (λ links. links.items ≡ (shown_form self.now).links) }
    {
        let mut links = Vec::new(alloc);
        for link in self.links() {
            links.push(self.link_as_shown(link))?;
        }
        Ok(links)
    }
}
