//! A temporal network with uncertainty: its three lists and its delay, and what they contain.

ghost use Rattle.std.specs.Prelude.{◌≡◌, ◌<◌, ◌^◌, ◌↔◌, ◌==◌, ◌≤◌, [], ◌∷◌, ◌++◌, length, fold};
ghost use Rattle.std.specs.Prelude.{map, filter, max, unsigned_abs, pos, ◌≤ℤ◌, IfOk, IsTrue};
ghost use Rattle.std.specs.Prelude.{MatchResult};
ghost use Rattle.std.specs.List.{enumerate_from};
ghost use Rattle.net_model.specs.Network.{IsPlan, IsPoint, IsContingent, IsBound, IsLink};
ghost use Rattle.net_model.specs.Network.{point_named, bound_named, activation, links_from};
ghost use Rattle.net_model.specs.Network.{greatest, empty, HasPlanNumbers};
ghost use Rattle.net_model.specs.NetworkParts.{point_name};
ghost use Rattle.net_model.specs.Limits.{most_points, most_links, most_bounds, most_delay};
ghost use Rattle.net_model.specs.Limits.{within_limit};
ghost use Rattle.net_model.specs.BuiltNetwork.{Builds, Adds, Pushes, built, with_part, with_point};
ghost use Rattle.net_model.specs.BuiltNetwork.{with_bound, with_link, with_link_between};
ghost use Rattle.net_model.specs.BuiltNetwork.{with_parts, named};

use crate::declarations::Declared;
use crate::fault::BuildFault;
use crate::ids::{BoundId, LinkId, PointId, Weight};
use crate::limits::MOST_NUMBER;
use crate::name::Name;
use crate::name_index::{KeyedPlace, place_of};
use crate::part::{Bound, Link, Part};
use std::alloc::{AllocError, Global};
use std::marker::Model;

/// A temporal network with uncertainty (Morris, Muscettola and Vidal 2001): points, bounds `to -
/// from <= most`, and contingent links, each list in the order of declaration, and a delay, how
/// many moments after it happened a completion is shown. Contracts see it as its three lists and
/// its delay. Its calls take no memory unless their answer may be a fault.
#[derive(Debug, Drop)]
pub struct Network {
    pub(crate) points: Vec<Name>,
    pub(crate) bounds: Vec<Bound>,
    pub(crate) links: Vec<Link>,
    pub(crate) point_index: Vec<KeyedPlace>,
    pub(crate) bound_index: Vec<KeyedPlace>,
    pub(crate) ending: Vec<Option<LinkId>>,
    pub(crate) delay: u32,
}

impl Model for Network {
    ghost use Rattle.net_model.specs.Network.{Plan};

    ghost Value = { Plan };

    ghost use Rattle.net_model.specs.StoredNetwork.{plan_of, IsStored};

    ghost view = { plan_of };

    ghost invariant = { IsStored };
}

impl Network {
    /// The network that a list of parts declares, in their order, or the first part that is
    /// refused; its delay is 0. The refusals of a part are tried in this order. A point:
    /// `DuplicateName`, `Limit(Points)`. A bound: `DuplicateName`, `UnknownName` of its from and
    /// then of its to, `Limit(Number)`, `Limit(Bounds)`. A link: `UnknownName` of its from and then
    /// of its to, `LinkToItself`, `TwoLinksOnPoint`, `BadInterval`, `Limit(Number)` of its longest
    /// duration, `Limit(Links)`. A limit on a count comes exactly if the list already has its
    /// greatest length. The fault has the place of the part, from 1; there are fewer than 2^32.
    /// `OutOfMemory` comes only for want of memory, and then nothing was made.
    pub fn build(alloc: Global, parts: &[Part]) -> Result<Network, BuildFault>
        requires { length parts.now < 2 ^ 32 }
        ensures built { Builds result (built parts.now) }
        ensures sound { IfOk result IsPlan }
        ensures numbers { IfOk result HasPlanNumbers }
        ensures no_delay { IfOk result (λ net. net.delay ≡ 0) }
    {
        let mut declared = Declared::empty(alloc, 0);
        declared.add_all(parts)?;
        let net = declared.network(alloc)?;
        net.sound();
        Ok(net)
    }

    /// Every network is sound. This does nothing: a body calls it if its proof needs the law.
    pub fn sound(&self)
        ensures { IsPlan self.now }
    {
        let _ = &self.points;
    }

    /// The points by their names; the number of a point is its place.
    pub fn points(&self) -> &[Name]
        ensures points { result.now ≡ self.now.points }
        ensures sound { IsPlan self.now }
    {
        self.points.as_slice()
    }

    /// The name of a point.
    pub fn point_name(&self, point: PointId) -> &Name
        requires { IsPoint self.now point }
        ensures { result.now ≡ point_name self.now.points point }
    {
        &self.points()[point.0 as usize]
    }

    /// The bounds; the number of a bound is its place.
    pub fn bounds(&self) -> &[Bound]
        ensures bounds { result.now ≡ self.now.bounds }
        ensures sound { IsPlan self.now }
    {
        self.bounds.as_slice()
    }

    /// The links; the number of a link is its place.
    pub fn links(&self) -> &[Link]
        ensures links { result.now ≡ self.now.links }
        ensures sound { IsPlan self.now }
    {
        self.links.as_slice()
    }

    /// The delay, in whole moments, from 0 to `MOST_DELAY`.
    pub fn delay(&self) -> Weight
        ensures delay { result ≡ pos self.now.delay }
        ensures sound { IsPlan self.now }
    {
        Weight::from(self.delay)
    }

    /// The same network with a delay of so many moments, 0 to `MOST_DELAY`; its numbers are at most
    /// `MOST_NUMBER` in size, as those of a built network are. It takes no memory.
    pub fn with_delay(mut self, moments: Weight) -> Network
        requires from_nought { pos 0 ≤ℤ moments }
        requires short { moments ≤ℤ pos most_delay }
        requires numbers { HasPlanNumbers self }
        ensures { result ≡ record self { delay = unsigned_abs moments } }
    {
        self.sound();
        self.delay = moments as u32;
        self
    }

    /// The point of a name, or `None` exactly if no point has it.
    pub fn point(&self, name: &[u8]) -> Option<PointId>
        ensures { result ≡ point_named self.now name.now }
    {
        self.sound();
        let name = Name::from_text(name)?;
        self.named_point(&name)
    }

    /// The bound of a name, or `None` exactly if no bound has it.
    pub fn bound(&self, name: &[u8]) -> Option<BoundId>
        ensures { result ≡ bound_named self.now name.now }
    {
        self.sound();
        let name = Name::from_text(name)?;
        self.named_bound(&name)
    }

    /// The link that ends in a point of the network, or `None` exactly if none does.
    pub fn activation(&self, point: PointId) -> Option<LinkId>
        requires { IsPoint self.now point }
        ensures { result ≡ activation self.now point }
    {
        self.ending[point.0 as usize]
    }

    /// Whether a link ends in a point of the network.
    pub fn is_contingent(&self, point: PointId) -> bool
        requires { IsPoint self.now point }
        ensures { IsTrue result ↔ IsContingent self.now point }
    {
        self.activation(point).is_some()
    }

    /// The greatest size of a number of the network, in whole moments, or 0 if it has none.
    pub fn greatest(&self) -> Weight
        ensures { result ≡ pos (greatest self.now) }
    {
        let bounds = greatest_bound(self.bounds.as_slice());
        let links = greatest_link(self.links.as_slice());
        bounds.max(links) as i64
    }

    /// The links that begin in a point of the network, in order. `AllocError` comes only for want
    /// of memory.
    pub fn links_from(&self, alloc: Global, point: PointId) -> Result<Vec<LinkId>, AllocError>
        requires { IsPoint self.now point }
        ensures { IfOk result (λ links. links.items ≡ links_from self.now point) }
    {
        links_from(alloc, self.links.as_slice(), point)
    }

    pub(crate) fn named_point(&self, name: &Name) -> Option<PointId>
        ensures { result ≡ point_named self.now name.now }
    {
        let place = place_of(self.points.as_slice(), self.point_index.as_slice(), name)?;
        Some(PointId(place))
    }

    pub(crate) fn named_bound(&self, name: &Name) -> Option<BoundId>
        ensures { result ≡ bound_named self.now name.now }
    {
        let place = place_of(self.bounds.as_slice(), self.bound_index.as_slice(), name)?;
        Some(BoundId(place))
    }
}

pub(crate) fn is_within_limit(number: Weight) -> bool
    ensures { result ≡ within_limit number }
{
    number.unsigned_abs() <= MOST_NUMBER
}

fn greatest_bound(bounds: &[Bound]) -> u64
    ensures { result ≡ fold (λ most b. max most (unsigned_abs b.most)) 0 bounds.now }
{
    bounds
        .iter()
        .fold(0, |most, bound| most.max(bound.most.unsigned_abs()))
}

fn greatest_link(links: &[Link]) -> u64
    ensures { result ≡ fold (λ most l. max most (unsigned_abs l.high)) 0 links.now }
{
    links
        .iter()
        .fold(0, |most, link| most.max(link.high.unsigned_abs()))
}

fn links_from(alloc: Global, links: &[Link], point: PointId) -> Result<Vec<LinkId>, AllocError>
    requires { length links.now ≤ most_links }
    ensures { IfOk result (λ found. found.items ≡ map (λ l. record { 0 = l.0 })
        (filter (λ l. l.1.from.0 == point.0) (enumerate_from 0 links.now))) }
{
    let mut found = Vec::new(alloc);
    for (place, link) in links.iter().enumerate() {
        if link.from == point {
            found.push(LinkId(place as u32))?;
        }
    }
    Ok(found)
}
