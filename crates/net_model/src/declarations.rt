//! What parts declare, while a network is made of it: here names have numbers.

ghost use Rattle.std.specs.Prelude.{◌≡◌, ◌<◌, ◌^◌, ◌≤◌, ◌∷◌, ◌++◌, [], ℕ, List, length, None, IfOk};
ghost use Rattle.std.specs.Prelude.{OnOk, MatchResult};
ghost use Rattle.net_model.specs.Network.{IsPlan, IsPoint, IsBound, IsLink, point_named};
ghost use Rattle.net_model.specs.Network.{bound_named, activation, empty};
ghost use Rattle.net_model.specs.Limits.{most_points, most_links, most_bounds, most_delay};
ghost use Rattle.net_model.specs.BuiltNetwork.{Builds, Adds, Pushes, with_part, with_point};
ghost use Rattle.net_model.specs.BuiltNetwork.{with_bound, with_link, with_link_between};
ghost use Rattle.net_model.specs.BuiltNetwork.{with_parts, named};

use crate::fault::{BuildFault, PartFault};
use crate::ids::{BoundId, LinkId, PointId, Weight};
use crate::limits::{MOST_BOUNDS, MOST_LINKS, MOST_POINTS};
use crate::name::Name;
use crate::name_index::index_of;
use crate::network::{Network, is_within_limit};
use crate::part::{Bound, Link, Part, Which};
use indexmap::IndexSet;
use std::alloc::{AllocError, Global};
use std::marker::Model;

/// What was declared up to now. The order of a set is the order of declaration, so the place of a
/// name in it is its number; the hasher has a fixed seed. No other crate sees these sets: a network
/// that is made has lists alone.
#[derive(Drop)]
pub(crate) struct Declared {
    points: IndexSet<Name>,
    bound_names: IndexSet<Name>,
    bounds: Vec<Bound>,
    links: Vec<Link>,
    ending: Vec<Option<LinkId>>,
    delay: u32,
}

impl Model for Declared {
    ghost use Rattle.net_model.specs.Network.{Plan};

    ghost Value = { Plan };

    ghost use Rattle.net_model.specs.Declarations.{plan_declared, IsDeclared};

    ghost view = { plan_declared };

    ghost invariant = { IsDeclared };
}

impl Declared {
    /// Nothing yet, with a delay.
    pub(crate) fn empty(alloc: Global, moments: u32) -> Declared
        requires { moments ≤ most_delay }
        ensures { result ≡ record empty { delay = moments } }
    {
        Declared {
            points: IndexSet::new(alloc),
            bound_names: IndexSet::new(alloc),
            bounds: Vec::new(alloc),
            links: Vec::new(alloc),
            ending: Vec::new(alloc),
            delay: moments,
        }
    }

    /// What three lists declare, with a delay. `AllocError` comes only for want of memory.
    pub(crate) fn of(
        alloc: Global,
        moments: u32,
        points: &[Name],
        bounds: &[Bound],
        links: &[Link],
    ) -> Result<Declared, AllocError>
        requires { IsPlan (record {
          points = points.now;
          bounds = bounds.now;
          links = links.now;
          delay = moments;
        }) }
        ensures { IfOk result (λ declared. declared ≡ record {
          points = points.now;
          bounds = bounds.now;
          links = links.now;
          delay = moments;
        }) }
    {
        let mut declared = Declared::empty(alloc, moments);
        match declared.fill(points, bounds, links) {
            Ok(()) => Ok(declared),
            Err(error) => Err(error),
        }
    }

    /// The network of what was declared. `AllocError` comes only for want of memory.
    pub(crate) fn network(self, alloc: Global) -> Result<Network, AllocError>
        ensures { IfOk result (λ net. net ≡ self) }
    {
        let point_index = index_of(alloc, self.points.as_slice())?;
        let bound_index = index_of(alloc, self.bounds.as_slice())?;
        let points = Vec::from_slice(alloc, self.points.as_slice())?;
        let Declared {
            points: _points,
            bound_names: _bound_names,
            bounds,
            links,
            ending,
            delay,
        } = self;
        Ok(Network {
            points,
            bounds,
            links,
            point_index,
            bound_index,
            ending,
            delay,
        })
    }

    fn named_point(&self, name: &Name) -> Option<PointId>
        ensures { result ≡ point_named self.now name.now }
    {
        let place = self.points.get_index_of(name)?;
        Some(PointId(place as u32))
    }

    fn named_bound(&self, name: &Name) -> Option<BoundId>
        ensures { result ≡ bound_named self.now name.now }
    {
        let place = self.bound_names.get_index_of(name)?;
        Some(BoundId(place as u32))
    }

    fn activation(&self, point: PointId) -> Option<LinkId>
        requires { IsPoint self.now point }
        ensures { result ≡ activation self.now point }
    {
        self.ending[point.0 as usize]
    }

    fn known_point(&self, name: &Name) -> Result<PointId, PartFault>
        ensures { result ≡ named self.now name.now }
    {
        self.named_point(name).ok_or(PartFault::UnknownName)
    }

    /// Adds parts, one after another, up to the first that is refused.
    pub(crate) fn add_all(&mut self, parts: &[Part]) -> Result<(), BuildFault>
        requires { length parts.now < 2 ^ 32 }
        ensures { MatchResult result (λ _. with_parts 0 self.old parts.now ≡ Ok self.new)
            (λ fault. Builds (Err fault) (with_parts 0 self.old parts.now)) }
    {
        let mut place = 0;
        for part in parts {
            place += 1;
            if let Err(fault) = self.add(part) {
                return Err(fault.at(place));
            }
        }
        Ok(())
    }

    /// Adds one more part. A refusal and want of memory change nothing.
    pub(crate) fn add(&mut self, part: &Part) -> Result<(), PartFault>
        ensures { Adds self.old self.new result (with_part self.old part.now) }
    {
        match part {
            Part::Point(name) => self.add_point(name),
            Part::Bound(name, from, to, most) => self.add_bound(name, from, to, *most),
            Part::Link(from, low, high, to) => self.add_link(from, *low, *high, to),
        }
    }

    #[tactic(auto, unfolding(crate::specs::BuiltNetwork::with_point))]
    fn add_point(&mut self, name: &Name) -> Result<(), PartFault>
        ensures { Adds self.old self.new result (with_point self.old name.now) }
    {
        if self.named_point(name).is_some() {
            return Err(PartFault::DuplicateName);
        }
        if self.points.len() >= MOST_POINTS {
            return Err(PartFault::Limit(Which::Points));
        }
        self.push_point(name)?;
        Ok(())
    }

    #[tactic(auto, unfolding(crate::specs::BuiltNetwork::with_bound))]
    fn add_bound(
        &mut self,
        name: &Name,
        from: &Name,
        to: &Name,
        most: Weight,
    ) -> Result<(), PartFault>
        ensures { Adds self.old self.new result
            (with_bound self.old name.now from.now to.now most) }
    {
        if self.named_bound(name).is_some() {
            return Err(PartFault::DuplicateName);
        }
        let from = self.known_point(from)?;
        let to = self.known_point(to)?;
        if !is_within_limit(most) {
            return Err(PartFault::Limit(Which::Number));
        }
        if self.bounds.len() >= MOST_BOUNDS {
            return Err(PartFault::Limit(Which::Bounds));
        }
        name.sound();
        self.push_bound(Bound {
            name: *name,
            from,
            to,
            most,
        })?;
        Ok(())
    }

    #[tactic(auto, unfolding(crate::specs::BuiltNetwork::with_link))]
    fn add_link(
        &mut self,
        from: &Name,
        low: Weight,
        high: Weight,
        to: &Name,
    ) -> Result<(), PartFault>
        ensures { Adds self.old self.new result (with_link self.old from.now low high to.now) }
    {
        let from = self.known_point(from)?;
        let to = self.known_point(to)?;
        self.add_link_between(from, low, high, to)
    }

    /// Adds a link between two points.
    fn add_link_between(
        &mut self,
        from: PointId,
        low: Weight,
        high: Weight,
        to: PointId,
    ) -> Result<(), PartFault>
        requires from { IsPoint self.old from }
        requires to { IsPoint self.old to }
        ensures { Adds self.old self.new result (with_link_between self.old from low high to) }
    {
        if from == to {
            return Err(PartFault::LinkToItself);
        }
        if self.activation(to).is_some() {
            return Err(PartFault::TwoLinksOnPoint);
        }
        if low < 1 || high < low {
            return Err(PartFault::BadInterval);
        }
        if !is_within_limit(high) {
            return Err(PartFault::Limit(Which::Number));
        }
        if self.links.len() >= MOST_LINKS {
            return Err(PartFault::Limit(Which::Links));
        }
        self.push_link(Link {
            from,
            low,
            high,
            to,
        })?;
        Ok(())
    }

    /// Capacity is reserved first, so that want of memory changes nothing.
    fn push_point(&mut self, name: &Name) -> Result<(), AllocError>
        requires not_taken { point_named self.old name.now ≡ None }
        requires spare_capacity { length self.old.points < most_points }
        ensures { Pushes self.old self.new result
            (record self.old { points = self.old.points ++ name.now ∷ [] }) }
    {
        name.sound();
        self.ending.reserve(1)?;
        self.points.insert(*name)?;
        self.ending.push_reserved(None);
        Ok(())
    }

    fn push_bound(&mut self, bound: Bound) -> Result<(), AllocError>
        requires not_taken { bound_named self.old bound.name ≡ None }
        requires spare_capacity { length self.old.bounds < most_bounds }
        requires sound { IsBound self.old bound }
        ensures { Pushes self.old self.new result
            (record self.old { bounds = self.old.bounds ++ bound ∷ [] }) }
    {
        self.bounds.reserve(1)?;
        self.bound_names.insert(bound.name)?;
        self.bounds.push_reserved(bound);
        Ok(())
    }

    fn push_link(&mut self, link: Link) -> Result<(), AllocError>
        requires not_taken { activation self.old link.to ≡ None }
        requires spare_capacity { length self.old.links < most_links }
        requires sound { IsLink self.old link }
        ensures { Pushes self.old self.new result
            (record self.old { links = self.old.links ++ link ∷ [] }) }
    {
        self.links.reserve(1)?;
        let id = LinkId(self.links.len() as u32);
        self.links.push_reserved(link);
        self.ending[link.to.0 as usize] = Some(id);
        Ok(())
    }

    fn fill(&mut self, points: &[Name], bounds: &[Bound], links: &[Link]) -> Result<(), AllocError>
        requires empty { self.old ≡ record empty { delay = self.old.delay } }
        requires sound { IsPlan (record {
          points = points.now;
          bounds = bounds.now;
          links = links.now;
          delay = self.old.delay;
        }) }
        ensures { OnOk result (self.new ≡ record {
          points = points.now;
          bounds = bounds.now;
          links = links.now;
          delay = self.old.delay;
        }) }
    {
        self.push_points(points)?;
        self.push_bounds(bounds)?;
        self.push_links(links)
    }

    fn push_points(&mut self, points: &[Name]) -> Result<(), AllocError>
        requires { IsPlan (record self.old { points = self.old.points ++ points.now }) }
        ensures { OnOk result (self.new ≡ record self.old {
          points =
              self.old.points ++ points.now;
        }) }
    {
        for name in points {
            self.push_point(name)?;
        }
        Ok(())
    }

    fn push_bounds(&mut self, bounds: &[Bound]) -> Result<(), AllocError>
        requires { IsPlan (record self.old { bounds = self.old.bounds ++ bounds.now }) }
        ensures { OnOk result (self.new ≡ record self.old {
          bounds =
              self.old.bounds ++ bounds.now;
        }) }
    {
        for bound in bounds {
            self.push_bound(*bound)?;
        }
        Ok(())
    }

    fn push_links(&mut self, links: &[Link]) -> Result<(), AllocError>
        requires { IsPlan (record self.old { links = self.old.links ++ links.now }) }
        ensures { OnOk result (self.new ≡ record self.old { links = self.old.links ++ links.now }) }
    {
        for link in links {
            self.push_link(*link)?;
        }
        Ok(())
    }
}
