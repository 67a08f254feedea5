//! What an edit makes of a network: the fault is found first, and then a new network is made of
//! three lists and the delay.

ghost use Rattle.std.specs.Prelude.{◌≡◌, ◌<◌, ◌==◌, ◌||◌, length, IfOk};
ghost use Rattle.std.specs.List.{position, remove, slice_set};
ghost use Rattle.net_model.specs.BuiltNetwork.{with_part};
ghost use Rattle.net_model.specs.EditedNetwork.{Edits, edited, added, user_of, without_point};
ghost use Rattle.net_model.specs.EditedNetwork.{closed_up, closed_up_bounds, closed_up_links};
ghost use Rattle.net_model.specs.Network.{IsPlan, IsPoint, HasPlanNumbers, link_named};

use crate::declarations::Declared;
use crate::edit::{Edit, EditFault, User};
use crate::ids::{BoundId, LinkId, PointId, Weight};
use crate::name::Name;
use crate::network::{Network, is_within_limit};
use crate::part::{Bound, Link, Part, Which};
use std::alloc::{AllocError, Global};

impl Network {
    /// The network that an edit makes of this one, or the first refusal; this one stays as it is.
    /// The refusals of an addition are those of the part that it adds, in their order: see `build`.
    /// Those of the others are tried in this order. `DropPoint`: `UnknownName`, `StillUsed`.
    /// `DropBound`, `DropLink`: `UnknownName`. `SetBound`: `UnknownName`, `Limit(Number)`.
    /// `SetLink`: `UnknownName`, `BadInterval`, `Limit(Number)` of its longest duration. A link is
    /// unknown exactly if no link ends in the point of that name. `OutOfMemory` comes only for want
    /// of memory. What is made has the delay of this one.
    pub fn apply(&self, alloc: Global, edit: &Edit) -> Result<Network, EditFault>
        ensures edited { Edits result (edited self.now edit.now) }
        ensures sound { IfOk result IsPlan }
        ensures numbers { HasPlanNumbers self.now → IfOk result HasPlanNumbers }
    {
        self.changed(alloc, edit)
    }

    fn changed(&self, alloc: Global, edit: &Edit) -> Result<Network, EditFault>
        ensures { Edits result (edited self.now edit.now) }
    {
        match edit {
            Edit::AddPoint(name) => self.with_part(alloc, &Part::Point(*name)),
            Edit::AddBound(name, from, to, most) => {
                self.with_part(alloc, &Part::Bound(*name, *from, *to, *most))
            }
            Edit::AddLink(from, low, high, to) => {
                self.with_part(alloc, &Part::Link(*from, *low, *high, *to))
            }
            Edit::DropPoint(name) => self.without_point(alloc, name),
            Edit::DropBound(name) => self.without_bound(alloc, name),
            Edit::SetBound(name, most) => self.with_number(alloc, name, *most),
            Edit::DropLink(to) => self.without_link(alloc, to),
            Edit::SetLink(to, low, high) => self.with_interval(alloc, to, *low, *high),
        }
    }

    fn with_part(&self, alloc: Global, part: &Part) -> Result<Network, EditFault>
        ensures { Edits result (added (with_part self.now part.now)) }
    {
        let mut declared = Declared::of(
            alloc,
            self.delay,
            self.points(),
            self.bounds(),
            self.links(),
        )?;
        match declared.add(part) {
            Ok(()) => Ok(declared.network(alloc)?),
            Err(fault) => Err(fault.of_edit()),
        }
    }

    fn without_point(&self, alloc: Global, name: &Name) -> Result<Network, EditFault>
        ensures { Edits result (edited self.now (Edit.DropPoint name.now)) }
    {
        let dropped = self.named_point(name).ok_or(EditFault::UnknownName)?;
        match self.user_of(dropped) {
            Some(user) => Err(EditFault::StillUsed(user)),
            None => Ok(self.without_unused(alloc, dropped)?),
        }
    }

    fn without_unused(&self, alloc: Global, dropped: PointId) -> Result<Network, AllocError>
        requires held { IsPoint self.now dropped }
        requires unused { user_of self.now dropped ≡ None }
        ensures { IfOk result (λ net. net ≡ without_point self.now dropped) }
    {
        let points = without(alloc, self.points(), dropped.0 as usize)?;
        let bounds = closed_up_bounds(alloc, self.bounds(), dropped)?;
        let links = closed_up_links(alloc, self.links(), dropped)?;
        self.of_lists(
            alloc,
            points.as_slice(),
            bounds.as_slice(),
            links.as_slice(),
        )
    }

    fn without_bound(&self, alloc: Global, name: &Name) -> Result<Network, EditFault>
        ensures { Edits result (edited self.now (Edit.DropBound name.now)) }
    {
        let id = self.named_bound(name).ok_or(EditFault::UnknownName)?;
        let bounds = without(alloc, self.bounds(), id.0 as usize)?;
        Ok(self.of_lists(alloc, self.points(), bounds.as_slice(), self.links())?)
    }

    fn with_number(&self, alloc: Global, name: &Name, most: Weight) -> Result<Network, EditFault>
        ensures { Edits result (edited self.now (Edit.SetBound name.now most)) }
    {
        let id = self.named_bound(name).ok_or(EditFault::UnknownName)?;
        if !is_within_limit(most) {
            return Err(EditFault::Limit(Which::Number));
        }
        let bound = self.bounds()[id.0 as usize].with_most(most);
        let bounds = replaced(alloc, self.bounds(), id.0 as usize, bound)?;
        Ok(self.of_lists(alloc, self.points(), bounds.as_slice(), self.links())?)
    }

    fn without_link(&self, alloc: Global, to: &Name) -> Result<Network, EditFault>
        ensures { Edits result (edited self.now (Edit.DropLink to.now)) }
    {
        let id = self.named_link(to).ok_or(EditFault::UnknownName)?;
        let links = without(alloc, self.links(), id.0 as usize)?;
        Ok(self.of_lists(alloc, self.points(), self.bounds(), links.as_slice())?)
    }

    fn with_interval(
        &self,
        alloc: Global,
        to: &Name,
        low: Weight,
        high: Weight,
    ) -> Result<Network, EditFault>
        ensures { Edits result (edited self.now (Edit.SetLink to.now low high)) }
    {
        let id = self.named_link(to).ok_or(EditFault::UnknownName)?;
        if low < 1 || high < low {
            return Err(EditFault::BadInterval);
        }
        if !is_within_limit(high) {
            return Err(EditFault::Limit(Which::Number));
        }
        let link = self.links()[id.0 as usize].with_interval(low, high);
        let links = replaced(alloc, self.links(), id.0 as usize, link)?;
        Ok(self.of_lists(alloc, self.points(), self.bounds(), links.as_slice())?)
    }

    /// The link that ends in the point of a name.
    fn named_link(&self, to: &Name) -> Option<LinkId>
        ensures { result ≡ link_named self.now to.now }
    {
        let point = self.named_point(to)?;
        self.activation(point)
    }

    /// The first bound that names a point, else the first link.
    fn user_of(&self, point: PointId) -> Option<User>
        ensures { result ≡ user_of self.now point }
    {
        if let Some(place) = bound_at(self.bounds(), point) {
            return Some(User::Bound(BoundId(place as u32)));
        }
        let place = link_at(self.links(), point)?;
        Some(User::Link(LinkId(place as u32)))
    }
}

/// The place of the first bound that names a point.
fn bound_at(bounds: &[Bound], point: PointId) -> Option<usize>
    ensures { result ≡ position (λ b. b.from.0 == point.0 || b.to.0 == point.0) bounds.now }
{
    bounds
        .iter()
        .position(|bound| bound.from.0 == point.0 || bound.to.0 == point.0)
}

/// The place of the first link that names a point.
fn link_at(links: &[Link], point: PointId) -> Option<usize>
    ensures { result ≡ position (λ l. l.from.0 == point.0 || l.to.0 == point.0) links.now }
{
    links
        .iter()
        .position(|link| link.from.0 == point.0 || link.to.0 == point.0)
}

/// A list without the item at a place: it closes up.
fn without<T: Copy>(alloc: Global, items: &[T], place: usize) -> Result<Vec<T>, AllocError>
    requires { place < length items.now }
    ensures { IfOk result (λ kept. kept.items ≡ remove items.now place) }
{
    let mut kept = Vec::from_slice(alloc, items)?;
    kept.remove(place);
    Ok(kept)
}

/// A list with another item at a place.
fn replaced<T: Copy>(
    alloc: Global,
    items: &[T],
    place: usize,
    item: T,
) -> Result<Vec<T>, AllocError>
    requires { place < length items.now }
    ensures { IfOk result (λ changed. changed.items ≡ slice_set items.now place item) }
{
    let mut changed = Vec::from_slice(alloc, items)?;
    changed[place] = item;
    Ok(changed)
}

/// The number that a point has after one is dropped.
fn closed_up(dropped: PointId, point: PointId) -> PointId
    ensures { result ≡ closed_up dropped point }
{
    if dropped.0 < point.0 {
        PointId(point.0 - 1)
    } else {
        point
    }
}

fn closed_up_bounds(
    alloc: Global,
    bounds: &[Bound],
    dropped: PointId,
) -> Result<Vec<Bound>, AllocError>
    ensures { IfOk result (λ closed. closed.items ≡ closed_up_bounds dropped bounds.now) }
{
    bounds
        .iter()
        .map(|bound| Bound {
            from: closed_up(dropped, bound.from),
            to: closed_up(dropped, bound.to),
            ..*bound
        })
        .collect(alloc)
}

fn closed_up_links(alloc: Global, links: &[Link], dropped: PointId) -> Result<Vec<Link>, AllocError>
    ensures { IfOk result (λ closed. closed.items ≡ closed_up_links dropped links.now) }
{
    links
        .iter()
        .map(|link| Link {
            from: closed_up(dropped, link.from),
            to: closed_up(dropped, link.to),
            ..*link
        })
        .collect(alloc)
}
