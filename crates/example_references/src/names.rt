//! What stands under the same name before and after an edit.

ghost use Rattle.std.specs.Prelude.{◌≡◌};
ghost use Rattle.edit_laws.specs.KeptLists.{moved_label, moved_edge};
ghost use Rattle.edit_laws.specs.EditNumbers.{sets_bound, sets_link, point_in, is_point};
ghost use Rattle.edit_laws.specs.EditNumbers.{is_same_bound, is_same_link, same_place};
ghost use Rattle.edit_laws.specs.EditNumbers.{same_link_place, bound_in, link_in, is_new_bound};
ghost use Rattle.edit_laws.specs.EditNumbers.{is_new_link};
ghost use Rattle.example_references.specs.Marks.{numbers, link_before_edit, is_new_base};

use crate::edited_network::Edited;
use closure_model::Rule;
use net_model::{Bound, BoundId, Edge, Edit, Link, LinkId, Name, Network, PointId};

impl<'a> Edited<'a> {
    fn point_in(&self, point: PointId) -> Option<PointId>
        ensures { result ≡ point_in self.now.before.now self.now.after.now point }
    {
        let name = self.before.points().get(point.0 as usize)?;
        self.after.point(name.bytes())
    }

    fn is_at(&self, point: PointId, other: PointId) -> bool
        ensures { result ≡ is_point (point_in self.now.before.now self.now.after.now point) other }
    {
        match self.point_in(point) {
            Some(found) => found.0 == other.0,
            None => false,
        }
    }

    fn is_same_bound(&self, bound: &Bound, other: &Bound) -> bool
        ensures { result ≡ is_same_bound self.now.before.now self.now.after.now bound.now
            other.now }
    {
        self.is_at(bound.from, other.from)
            && self.is_at(bound.to, other.to)
            && bound.most == other.most
    }

    fn is_same_link(&self, link: &Link, other: &Link) -> bool
        ensures { result ≡ is_same_link self.now.before.now self.now.after.now link.now other.now }
    {
        self.is_at(link.from, other.from) && link.low == other.low && link.high == other.high
    }

    fn same_place(&self, bound: &Bound, place: BoundId) -> Option<BoundId>
        ensures { result ≡ same_place self.now.before.now self.now.after.now bound.now place }
    {
        let other = self.after.bounds().get(place.0 as usize)?;
        if self.is_same_bound(bound, other) {
            Some(place)
        } else {
            None
        }
    }

    fn bound_in(&self, bound: &Bound) -> Option<BoundId>
        ensures { result ≡ bound_in self.now.before.now self.now.edit.now self.now.after.now
            bound.now }
    {
        if sets_bound(self.edit, &bound.name) {
            return None;
        }
        let place = self.after.bound(bound.name.bytes())?;
        self.same_place(bound, place)
    }

    fn same_link_place(&self, link: &Link, place: LinkId) -> Option<LinkId>
        ensures { result ≡ same_link_place self.now.before.now self.now.after.now link.now place }
    {
        let other = self.after.links().get(place.0 as usize)?;
        if self.is_same_link(link, other) {
            Some(place)
        } else {
            None
        }
    }

    fn link_in(&self, link: &Link) -> Option<LinkId>
        ensures { result ≡ link_in self.now.before.now self.now.edit.now self.now.after.now
            link.now }
    {
        let to = self.before.points().get(link.to.0 as usize)?;
        if sets_link(self.edit, to) {
            return None;
        }
        let point = self.point_in(link.to)?;
        let place = self.after.activation(point)?;
        self.same_link_place(link, place)
    }

    /// The number that a bound has after the edit, if it is not taken away.
    pub(crate) fn bound(&self, id: BoundId) -> Option<BoundId>
        ensures { result ≡ (numbers self.now).bounds id }
    {
        self.bound_in(self.before.bounds().get(id.0 as usize)?)
    }

    /// The number that a link has after the edit, if it is not taken away.
    pub(crate) fn link(&self, id: LinkId) -> Option<LinkId>
        ensures { result ≡ (numbers self.now).links id }
    {
        self.link_in(self.before.links().get(id.0 as usize)?)
    }

    fn point(&self, point: PointId) -> PointId
        ensures { result ≡ (numbers self.now).points point }
    {
        self.point_in(point).unwrap_or(point)
    }

    fn label(&self, label: LinkId) -> LinkId
        ensures { result ≡ moved_label (numbers self.now) label }
    {
        self.link(label).unwrap_or(label)
    }

    /// An edge with the numbers after the edit.
    pub(crate) fn edge(&self, edge: &Edge) -> Edge
        ensures { result ≡ moved_edge (numbers self.now) edge.now }
    {
        let label = match edge.label {
            Some(label) => Some(self.label(label)),
            None => None,
        };
        Edge {
            from: self.point(edge.from),
            to: self.point(edge.to),
            label,
            weight: edge.weight,
        }
    }

    /// Whether a base node after the edit is that of a new bound or of a new link.
    pub(crate) fn is_new_base(&self, rule: &Rule) -> bool
        ensures { result ≡ is_new_base self.now rule.now }
    {
        match rule {
            Rule::Bound(id) => match self.after.bounds().get(id.0 as usize) {
                Some(bound) => self.is_new_bound(bound),
                None => false,
            },
            Rule::Link(id) => match self.after.links().get(id.0 as usize) {
                Some(link) => self.is_new_link(link),
                None => false,
            },
            _ => false,
        }
    }

    fn is_new_bound(&self, bound: &Bound) -> bool
        ensures { result ≡ is_new_bound self.now.before.now self.now.edit.now self.now.after.now
            bound.now }
    {
        match self.before.bound(bound.name.bytes()) {
            Some(id) => self.bound(id).is_none(),
            None => true,
        }
    }

    fn is_new_link(&self, link: &Link) -> bool
        ensures { result ≡ is_new_link self.now.before.now self.now.edit.now self.now.after.now
            link.now }
    {
        self.link_before_edit(link).is_none()
    }

    fn link_before_edit(&self, link: &Link) -> Option<LinkId>
        ensures { result ≡ link_before_edit self.now link.now }
    {
        let name = self.after.points().get(link.to.0 as usize)?;
        let point = self.before.point(name.bytes())?;
        self.link(self.before.activation(point)?)
    }
}

fn sets_bound(edit: &Edit, bound: &Name) -> bool
    ensures { result ≡ sets_bound edit.now bound.now }
{
    match edit {
        Edit::SetBound(name, _) => name == bound,
        _ => false,
    }
}

fn sets_link(edit: &Edit, to: &Name) -> bool
    ensures { result ≡ sets_link edit.now to.now }
{
    match edit {
        Edit::SetLink(name, _, _) => name == to,
        _ => false,
    }
}
