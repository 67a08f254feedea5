//! What stands under the same name in an edited network.

ghost use Rattle.std.specs.Prelude.{◌≡◌};
ghost use Rattle.edit_laws.specs.EditNumbers.{sets_bound, sets_link, is_same_bound, is_same_link};
ghost use Rattle.edit_laws.specs.EditNumbers.{bound_in, link_in};

use crate::points::Points;
use net_model::{Bound, BoundId, Edit, Link, LinkId, Name};

fn sets_bound(edit: &Edit, bound: &Name) -> bool
    ensures { result ≡ sets_bound edit.now bound.now }
{
    match edit {
        Edit::SetBound(name, _) => name == bound,
        _ => false,
    }
}

fn sets_link(edit: &Edit, to: &Name) -> bool
    ensures { result ≡ sets_link edit.now to.now }
{
    match edit {
        Edit::SetLink(name, _, _) => name == to,
        _ => false,
    }
}

fn is_same_bound(points: &Points, bound: &Bound, other: &Bound) -> bool
    ensures { result ≡ is_same_bound points.now.old.now points.now.new.now bound.now other.now }
{
    points.point_in(bound.from) == Some(other.from)
        && points.point_in(bound.to) == Some(other.to)
        && bound.most == other.most
}

fn is_same_link(points: &Points, link: &Link, other: &Link) -> bool
    ensures { result ≡ is_same_link points.now.old.now points.now.new.now link.now other.now }
{
    points.point_in(link.from) == Some(other.from)
        && link.low == other.low
        && link.high == other.high
}

/// The number that a bound has in the edited network, if it is not taken away.
pub(crate) fn bound_in(points: &Points, edit: &Edit, bound: &Bound) -> Option<BoundId>
    ensures { result ≡ bound_in points.now.old.now edit.now points.now.new.now bound.now }
{
    if sets_bound(edit, &bound.name) {
        return None;
    }
    let place = points.new.bound(bound.name.bytes())?;
    let other = points.new.bounds().get(place.0 as usize)?;
    if is_same_bound(points, bound, other) {
        Some(place)
    } else {
        None
    }
}

/// The number that a link has in the edited network, if it is not taken away.
pub(crate) fn link_in(points: &Points, edit: &Edit, link: &Link) -> Option<LinkId>
    ensures { result ≡ link_in points.now.old.now edit.now points.now.new.now link.now }
{
    let to = points.old.points().get(link.to.0 as usize)?;
    if sets_link(edit, to) {
        return None;
    }
    let point = points.point_in(link.to)?;
    let place = points.new.activation(point)?;
    let other = points.new.links().get(place.0 as usize)?;
    if is_same_link(points, link, other) {
        Some(place)
    } else {
        None
    }
}
