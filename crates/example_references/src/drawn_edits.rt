//! Drawn edits.

use crate::drawn_networks::Draws;
use net_model::{Edit, Name, Network};

/// How many kinds of edits there are.
pub(crate) const KINDS: usize = 8;

/// The place of the kind of an edit among all kinds.
pub(crate) fn kind(edit: &Edit) -> usize {
    match edit {
        Edit::AddPoint(_) => 0,
        Edit::DropPoint(_) => 1,
        Edit::AddBound(..) => 2,
        Edit::DropBound(_) => 3,
        Edit::SetBound(..) => 4,
        Edit::AddLink(..) => 5,
        Edit::DropLink(_) => 6,
        Edit::SetLink(..) => 7,
    }
}

/// An edit of any kind: what it adds has a name that is given, and all else that it names is in the
/// network. None if the network has nothing of the kind.
pub(crate) fn drawn_edit(draws: &mut Draws, net: &Network, new: Name) -> Option<Edit> {
    match draws.draw(3) {
        0 => addition(draws, net, new),
        1 => removal(draws, net),
        _ => change(draws, net),
    }
}

fn addition(draws: &mut Draws, net: &Network, new: Name) -> Option<Edit> {
    match draws.draw(3) {
        0 => Some(Edit::AddPoint(new)),
        1 => Some(Edit::AddBound(new, point(draws, net)?, point(draws, net)?, most(draws))),
        _ => {
            let (low, high) = interval(draws);
            Some(Edit::AddLink(point(draws, net)?, low, high, point(draws, net)?))
        }
    }
}

fn removal(draws: &mut Draws, net: &Network) -> Option<Edit> {
    match draws.draw(4) {
        0 => Some(Edit::DropBound(bound(draws, net)?)),
        1 => Some(Edit::DropLink(end(draws, net)?)),
        _ => Some(Edit::DropPoint(point(draws, net)?)),
    }
}

fn change(draws: &mut Draws, net: &Network) -> Option<Edit> {
    if draws.draw(2) == 0 {
        Some(Edit::SetBound(bound(draws, net)?, most(draws)))
    } else {
        let (low, high) = interval(draws);
        Some(Edit::SetLink(end(draws, net)?, low, high))
    }
}

fn point(draws: &mut Draws, net: &Network) -> Option<Name> {
    let points = net.points();
    let place = draws.draw(points.len() as u64);
    points.get(place as usize).copied()
}

fn bound(draws: &mut Draws, net: &Network) -> Option<Name> {
    let bounds = net.bounds();
    let place = draws.draw(bounds.len() as u64);
    Some(bounds.get(place as usize)?.name)
}

/// The point in which a link ends.
fn end(draws: &mut Draws, net: &Network) -> Option<Name> {
    let links = net.links();
    let place = draws.draw(links.len() as u64);
    let link = links.get(place as usize)?;
    net.points().get(link.to.0 as usize).copied()
}

/// The number of a bound, of which about a third are below 0.
fn most(draws: &mut Draws) -> i64 {
    number(draws, 18).saturating_sub(6)
}

/// The shortest and the longest duration of a link.
fn interval(draws: &mut Draws) -> (i64, i64) {
    let low = number(draws, 6).saturating_add(1);
    (low, number(draws, 8).saturating_add(low))
}

fn number(draws: &mut Draws, below: u64) -> i64 {
    i64::try_from(draws.draw(below)).unwrap_or(0)
}
