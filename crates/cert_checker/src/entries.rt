//! The lines of a table proof, each for itself: its names become numbers.

ghost use Rattle.std.specs.Prelude.{◌≡◌, ◌+◌, ◌<◌, ◌^◌, length};
ghost use Rattle.cert_checker.specs.Tables.{edge_of_entry, entry_passes, labelled_of, ordinary_of};
ghost use Rattle.cert_checker.specs.Tables.{point_passes};
ghost use Rattle.cert_checker.specs.TableRefusals.{ReadsEach};
ghost use Rattle.cert_checker.specs.TestOutcomes.{Ends, RefusesLine};

use crate::judgement::{CertFault, Failure, RefusedLine};
use crate::rules::{is_in_range, unless};
use crate::shown::ShownNetwork;
use cert_format::Entry;
use net_model::{Edge, Name, PointId, Weight};
use std::alloc::Global;

/// The points of the order, whose first line is line 1, or the refusal of the first line whose
/// point is not in the network.
pub(crate) fn read_points(
    alloc: Global,
    net: &ShownNetwork,
    order: &[Name],
) -> Result<Vec<PointId>, Failure>
    ensures { Ends result (λ points. ReadsEach (point_passes net.now) order.now points.items)
        (RefusesLine (point_passes net.now) 1 order.now) }
{
    let mut points = Vec::new(alloc);
    for (index, name) in order.iter().enumerate() {
        match net.point(name.bytes()).ok_or(CertFault::UnknownItem) {
            Ok(point) => points.push(point)?,
            Err(why) => {
                let line = index as u64 + 1;
                return Err(Failure::Refused(RefusedLine { line, why }));
            }
        }
    }
    Ok(points)
}

/// The edges of entries, of which the first has this line, or the refusal of the first entry that
/// does not pass for itself.
pub(crate) fn read_edges(
    alloc: Global,
    net: &ShownNetwork,
    first: u64,
    entries: &[Entry],
) -> Result<Vec<Edge>, Failure>
    requires { first + length entries.now < 2 ^ 64 }
    ensures { Ends result (λ edges. ReadsEach (entry_passes net.now) entries.now edges.items)
        (RefusesLine (entry_passes net.now) first entries.now) }
{
    let mut edges = Vec::with_capacity(alloc, entries.len())?;
    for (index, entry) in entries.iter().enumerate() {
        match entry_passes(net, entry) {
            Ok(edge) => edges.push(edge)?,
            Err(why) => {
                let line = first + index as u64;
                return Err(Failure::Refused(RefusedLine { line, why }));
            }
        }
    }
    Ok(edges)
}

/// An entry: its names are in the network, and its weight is within the limit.
fn entry_passes(net: &ShownNetwork, entry: &Entry) -> Result<Edge, CertFault>
    ensures { result ≡ entry_passes net.now entry.now }
{
    let edge = edge_of_entry(net, entry).ok_or(CertFault::UnknownItem)?;
    unless(is_in_range(entry.weight), CertFault::WeightRange)?;
    Ok(edge)
}

/// The edge that an entry states, if its names are in the network.
fn edge_of_entry(net: &ShownNetwork, entry: &Entry) -> Option<Edge>
    ensures { result ≡ edge_of_entry net.now entry.now }
{
    match (&entry.to, &entry.label) {
        (Some(to), _) => ordinary_of(net, &entry.from, to, entry.weight),
        (None, Some(label)) => labelled_of(net, &entry.from, label, entry.weight),
        (None, None) => None,
    }
}

/// The ordinary edge between the points of two names.
fn ordinary_of(net: &ShownNetwork, from: &Name, to: &Name, weight: Weight) -> Option<Edge>
    ensures { result ≡ ordinary_of net.now from.now to.now weight }
{
    let from = net.point(from.bytes())?;
    let to = net.point(to.bytes())?;
    Some(Edge {
        from,
        to,
        label: None,
        weight,
    })
}

/// The edge from the point of a name that is labelled by the link that ends in the point of
/// another.
fn labelled_of(net: &ShownNetwork, from: &Name, label: &Name, weight: Weight) -> Option<Edge>
    ensures { result ≡ labelled_of net.now from.now label.now weight }
{
    let from = net.point(from.bytes())?;
    let end = net.point(label.bytes())?;
    let label = net.activation(end)?;
    let link = net.link_at(label)?;
    Some(Edge {
        from,
        to: link.from,
        label: Some(label),
        weight,
    })
}
