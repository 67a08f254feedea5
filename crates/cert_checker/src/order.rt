//! The order of a table proof.

ghost use Rattle.std.specs.Prelude.{◌≡◌, IfOk, is_some, length, []};
ghost use Rattle.std.specs.List.{All, list_all};
ghost use Rattle.net_model.specs.Network.{IsPoint};
ghost use Rattle.cert_checker.specs.TestOutcomes.{Ends, IsWholeOrder, RefusesItem, RefusesOrder};
ghost use Rattle.cert_checker.specs.Orders.{AreOptionalPlaces, ArePlacesOf};
ghost use Rattle.cert_checker.specs.TableRefusals.{stands_before};
ghost use Rattle.cert_checker.specs.Tables.{comes_before, place_in, rises};

use crate::judgement::{CertFault, Failure, RefusedLine};
use crate::shown::ShownNetwork;
use net_model::{Edge, PointId};
use std::alloc::{AllocError, Global};
use std::marker::Model;

/// The order of a table proof, in which each point of the network stands once. Contracts see it as
/// the list of its points.
#[derive(Drop)]
pub(crate) struct Order {
    points: Vec<PointId>,
    places: Vec<Option<usize>>,
}

impl Model for Order {
    ghost use Rattle.std.specs.Prelude.{List};
    ghost use Rattle.net_model.specs.declared.ids.PointId.{PointId};
    ghost use Rattle.cert_checker.specs.Orders.{AreOptionalPlaces};

    ghost Value = { List PointId };

    ghost view = { λ order. order.points.items };

    ghost invariant = { λ order. AreOptionalPlaces order.points.items order.places.items };
}

impl Order {
    /// The order of these points, or the refusal of its first point that stands before in it, or,
    /// at no line, of a point that is missing.
    pub(crate) fn of(
        alloc: Global,
        net: &ShownNetwork,
        points: Vec<PointId>,
    ) -> Result<Order, Failure>
        requires { All (IsPoint net.now) points.items }
        ensures { Ends result (λ order. (order ≡ points.items) × IsWholeOrder net.now points.items)
            (RefusesOrder net.now points.items) }
    {
        let places = places_of(alloc, net, points.as_slice())?;
        if !are_there(places.as_slice()) {
            let why = CertFault::OrderBroken;
            return Err(Failure::Refused(RefusedLine { line: 0, why }));
        }
        Ok(Order { points, places })
    }

    /// Whether an edge is a negative ordinary one that does not go from a later point to an earlier
    /// one.
    pub(crate) fn rises(&self, edge: &Edge) -> bool
        ensures { result ≡ rises self.now edge.now }
    {
        let is_negative_ordinary = edge.label.is_none() && edge.weight < 0;
        is_negative_ordinary && !self.descends(edge)
    }

    /// Whether an edge goes from a later point to an earlier one.
    fn descends(&self, edge: &Edge) -> bool
        ensures { result ≡ comes_before (place_in self.now edge.now.to)
            (place_in self.now edge.now.from) }
    {
        match (self.place(edge.to), self.place(edge.from)) {
            (Some(to), Some(from)) => to < from,
            _ => false,
        }
    }

    /// The place of a point in it.
    fn place(&self, point: PointId) -> Option<usize>
        ensures { result ≡ place_in self.now point }
    {
        *self.places.get(point.0 as usize)?
    }
}

/// The place of each point in an order, or the refusal of its first point that stands before in it.
fn places_of(
    alloc: Global,
    net: &ShownNetwork,
    order: &[PointId],
) -> Result<Vec<Option<usize>>, Failure>
    requires { All (IsPoint net.now) order.now }
    ensures { Ends result (λ places. ArePlacesOf net.now order.now places.items)
        (RefusesItem (stands_before order.now) 1 CertFault.OrderBroken order.now) }
{
    let mut places = no_places(alloc, net.points().len())?;
    for (index, point) in order.iter().enumerate() {
        let place = point.0 as usize;
        if places[place].is_some() {
            return Err(Failure::Refused(RefusedLine {
                line: index as u64 + 1,
                why: CertFault::OrderBroken,
            }));
        }
        places[place] = Some(index);
    }
    Ok(places)
}

/// The places of so many points, of which none has one yet.
fn no_places(alloc: Global, count: usize) -> Result<Vec<Option<usize>>, AllocError>
    ensures count { IfOk result (λ places. length places.items ≡ count) }
    ensures none { IfOk result (λ places. AreOptionalPlaces [] places.items) }
{
    vec![in alloc; None; count]
}

/// Whether each of these is a place.
fn are_there(places: &[Option<usize>]) -> bool
    ensures { result ≡ list_all is_some places.now }
{
    places.iter().all(|place| place.is_some())
}
