//! An order of points with the place of each, and which edges go along it.

ghost use Rattle.std.specs.Prelude.{◌≡◌, ◌≢◌, ◌<◌, length, IfOk};
ghost use Rattle.std.specs.Bool.{Decides};
ghost use Rattle.std.specs.List.{All, AllPairs};
ghost use Rattle.loop_finder.specs.KeptOrders.{place_in_order, GoesAlong, ArePlaces};

use net_model::{Edge, Items, PointId};
use std::alloc::{AllocError, Global};
use std::marker::Model;

/// An order of points with the place of each. Contracts see it as the list of its points.
#[derive(Debug, Drop)]
pub struct KeptOrder {
    order: Items<PointId>,
    places: Vec<usize>,
}

impl Model for KeptOrder {
    ghost use Rattle.std.specs.Prelude.{List};
    ghost use Rattle.std.specs.Coded.{coded_list};
    ghost use Rattle.net_model.specs.declared.ids.PointId.{PointId};
    ghost use Rattle.closure_model.specs.Codes.{point_code};

    ghost Value = { List PointId };

    ghost coded = { coded_list point_code };

    ghost use Rattle.loop_finder.specs.KeptOrders.{ArePlaces};

    ghost view = { λ kept. kept.order };

    ghost invariant = { λ kept. ArePlaces kept.order kept.places.items };
}

impl KeptOrder {
    /// An order of so many points, each of which stands in it at most once. `AllocError` comes only
    /// for want of memory.
    pub fn of(alloc: Global, order: Items<PointId>, points: u32) -> Result<KeptOrder, AllocError>
        requires once { AllPairs (λ p q. p.0 ≢ q.0) order }
        requires within { All (λ point. point.0 < points) order }
        ensures { IfOk result (λ kept. kept ≡ order) }
    {
        let places = places_of(alloc, order.as_slice(), points)?;
        Ok(KeptOrder { order, places })
    }

    /// Whether an edge goes along the order: if it is ordinary and negative, it goes from a later
    /// point to an earlier one. While every edge that improves does, the order stays one
    /// (`law_orders_are_kept`). It takes no memory.
    pub fn goes_along(&self, edge: &Edge) -> bool
        ensures { Decides result (GoesAlong self.now edge.now) }
    {
        if edge.label.is_some() || edge.weight >= 0 {
            return true;
        }
        self.place_of(edge.to) < self.place_of(edge.from)
    }

    /// The place of a point, or how many points the order has if it has no place.
    fn place_of(&self, point: PointId) -> usize
        ensures { result ≡ place_in_order self.now point }
    {
        let number = point.0 as usize;
        if number < self.places.len() {
            self.places[number]
        } else {
            self.order.as_slice().len()
        }
    }
}

/// The place of each of so many points in an order, or the length of the order if the point has
/// none.
fn places_of(alloc: Global, order: &[PointId], points: u32) -> Result<Vec<usize>, AllocError>
    requires once { AllPairs (λ p q. p.0 ≢ q.0) order.now }
    requires within { All (λ point. point.0 < points) order.now }
    ensures { IfOk result (λ places. (length places.items ≡ points)
        × ArePlaces order.now places.items) }
{
    let mut places = vec![in alloc; order.len(); points as usize]?;
    for (place, point) in order.iter().enumerate() {
        places[point.0 as usize] = place;
    }
    Ok(places)
}
