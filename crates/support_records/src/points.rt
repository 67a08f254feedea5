//! The points of a network and those of the same names in the edited one.

ghost use Rattle.std.specs.Prelude.{◌≡◌, map, IfOk};
ghost use Rattle.net_model.specs.Network.{point_named};
ghost use Rattle.edit_laws.specs.EditNumbers.{point_in};

use net_model::{Name, Network, PointId};
use std::alloc::{AllocError, Global};

/// A network and the edited one, with the point of the edited one that has the name of each point
/// of the other. Each name is looked up once.
#[derive(Drop)]
pub(crate) struct Points<'a> {
    pub(crate) old: &'a Network,
    pub(crate) new: &'a Network,
    places: Vec<Option<PointId>>,
    ghost named: { places.items ≡ map (point_named new.now) old.now.points },
}

impl<'a> Points<'a> {
    /// The points by their names. `AllocError` comes only for want of memory.
    pub(crate) fn of(
        alloc: Global,
        old: &'a Network,
        new: &'a Network,
    ) -> Result<Points<'a>, AllocError>
        ensures old { IfOk result (λ points. points.old.now ≡ old.now) }
        ensures new { IfOk result (λ points. points.new.now ≡ new.now) }
    {
        let places = places_in(alloc, old.points(), new)?;
        Ok(Points { old, new, places })
    }

    /// The point of the edited network that has the name of a point of the other.
    pub(crate) fn point_in(&self, point: PointId) -> Option<PointId>
        ensures { result ≡ point_in self.now.old.now self.now.new.now point }
    {
        *self.places.get(point.0 as usize)?
    }
}

fn places_in(
    alloc: Global,
    names: &[Name],
    new: &Network,
) -> Result<Vec<Option<PointId>>, AllocError>
    ensures { IfOk result (λ places. places.items ≡ map (point_named new.now) names.now) }
{
    let mut places = Vec::new(alloc);
    for name in names {
        places.push(new.point(name.bytes()))?;
    }
    Ok(places)
}
