//! The names of the order lines of a table proof.

ghost use Rattle.std.specs.Prelude.{◌≡◌, map, IfOk};
ghost use Rattle.std.specs.List.{All};
ghost use Rattle.net_model.specs.Network.{IsPoint};
ghost use Rattle.net_model.specs.NetworkParts.{point_name};

use net_model::{Name, Network, PointId};
use std::alloc::{AllocError, Global};

/// The names of points, in their order.
pub(crate) fn point_names(
    alloc: Global,
    net: &Network,
    points: &[PointId],
) -> Result<Vec<Name>, AllocError>
    requires { All (IsPoint net.now) points.now }
    ensures { IfOk result (λ names. names.items ≡ map (point_name net.now.points) points.now) }
{
    let mut names = Vec::new(alloc);
    for point in points {
        names.push(*net.point_name(*point))?;
    }
    Ok(names)
}
