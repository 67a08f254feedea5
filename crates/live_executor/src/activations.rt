//! Which contingent points each point activates.

ghost use Rattle.std.specs.Prelude.{IfOk};
ghost use Rattle.std.specs.List.{All};
ghost use Rattle.live_executor.specs.ExpectedPoints.{AreActivated};
ghost use Rattle.live_executor.specs.Sound.{IsLinkWithin};

use crate::point_lists::PointLists;
use net_model::Link;
use std::alloc::{AllocError, Global};

/// For each of so many points the contingent points of the links whose activation point it is.
/// `AllocError` comes only if memory is refused.
pub(crate) fn activations(
    alloc: Global,
    links: &[Link],
    points: u32,
) -> Result<PointLists, AllocError>
    requires { All (IsLinkWithin points) links.now }
    ensures { IfOk result (AreActivated links.now points) }
{
    let mut lists = PointLists::new(alloc, points)?;
    for link in links {
        lists.add(link.from, link.to)?;
    }
    Ok(lists)
}
