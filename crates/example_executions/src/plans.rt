//! Points of networks by their names.

pub(crate) use example_plans::network;
use net_model::{Network, PointId};
use std::alloc::Global;
use std::str::SplitWhitespace;
use std::test::Fail;

/// The points of these names.
pub(crate) fn points(
    alloc: Global,
    net: &Network,
    words: &mut SplitWhitespace<'_>,
) -> Result<Vec<PointId>, Fail> {
    let mut points = Vec::new(alloc);
    for word in words {
        match net.point(word.as_bytes()) {
            Some(point) => points.push(point)?,
            None => return Err(Fail::from("no point")),
        }
    }
    Ok(points)
}
