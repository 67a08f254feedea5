//! The order of the points of the table of nodes, or the cycle that is found first.

ghost use Rattle.std.specs.Prelude.{◌≡◌, ◌≤◌, ◌<◌, ◌==◌, IfOk, OnOk, drop, find, length};
ghost use Rattle.std.specs.List.{position_or_len};
ghost use Rattle.net_model.specs.Network.{Plan};
ghost use Rattle.closure_model.specs.Keys.{all_points};
ghost use Rattle.closure_model.specs.Orders.{goes, goes_on, next_on, is_free, contains_point};
ghost use Rattle.closure_model.specs.Orders.{place_next, placed_points, lowest_unplaced};
ghost use Rattle.closure_model.specs.Orders.{cycle_from};
ghost use Rattle.example_references.specs.Ends.{sought_in};
ghost use Rattle.example_references.specs.NodeTables.{table_in};

use crate::ending::Ending;
use crate::nodes::{ordinary_weight, points};
use closure_model::Node;
use net_model::{Items, Network, PointId};
use std::alloc::Global;
use std::test::Fail;

/// The order of the points or, if a point is left, the cycle that is found first.
pub(crate) fn sought(alloc: Global, net: &Network, nodes: &[Node]) -> Result<Ending, Fail>
    ensures { IfOk result (λ found. found ≡ sought_in (table_in net.now nodes.now)) }
{
    let placed = placed_points(alloc, net, nodes)?;
    match lowest_unplaced(net, nodes, placed.as_slice()) {
        None => Ok(Ending::Closed(Items::new(placed))),
        Some(first) => {
            let cycle = cycle_from(alloc, net, nodes, placed.as_slice(), first)?;
            Ok(Ending::Looped(Items::new(cycle)))
        }
    }
}

/// Places, as often as there are points, the lowest free point.
fn placed_points(alloc: Global, net: &Network, nodes: &[Node]) -> Result<Vec<PointId>, Fail>
    ensures { IfOk result (λ placed. placed.items ≡ placed_points (table_in net.now nodes.now)) }
{
    let count = points(net);
    let mut placed = Vec::new(alloc);
    for _step in 0..count {
        place_next(net, nodes, &mut placed)?;
    }
    Ok(placed)
}

fn place_next(net: &Network, nodes: &[Node], placed: &mut Vec<PointId>) -> Result<(), Fail>
    ensures { OnOk result (placed.new.items ≡ place_next
        (table_in net.now nodes.now) placed.old.items) }
{
    if let Some(point) = lowest_free(net, nodes, placed.as_slice()) {
        placed.push(point)?;
    }
    Ok(())
}

fn lowest_free(net: &Network, nodes: &[Node], placed: &[PointId]) -> Option<PointId>
    ensures { result ≡ find (is_free (table_in net.now nodes.now) placed.now)
        (all_points (table_in net.now nodes.now).shape) }
{
    let count = points(net);
    for point in 0..count {
        if is_free(net, nodes, placed, PointId(point)) {
            return Some(PointId(point));
        }
    }
    None
}

/// Whether a point is not placed, and its negative ordinary edges all lead to placed points.
fn is_free(net: &Network, nodes: &[Node], placed: &[PointId], point: PointId) -> bool
    ensures { result ≡ is_free (table_in net.now nodes.now) placed.now point }
{
    !contains_point(placed, point) && next_on(net, nodes, placed, point).is_none()
}

/// The lowest point not placed to which a negative ordinary edge leads.
fn next_on(net: &Network, nodes: &[Node], placed: &[PointId], from: PointId) -> Option<PointId>
    ensures { result ≡ next_on (table_in net.now nodes.now) placed.now from }
{
    let count = points(net);
    for to in 0..count {
        if goes_on(nodes, placed, from, PointId(to)) {
            return Some(PointId(to));
        }
    }
    None
}

fn goes_on(nodes: &[Node], placed: &[PointId], from: PointId, to: PointId) -> bool
    ensures { (net : Plan) → result ≡ goes_on (table_in net nodes.now) placed.now from to }
{
    goes(nodes, from, to) && !contains_point(placed, to)
}

fn goes(nodes: &[Node], from: PointId, to: PointId) -> bool
    ensures { (net : Plan) → result ≡ goes (table_in net nodes.now) from to }
{
    match ordinary_weight(nodes, from, to) {
        Some(weight) => weight < 0,
        None => false,
    }
}

fn contains_point(points: &[PointId], point: PointId) -> bool
    ensures { result ≡ contains_point points.now point }
{
    points.iter().any(|other| other.0 == point.0)
}

/// The lowest point that is not placed.
fn lowest_unplaced(net: &Network, nodes: &[Node], placed: &[PointId]) -> Option<PointId>
    requires { placed.now ≡ placed_points (table_in net.now nodes.now) }
    ensures { result ≡ lowest_unplaced (table_in net.now nodes.now) }
{
    // The proof reads here whose table's placed points these are.
    let _ = nodes;
    let count = points(net);
    for left in 0..count {
        if !contains_point(placed, PointId(left)) {
            return Some(PointId(left));
        }
    }
    None
}

/// The walk from a point, always to the lowest point not placed, until a point comes twice.
fn cycle_from(
    alloc: Global,
    net: &Network,
    nodes: &[Node],
    placed: &[PointId],
    first: PointId,
) -> Result<Vec<PointId>, Fail>
    requires { placed.now ≡ placed_points (table_in net.now nodes.now) }
    ensures { IfOk result (λ cycle. cycle.items ≡ cycle_from (table_in net.now nodes.now) first) }
{
    let count = points(net);
    let mut walk = Vec::new(alloc);
    let mut point = first;
    for _step in 0..count as usize + 1 {
        if contains_point(walk.as_slice(), point) {
            return from_place_of(alloc, walk.as_slice(), point);
        }
        walk.push(point)?;
        match next_on(net, nodes, placed, point) {
            None => return Ok(Vec::new(alloc)),
            Some(next) => point = next,
        }
    }
    Ok(Vec::new(alloc))
}

/// The points of a list from the first that is this one.
fn from_place_of(alloc: Global, order: &[PointId], point: PointId) -> Result<Vec<PointId>, Fail>
    ensures { IfOk result (λ points. points.items ≡ drop
        (position_or_len (λ other. other.0 == point.0) order.now) order.now) }
{
    let mut points = Vec::new(alloc);
    points.extend_from_slice(&order[place_of(order, point)..])?;
    Ok(points)
}

/// The place of the first point of a list that is this one, or its length.
fn place_of(order: &[PointId], point: PointId) -> usize
    ensures inside { result ≤ length order.now }
    ensures place { result ≡ position_or_len (λ other. other.0 == point.0) order.now }
{
    for (place, other) in order.iter().enumerate() {
        if *other == point {
            return place;
        }
    }
    order.len()
}
