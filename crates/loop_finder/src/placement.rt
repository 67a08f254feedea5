//! The search for an order of the points of a table, or a cycle of negative ordinary edges.

ghost use Rattle.std.specs.Prelude.{◌≡◌, ◌<◌, ◌≤◌, ◌++◌, ◌==◌, ◌∷◌, [], length, not, find, drop};
ghost use Rattle.std.specs.Prelude.{IfOk, OnOk, map};
ghost use Rattle.std.specs.List.{All, position_or_len, range_with_len};
ghost use Rattle.closure_model.specs.Keys.{all_points};
ghost use Rattle.closure_model.specs.Orders.{contains_point, cycle_from, is_free, place_next};
ghost use Rattle.closure_model.specs.Orders.{placed_points};
ghost use Rattle.closure_model.specs.Tables.{Graph};
ghost use Rattle.loop_finder.specs.OrderOrCycle.{found_in, IsWhatItSays};
ghost use Rattle.loop_finder.specs.Marks.{AreMarks};
ghost use Rattle.loop_finder.specs.NegativeSuccessors.{AreNegativeSuccessors, AreTargetsWithin};
ghost use Rattle.loop_finder.specs.OpenEdges.{IsPlacement};

use crate::open_edges::{close_edges, edge_counts, free_points};
use crate::order_or_cycle::Found;
use crate::successors::{Targets, negative_successors};
use labelled_graph::Table;
use net_model::{Items, PointId};
use std::alloc::{AllocError, Global};
use tournament_queue::DueQueue;

/// Points in an order, with a mark for each point that says whether it is among them.
#[derive(Drop)]
struct Marked {
    order: Vec<PointId>,
    marks: Vec<bool>,
    ghost marked: { AreMarks order.items marks.items },
}

impl Marked {
    /// No points, of so many.
    fn none(alloc: Global, points: u32) -> Result<Marked, AllocError>
        ensures { IfOk result (λ marked. (marked.order.items ≡ [])
            × (length marked.marks.items ≡ points)) }
    {
        Ok(Marked {
            order: Vec::new(alloc),
            marks: vec![in alloc; false; points as usize]?,
        })
    }

    fn has(&self, point: u32) -> bool
        requires { point < length self.now.marks.items }
        ensures { result ≡ contains_point self.now.order.items (record { 0 = point }) }
    {
        self.marks[point as usize]
    }

    /// One point more, at the end.
    fn push(&mut self, point: PointId) -> Result<(), AllocError>
        requires { point.0 < length self.old.marks.items }
        ensures order { OnOk result (self.new.order.items ≡ self.old.order.items ++ point ∷ []) }
        ensures marks { OnOk result (length self.new.marks.items ≡ length self.old.marks.items) }
    {
        self.order.push(point)?;
        self.marks[point.0 as usize] = true;
        Ok(())
    }
}

/// Finds an order of the points of a table, or a cycle of negative ordinary edges if there is one.
/// The order places next the lowest point whose negative ordinary edges all go to placed points; if
/// no point can be placed, the cycle is followed from the lowest point left, always to the lowest
/// point left. A table with an order has no cycle (`law_orders_exclude_cycles` of closure_model),
/// so a cycle is answered exactly if there is one. `points` is how many points the table is for.
/// Each entry of the table is read twice, and for a cycle once more, and a point takes as many
/// steps as the number of points has binary digits; that is no clause. `AllocError` comes only for want
/// of memory.
pub fn order(alloc: Global, table: &Table, points: u32) -> Result<Found, AllocError>
    requires { points ≡ table.now.shape.points }
    ensures found { IfOk result (λ found. found ≡ found_in table.now) }
    ensures says { IfOk result (IsWhatItSays table.now) }
{
    let placed = place_all(alloc, table, points)?;
    match lowest_unplaced(&placed, points) {
        None => {
            let Marked { order, .. } = placed;
            Ok(Found::Order(Items::new(order)))
        }
        Some(first) => {
            let lists = negative_successors(alloc, table, points)?;
            let cycle = cycle_from(alloc, lists.as_slice(), &placed, points, first)?;
            Ok(Found::Cycle(Items::new(cycle)))
        }
    }
}

/// The first point of a list that is not placed.
fn next_in(targets: &[PointId], placed: &Marked) -> Option<PointId>
    requires { All (λ to. to.0 < length placed.now.marks.items) targets.now }
    ensures { result ≡ find (λ to. not (contains_point placed.now.order.items to)) targets.now }
{
    for to in targets {
        if !placed.has(to.0) {
            return Some(*to);
        }
    }
    None
}

/// The points that are placed so far, and what is known of the others.
#[derive(Drop)]
struct Placement {
    placed: Marked,
    /// For each point how many negative ordinary edges go from it to points that are not placed.
    left: Vec<usize>,
    free: DueQueue,
}

impl Placement {
    /// The placement of no points of a table.
    fn none(alloc: Global, table: &Table, points: u32) -> Result<Placement, AllocError>
        requires { points ≡ table.now.shape.points }
        ensures placement { IfOk result (λ placement. IsPlacement table.now
            placement.placed.order.items placement.left.items placement.free) }
        ensures placed { IfOk result (λ placement. placement.placed.order.items ≡ []) }
        ensures marks { IfOk result (λ placement. length placement.placed.marks.items ≡ points) }
    {
        let placed = Marked::none(alloc, points)?;
        let left = edge_counts(alloc, table, points)?;
        let free = free_points(alloc, left.as_slice())?;
        Ok(Placement { placed, left, free })
    }

    /// The lowest free point, if there is one.
    fn lowest_free(&self) -> Option<PointId>
        ensures { (graph : Graph) → IsPlacement graph self.now.placed.order.items
            self.now.left.items self.now.free → result ≡ find (is_free graph
            self.now.placed.order.items) (all_points graph.shape) }
    {
        let (_, point) = self.free.first()?;
        Some(point)
    }

    /// Places the lowest free point, if there is one.
    fn place_next(&mut self, table: &Table) -> Result<(), AllocError>
        requires marks { length self.old.placed.marks.items ≡ table.now.shape.points }
        requires placement { IsPlacement table.now self.old.placed.order.items
            self.old.left.items self.old.free }
        ensures placement { OnOk result (IsPlacement table.now self.new.placed.order.items
            self.new.left.items self.new.free) }
        ensures placed { OnOk result (self.new.placed.order.items
            ≡ place_next table.now self.old.placed.order.items) }
        ensures marks { OnOk result (length self.new.placed.marks.items
            ≡ length self.old.placed.marks.items) }
    {
        if let Some(point) = self.lowest_free() {
            self.placed.push(point)?;
            self.free.set(point, None);
            close_edges(table, point, &mut self.left, &mut self.free);
        }
        Ok(())
    }
}

/// The points that are placed, in their order.
fn place_all(alloc: Global, table: &Table, points: u32) -> Result<Marked, AllocError>
    requires { points ≡ table.now.shape.points }
    ensures placed { IfOk result (λ placed. placed.order.items ≡ placed_points table.now) }
    ensures marks { IfOk result (λ placed. length placed.marks.items ≡ points) }
{
    let mut placement = Placement::none(alloc, table, points)?;
    for _step in 0..points {
        placement.place_next(table)?;
    }
    let Placement { placed, .. } = placement;
    Ok(placed)
}

/// The lowest point that is not placed.
fn lowest_unplaced(placed: &Marked, points: u32) -> Option<PointId>
    requires { length placed.now.marks.items ≡ points }
    ensures { result ≡ find (λ point. not (contains_point placed.now.order.items point))
        (map (λ k. record { 0 = k }) (range_with_len 0 points)) }
{
    for left in 0..points {
        if !placed.has(left) {
            return Some(PointId(left));
        }
    }
    None
}

/// The cycle that is reached first from a point.
fn cycle_from(
    alloc: Global,
    lists: &[Targets],
    placed: &Marked,
    points: u32,
    first: PointId,
) -> Result<Vec<PointId>, AllocError>
    requires lists { length lists.now ≡ points }
    requires marks { length placed.now.marks.items ≡ points }
    requires within { AreTargetsWithin lists.now points }
    requires first { first.0 < points }
    ensures { IfOk result (λ cycle. (graph : Graph) → graph.shape.points ≡ points
        → AreNegativeSuccessors graph lists.now → placed.now.order.items ≡ placed_points graph
        → cycle.items ≡ cycle_from graph first) }
{
    let mut walk = Marked::none(alloc, points)?;
    let mut point = first;
    for _step in 0..points as usize + 1 {
        if walk.has(point.0) {
            return from_place_of(alloc, walk.order.as_slice(), point);
        }
        walk.push(point)?;
        let targets = lists[point.0 as usize].as_slice();
        match next_in(targets, placed) {
            None => return Ok(Vec::new(alloc)),
            Some(next) => point = next,
        }
    }
    Ok(Vec::new(alloc))
}

/// The points of a list from the first that is this one.
fn from_place_of(
    alloc: Global,
    order: &[PointId],
    point: PointId,
) -> Result<Vec<PointId>, AllocError>
    ensures { IfOk result (λ points. points.items ≡ drop
        (position_or_len (λ other. other.0 == point.0) order.now) order.now) }
{
    let mut points = Vec::new(alloc);
    points.extend_from_slice(&order[place_of(order, point)..])?;
    Ok(points)
}

/// The place of the first point of a list that is this one, or its length.
fn place_of(order: &[PointId], point: PointId) -> usize
    ensures inside { result ≤ length order.now }
    ensures place { result ≡ position_or_len (λ other. other.0 == point.0) order.now }
{
    for (place, other) in order.iter().enumerate() {
        if *other == point {
            return place;
        }
    }
    order.len()
}
