//! What a round improved, as the next one uses it.

ghost use Rattle.std.specs.Prelude.{◌≡◌, ◌<◌, ◌++◌, ◌∷◌, [], true, not, filter, is_none, length};
ghost use Rattle.std.specs.Prelude.{IfOk, OnOk};
ghost use Rattle.std.specs.List.{All, AllPairs};
ghost use Rattle.closure_model.specs.Keys.{ordinary_key};
ghost use Rattle.closure_model.specs.Orders.{IsOrder};
ghost use Rattle.closure_model.specs.ReferenceRow.{with_made};
ghost use Rattle.closure_model.specs.Tables.{Graph};
ghost use Rattle.parallel_rounds.specs.StoreUpdate.{made_in};
ghost use Rattle.parallel_rounds.specs.LastRounds.{AreDeltaIn, AreImprovedInOrder, AreListed};
ghost use Rattle.parallel_rounds.specs.LastRounds.{IsTableFor, changed_in, is_low, ordinary_made};
ghost use Rattle.parallel_rounds.specs.LastRounds.{was_low};

use back_propagation::{MadeEdges, NewRow};
use labelled_graph::Table;
use loop_finder::{KeptOrder, law_orders_are_kept};
use net_model::{Edge, Items, PointId};
use std::alloc::{AllocError, Global};

/// What a round improved: the points in whose rows an edge improved, how many edges did, and the
/// delta edges, which are those of them that are ordinary and whose keys had no weight or one above
/// 0, by the points in which they end, each list in the order of the points in which they begin;
/// and whether an order stays one.
#[derive(Drop)]
pub(crate) struct LastRound {
    pub(crate) changed: Vec<PointId>,
    pub(crate) improvements: usize,
    pub(crate) delta: Vec<Items<Edge>>,
    pub(crate) stays: bool,
}

impl LastRound {
    /// What the rows of a round improved in a table, for so many points, and whether an order stays
    /// one; so many edges improved.
    pub(crate) fn of(
        alloc: Global,
        points: u32,
        before: &Table,
        rows: &[NewRow],
        improvements: usize,
        order: &KeptOrder,
    ) -> Result<LastRound, AllocError>
        requires table { IsTableFor points before.now }
        requires points { All (λ row. row.target.0 < points) rows.now }
        requires rise { AllPairs (λ one other. one.target.0 < other.target.0) rows.now }
        ensures changed { IfOk result (λ last. last.changed.items ≡ changed_in rows.now) }
        ensures count { IfOk result (λ last. length last.delta.items ≡ points) }
        ensures delta { IfOk result (λ last. AreListed before.now rows.now last.delta.items) }
        ensures stays { IfOk result (λ last. last.stays ≡ true → (table : Graph)
            → IsOrder table order.now → IsOrder (with_made table (made_in rows.now)) order.now) }
    {
        let changed = changed_in(alloc, rows)?;
        let delta = delta_in(alloc, points, before, rows)?;
        Ok(LastRound {
            changed,
            improvements,
            delta,
            stays: all_stay(order, rows),
        })
    }
}

/// Whether all edges that improved in rows go along an order.
fn all_stay(order: &KeptOrder, rows: &[NewRow]) -> bool
    ensures { result ≡ true → (table : Graph) → IsOrder table order.now
        → IsOrder (with_made table (made_in rows.now)) order.now }
{
    for row in rows {
        if !stays(order, &row.made) {
            return false;
        }
    }
    true
}

/// Whether the edges that improved in a row go along an order.
fn stays(order: &KeptOrder, made: &MadeEdges) -> bool
    ensures { result ≡ true → (table : Graph) → IsOrder table order.now
        → IsOrder (with_made table made.now) order.now }
{
    law_orders_are_kept();
    for place in 0..made.len() {
        if !order.goes_along(&made.edge(place)) {
            return false;
        }
    }
    true
}

/// The targets of the rows in which an edge improved.
fn changed_in(alloc: Global, rows: &[NewRow]) -> Result<Vec<PointId>, AllocError>
    ensures { IfOk result (λ changed. changed.items ≡ changed_in rows.now) }
{
    let mut changed = Vec::new(alloc);
    for row in rows {
        push_changed(&mut changed, row)?;
    }
    Ok(changed)
}

fn push_changed(changed: &mut Vec<PointId>, row: &NewRow) -> Result<(), AllocError>
    ensures { OnOk result (changed.new.items ≡ changed.old.items ++ changed_in (row.now ∷ [])) }
{
    if !row.made.is_empty() {
        changed.push(row.target)?;
    }
    Ok(())
}

/// The delta edges among those that improved in rows against a table, by the points in which they
/// end.
fn delta_in(
    alloc: Global,
    points: u32,
    before: &Table,
    rows: &[NewRow],
) -> Result<Vec<Items<Edge>>, AllocError>
    requires table { IsTableFor points before.now }
    requires points { All (λ row. row.target.0 < points) rows.now }
    requires rise { AllPairs (λ one other. one.target.0 < other.target.0) rows.now }
    ensures count { IfOk result (λ delta. length delta.items ≡ points) }
    ensures delta { IfOk result (λ delta. AreListed before.now rows.now delta.items) }
{
    let mut delta = no_edges(alloc, points)?;
    for row in rows {
        delta[row.target.0 as usize] = delta_of(alloc, points, before, &row.made)?;
    }
    Ok(delta)
}

/// For each point no edges.
fn no_edges(alloc: Global, points: u32) -> Result<Vec<Items<Edge>>, AllocError>
    ensures count { IfOk result (λ delta. length delta.items ≡ points) }
    ensures none { IfOk result (λ delta. All (λ edges. edges ≡ []) delta.items) }
{
    (0..points)
        .map(|_| Items::new(Vec::new(alloc)))
        .collect(alloc)
}

/// The delta edges among those that improved in a row against a table, in the order of the points
/// in which they begin.
fn delta_of(
    alloc: Global,
    points: u32,
    before: &Table,
    made: &MadeEdges,
) -> Result<Items<Edge>, AllocError>
    requires { IsTableFor points before.now }
    ensures { IfOk result (AreDeltaIn before.now made.now) }
{
    let edges = in_order(alloc, made)?;
    let delta = delta_among(alloc, points, before, edges.as_slice())?;
    Ok(Items::new(delta))
}

/// Those of some edges whose keys had no weight in a table, or one above 0.
fn delta_among(
    alloc: Global,
    points: u32,
    before: &Table,
    edges: &[Edge],
) -> Result<Vec<Edge>, AllocError>
    requires { IsTableFor points before.now }
    ensures { IfOk result (λ delta. delta.items ≡ filter
        (λ edge. not (was_low before.now edge)) edges.now) }
{
    let mut delta = Vec::new(alloc);
    for edge in edges {
        push_delta(&mut delta, points, before, edge)?;
    }
    Ok(delta)
}

fn push_delta(
    delta: &mut Vec<Edge>,
    points: u32,
    before: &Table,
    edge: &Edge,
) -> Result<(), AllocError>
    requires { IsTableFor points before.now }
    ensures { OnOk result (delta.new.items ≡ delta.old.items ++ filter
        (λ edge. not (was_low before.now edge)) (edge.now ∷ [])) }
{
    if !was_low(points, before, edge) {
        delta.push(*edge)?;
    }
    Ok(())
}

/// Whether an ordinary edge had a weight of 0 or less in a table. As a first premise it gives
/// nothing then that it did not give before.
fn was_low(points: u32, before: &Table, edge: &Edge) -> bool
    requires { IsTableFor points before.now }
    ensures { result ≡ was_low before.now edge.now }
{
    match edge.label {
        Some(_) => false,
        None => is_low(points, before, edge.from, edge.to),
    }
}

/// Whether a table has an ordinary edge of weight 0 or less between two points.
fn is_low(points: u32, table: &Table, from: PointId, to: PointId) -> bool
    requires { IsTableFor points table.now }
    ensures { result ≡ is_low table.now (ordinary_key from to) }
{
    if from.0 >= points || to.0 >= points {
        return false;
    }
    let words = table.words(to);
    let place = from.0 as usize;
    if place < words.len() {
        return words[place] < 1;
    }
    match table.weight(from, to) {
        None => false,
        Some(weight) => weight < 1,
    }
}

/// The ordinary edges that improved in a row, in the order of the points in which they begin.
fn in_order(alloc: Global, made: &MadeEdges) -> Result<Items<Edge>, AllocError>
    ensures { IfOk result (AreImprovedInOrder made.now) }
{
    let mut edges = ordinary_made(alloc, made)?;
    edges.sort_unstable_by_key(|edge| edge.from.0);
    Ok(Items::new(edges))
}

fn ordinary_made(alloc: Global, made: &MadeEdges) -> Result<Vec<Edge>, AllocError>
    ensures { IfOk result (λ edges. edges.items ≡ ordinary_made made.now) }
{
    let mut edges = Vec::new(alloc);
    for place in 0..made.len() {
        push_ordinary(&mut edges, &made.edge(place))?;
    }
    Ok(edges)
}

fn push_ordinary(edges: &mut Vec<Edge>, edge: &Edge) -> Result<(), AllocError>
    ensures { OnOk result (edges.new.items ≡ edges.old.items ++ filter (λ edge. is_none edge.label)
        (edge.now ∷ [])) }
{
    if edge.label.is_none() {
        edges.push(*edge)?;
    }
    Ok(())
}
