//! The order of a table between rounds: it is kept while the improved edges go along it.

ghost use Rattle.std.specs.Prelude.{◌≡◌, None, IfOk, IfSome, if◌then◌else◌, Some};
ghost use Rattle.closure_model.specs.Orders.{IsOrder, lowest_unplaced, placed_points};
ghost use Rattle.parallel_rounds.specs.Placement.{IsPlaced};
ghost use Rattle.parallel_rounds.specs.declared.outcome.Outcome.TheVariants.{Closed};

use crate::outcome::Outcome;
use labelled_graph::Table;
use loop_finder::{Found, KeptOrder, order};
use net_model::{Items, PointId};
use std::alloc::{AllocError, Global};

/// What is known of a table before a round.
#[derive(Drop)]
pub(crate) enum Placed {
    /// An order of its points.
    InOrder(KeptOrder),
    /// A cycle of its negative ordinary edges.
    Cyclic(Items<PointId>),
}

/// The order that was kept, if one was; else the order of a table is sought.
pub(crate) fn place(
    alloc: Global,
    table: &Table,
    points: u32,
    kept: Option<KeptOrder>,
) -> Result<Placed, AllocError>
    requires points { points ≡ table.now.shape.points }
    requires kept { IfSome kept (IsOrder table.now) }
    ensures { IfOk result (IsPlaced table.now) }
{
    match kept {
        Some(order) => Ok(Placed::InOrder(order)),
        None => sought(alloc, table, points),
    }
}

fn sought(alloc: Global, table: &Table, points: u32) -> Result<Placed, AllocError>
    requires { points ≡ table.now.shape.points }
    ensures { IfOk result (IsPlaced table.now) }
{
    match order(alloc, table, points)? {
        Found::Order(order) => Ok(Placed::InOrder(KeptOrder::of(alloc, order, points)?)),
        Found::Cycle(cycle) => Ok(Placed::Cyclic(cycle)),
    }
}

/// An order, if it stays one.
pub(crate) fn order_if(stays: bool, order: KeptOrder) -> Option<KeptOrder>
    ensures { result ≡ (if stays then Some order else None) }
{
    if stays { Some(order) } else { None }
}

/// How rounds end that close a table: with its order. All its points can be placed.
pub(crate) fn closed(
    alloc: Global,
    table: &Table,
    points: u32,
    rounds: u64,
) -> Result<Outcome, AllocError>
    requires points { points ≡ table.now.shape.points }
    requires placed { lowest_unplaced table.now ≡ None }
    ensures { IfOk result (λ outcome. outcome ≡ Closed rounds (placed_points table.now)) }
{
    match order(alloc, table, points)? {
        Found::Order(order) => Ok(Outcome::Closed { rounds, order }),
        Found::Cycle(cycle) => Ok(Outcome::Looped { rounds, cycle }),
    }
}
