//! The row of a target that is made after the delta edges alone, from its seeds.

ghost use Rattle.std.specs.Prelude.{◌≡◌, IfOk, OnOk};
ghost use Rattle.std.specs.List.{All, flat_map};
ghost use Rattle.closure_model.specs.ReferenceRow.{reference_row, from_first, IsRowOf, IsWithin};
ghost use Rattle.closure_model.specs.Tables.{HasEdge};
ghost use Rattle.closure_model.specs.DeltaEdges.{delta_at};
ghost use Rattle.back_propagation.specs.DeltaRows.{what_follows, AreListsOfEdges, CanMakeRowAfter};
ghost use Rattle.back_propagation.specs.DeltaRows.{IsDeltaRow};
ghost use Rattle.back_propagation.specs.OpenRows.{IsBestRow, IsRelaxing, HasRelaxed};

use crate::full_rows::{NewRow, push_improved};
use crate::made_edges::MadeEdges;
use crate::open_row::{Basis, OpenRow};
use crate::queue::Queue;
use crate::slots::{Slots, column_in};
use labelled_graph::Table;
use net_model::{Edge, Items, LinkId, Network, PointId};
use std::alloc::{AllocError, Global};

/// The row of a target against a table, as `row` gives it, if the table already has whatever
/// follows from the row, except what follows with a delta edge as first premise. The delta edges
/// are ordinary edges of the table, a list for each point in which they end. What a round leaves to
/// the next is of this form (`RowsAreSaturatedAfterARound` of closure_model). Only what can still
/// change the row is settled; if nothing can, nothing is made. `AllocError` comes only for want of
/// memory.
pub fn row_after(
    alloc: Global,
    table: &Table,
    net: &Network,
    target: PointId,
    delta: &[Items<Edge>],
) -> Result<NewRow, AllocError>
    requires { CanMakeRowAfter net.now table.now target delta.now }
    ensures row { IfOk result (λ row. (row.target ≡ target)
        × (row.made ≡ reference_row net.now table.now target)) }
    ensures least { IfOk result (λ row. IsRowOf net.now table.now target row.made) }
    ensures within { IfOk result (λ row. All (λ one. IsWithin net.now one.edge.weight) row.made) }
{
    table.sound();
    net.sound();
    let made = made_from_seeds(alloc, Basis { table, net }, target, delta)?;
    Ok(NewRow { target, made })
}

/// The edges of the slots that improve.
fn made_from_seeds(
    alloc: Global,
    basis: Basis<'_>,
    target: PointId,
    delta: &[Items<Edge>],
) -> Result<MadeEdges, AllocError>
    requires { IsDeltaRow basis.net.now basis.table.now target delta.now }
    ensures { IfOk result (λ made. made ≡ reference_row basis.entry.net.now basis.entry.table.now
        target) }
{
    let labels = basis.net.links_from(alloc, target)?;
    let width = labels.len() + 1;
    let points = basis.net.points().len() as u32;
    let columns = copied(alloc, labels.as_slice())?;
    let slots = Slots::first(alloc, basis.table, points, target, columns)?;
    let mut row = OpenRow {
        slots,
        queue: Queue::new(alloc),
        width,
    };
    let places = row.seeded(alloc, basis, target, labels.as_slice(), delta)?;
    row.queue = Queue::of(alloc, places);
    row.settle_seeded(alloc, basis, target, delta)
}

/// The same labels once more.
fn copied(alloc: Global, labels: &[LinkId]) -> Result<Vec<LinkId>, AllocError>
    ensures { IfOk result (λ copied. copied.items ≡ labels.now) }
{
    let mut copied = Vec::new(alloc);
    copied.extend_from_slice(labels)?;
    Ok(copied)
}

impl OpenRow {
    /// Settles the live slots of the row, and returns the edges of those that improved.
    fn settle_seeded(
        &mut self,
        alloc: Global,
        basis: Basis<'_>,
        target: PointId,
        delta: &[Items<Edge>],
    ) -> Result<MadeEdges, AllocError>
        requires recorded { IsDeltaRow basis.net.now basis.table.now target delta.now }
        requires row { IsBestRow basis target delta.now self.old }
        ensures { IfOk result (λ made. made ≡ reference_row basis.entry.net.now
            basis.entry.table.now target) }
    {
        let mut made = MadeEdges::new(alloc, target);
        while let Some((weight, place)) = self.next_live() {
            let column = column_in(self.width, place);
            let edge = self.slots.edge(place, target, weight);
            let why = self.settle(place);
            push_improved(&mut made, &edge, why)?;
            let improved = why.is_some();
            self.relax_what_follows(basis, &edge, column, improved, delta)?;
        }
        Ok(made)
    }

    /// Relaxes what follows from an edge of the row: all of it if the edge improved, else what
    /// follows with the delta edges.
    fn relax_what_follows(
        &mut self,
        basis: Basis<'_>,
        edge: &Edge,
        column: usize,
        improved: bool,
        delta: &[Items<Edge>],
    ) -> Result<(), AllocError>
        requires row { IsRelaxing basis self.old edge.now column }
        requires delta { AreListsOfEdges basis.table.now delta.now }
        ensures { OnOk result (HasRelaxed self.old self.new
            (what_follows basis.entry.net.now basis.entry.table.now delta.now improved edge.now)) }
    {
        if improved {
            self.relax_consequences(basis, edge, column)?;
        } else {
            self.relax_after_delta(basis, edge, column, delta)?;
        }
        Ok(())
    }

    /// Relaxes what follows with a delta edge before the edge, for each that ends where it begins.
    fn relax_after_delta(
        &mut self,
        basis: Basis<'_>,
        edge: &Edge,
        column: usize,
        delta: &[Items<Edge>],
    ) -> Result<(), AllocError>
        requires row { IsRelaxing basis self.old edge.now column }
        requires delta { AreListsOfEdges basis.table.now delta.now }
        ensures { OnOk result (HasRelaxed self.old self.new
            (flat_map (from_first edge.now) (delta_at delta.now edge.now.from))) }
    {
        let firsts = delta[edge.from.0 as usize].as_slice();
        if self.may_improve(basis, edge, column, firsts.len()) {
            self.relax_after_all(basis, edge, column, firsts)?;
        }
        Ok(())
    }

    /// Relaxes what follows with an ordinary edge of the table before the edge, for each of some.
    fn relax_after_all(
        &mut self,
        basis: Basis<'_>,
        edge: &Edge,
        column: usize,
        firsts: &[Edge],
    ) -> Result<(), AllocError>
        requires row { IsRelaxing basis self.old edge.now column }
        requires firsts { All (HasEdge basis.table.now) firsts.now }
        ensures { OnOk result (HasRelaxed self.old self.new
            (flat_map (from_first edge.now) firsts.now)) }
    {
        for first in firsts {
            self.relax_after_first(basis, edge, column, first)?;
        }
        Ok(())
    }
}
