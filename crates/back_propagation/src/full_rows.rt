//! The full row of a target, of which every slot is settled, and the steps that settle one.

ghost use Rattle.std.specs.Prelude.{◌≡◌, ◌++◌, ◌<◌, ℕ, Bool, true, Some, length, slice_get, IfOk};
ghost use Rattle.std.specs.Prelude.{OnOk, IfSome};
ghost use Rattle.std.specs.List.{All};
ghost use Rattle.net_model.specs.Network.{IsPoint, IsPlan};
ghost use Rattle.closure_model.specs.ReferenceRow.{reference_row, IsRowOf, HasWeightsWithin};
ghost use Rattle.closure_model.specs.ReferenceRow.{IsWithin, edge_in, improved};
ghost use Rattle.closure_model.specs.Tables.{IsFor};
ghost use Rattle.closure_model.specs.declared.rows.Slot.{Slot};
ghost use Rattle.back_propagation.specs.QueuedPlaces.{IsQueued, IsNextOrDone, IsPut};
ghost use Rattle.back_propagation.specs.OpenRows.{IsSeededRow, IsSameButForQueue, HasSettled};

use crate::made_edges::MadeEdges;
use crate::open_row::{Basis, OpenRow};
use crate::queue::Queue;
use crate::slots::{Slots, column_in};
use closure_model::rows::{Made, Why};
use labelled_graph::Table;
use net_model::{Edge, Network, PointId, Weight};
use std::alloc::{AllocError, Global};

/// What improves in the row of a target against a table, in the order of settling.
#[derive(Debug, Drop)]
pub struct NewRow {
    pub target: PointId,
    pub made: MadeEdges,
}

/// The row of a target against a table of the network whose weights are from -M to M: the edges of
/// the keys that improve, each with its rule and the premises with the weights that were used, in
/// the order of settling. The keys are settled from the least weight on, at equal weights in the
/// order of keys; first premises are always edges of the table. That is exactly the reference row,
/// and it is the least one; its weights are from -M to M. `AllocError` comes only for want of
/// memory.
pub fn row(
    alloc: Global,
    table: &Table,
    net: &Network,
    target: PointId,
) -> Result<NewRow, AllocError>
    requires fits { IsFor net.now table.now }
    requires target { IsPoint net.now target }
    requires within { HasWeightsWithin net.now table.now }
    ensures row { IfOk result (λ row. (row.target ≡ target)
        × (row.made ≡ reference_row net.now table.now target)) }
    ensures least { IfOk result (λ row. IsRowOf net.now table.now target row.made) }
    ensures within { IfOk result (λ row. All (λ one. IsWithin net.now one.edge.weight) row.made) }
{
    table.sound();
    let labels = net.links_from(alloc, target)?;
    let width = labels.len() + 1;
    let points = net.points().len() as u32;
    let slots = Slots::first(alloc, table, points, target, labels)?;
    let queue = queue_all(alloc, &slots)?;
    let mut row = OpenRow {
        slots,
        queue,
        width,
    };
    let made = row.settle_all(alloc, Basis { table, net }, target)?;
    Ok(NewRow { target, made })
}

/// All places of slots that have a weight.
fn queue_all(alloc: Global, slots: &Slots) -> Result<Queue, AllocError>
    ensures { IfOk result (IsQueued (λ _. true) slots.now) }
{
    let mut queue = Queue::new(alloc);
    for place in 0..slots.len() {
        queue_weight(&mut queue, place, slots.weight(place))?;
    }
    Ok(queue)
}

/// Puts a place into the queue at the weight of its slot, if that has one.
fn queue_weight(queue: &mut Queue, place: usize, weight: Option<Weight>) -> Result<(), AllocError>
    ensures { OnOk result (IsPut place weight queue.old queue.new) }
{
    if let Some(weight) = weight {
        queue.push(weight, place)?;
    }
    Ok(())
}

impl OpenRow {
    /// Settles the slots of the row, and returns the edges of those that improved.
    fn settle_all(
        &mut self,
        alloc: Global,
        basis: Basis<'_>,
        target: PointId,
    ) -> Result<MadeEdges, AllocError>
        requires { IsSeededRow basis target (λ _. true) self.old }
        ensures { IfOk result (λ made. made ≡ reference_row basis.entry.net.now
            basis.entry.table.now target) }
    {
        let mut made = MadeEdges::new(alloc, target);
        while let Some((weight, place)) = self.next_live() {
            let column = column_in(self.width, place);
            let edge = self.slots.edge(place, target, weight);
            let why = self.settle(place);
            push_improved(&mut made, &edge, why)?;
            self.relax_consequences(basis, &edge, column)?;
        }
        Ok(made)
    }

    /// Takes from the queue until a place comes whose slot is not settled: it is the live one that
    /// is settled next.
    pub(crate) fn next_live(&mut self) -> Option<(Weight, usize)>
        requires { (begins : ℕ → Bool) × IsQueued begins self.old.slots self.old.queue }
        ensures next { (begins : ℕ → Bool) → IsQueued begins self.old.slots self.old.queue
            → IsNextOrDone begins self.new.slots self.new.queue result }
        ensures inside { IfSome result (λ one. one.1 < length self.new.slots) }
        ensures row { IsSameButForQueue self.old self.new }
    {
        while let Some(next) = self.queue.pop() {
            if self.slots.is_open(next.1) {
                return Some(next);
            }
        }
        None
    }

    /// Marks the slot at a place as settled, and returns how it improved, if it did.
    pub(crate) fn settle(&mut self, place: usize) -> Option<Why>
        requires { place < length self.old.slots }
        ensures { (slot : Slot) → slice_get self.old.slots place ≡ Some slot
            → HasSettled self.old self.new place slot × (result ≡ slot.why) }
    {
        self.slots.settle(place)
    }
}

/// Pushes the edge of a slot that was settled, if it improved.
#[inline(always)]
pub(crate) fn push_improved(
    made: &mut MadeEdges,
    edge: &Edge,
    why: Option<Why>,
) -> Result<(), AllocError>
    ensures { OnOk result ((to : PointId) (slot : Slot) → why ≡ slot.why
        → edge.now ≡ edge_in to slot edge.now.weight
        → made.new ≡ made.old ++ improved to slot edge.now.weight) }
{
    if let Some(why) = why {
        made.push(&Made { edge: *edge, why })?;
    }
    Ok(())
}
