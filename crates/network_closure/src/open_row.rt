//! A row in progress: the keys of one target, and the queue of the negative ones.

ghost use Rattle.std.specs.Prelude.{◌≡◌, ◌+◌, ◌<◌, ◌≤◌, length, IfOk, IfSome, OnSome, Some};
ghost use Rattle.std.specs.BinaryHeap.{heap_len};
ghost use Rattle.closure_model.specs.Derivable.{IsDerivable};
ghost use Rattle.closure_model.specs.Keys.{shape_of, IsLabelAt};
ghost use Rattle.network_closure.specs.Progress.{ProgressGoesOn, ImprovesForEach, IsDerivedInto};

use crate::consequences::{after, over_link, without_label};
use crate::relaxable::Relaxable;
use net_model::{Edge, LinkId, PointId, Weight};
use std::alloc::{AllocError, Global};
use std::cmp::Reverse;
use std::collections::BinaryHeap;

/// The queued negative keys of a row, the least first: a weight, where the edge begins, and its
/// label, by the number above it or 0.
type KeyQueue = BinaryHeap<Reverse<(Weight, u32, u32)>>;

/// How many points are looked at together.
const BLOCK: u32 = 32;

/// A row in progress: the point in which its edges end, and its queued negative keys.
#[derive(Drop)]
pub(crate) struct OpenRow {
    pub(crate) target: PointId,
    queue: KeyQueue,
}

impl OpenRow {
    /// The row of a point, with the negative keys that a table has for it.
    pub(crate) fn of<T: Relaxable>(
        alloc: Global,
        table: &mut T,
        target: PointId,
    ) -> Result<OpenRow, AllocError>
        requires { target.0 < length (T.progress table.old).net.points }
        ensures goes_on { ProgressGoesOn (T.progress table.old) (T.progress table.new) }
        ensures target { IfOk result (λ row. row.target ≡ target) }
    {
        let mut row = OpenRow {
            target,
            queue: BinaryHeap::new(alloc),
        };
        row.begin_ordinary(table)?;
        for link in 0..table.net().links().len() as u32 {
            if table.net().links()[link as usize].from == target {
                row.begin_labelled(table, LinkId(link))?;
            }
        }
        Ok(row)
    }

    /// Queues its negative keys without a label, as a table has them.
    fn begin_ordinary<T: Relaxable>(&mut self, table: &mut T) -> Result<(), AllocError>
        requires { self.old.target.0 < length (T.progress table.old).net.points }
        ensures goes_on { ProgressGoesOn (T.progress table.old) (T.progress table.new) }
        ensures target { self.new.target ≡ self.old.target }
    {
        for from in 0..points(table) {
            if let Some(edge) = edge_at(table, PointId(from), self.target, None) {
                self.enqueue(&edge)?;
            }
        }
        Ok(())
    }

    /// The same for those that are labelled by a link that begins in its target. Their labels are
    /// removed too.
    fn begin_labelled<T: Relaxable>(
        &mut self,
        table: &mut T,
        link: LinkId,
    ) -> Result<(), AllocError>
        requires target { self.old.target.0 < length (T.progress table.old).net.points }
        requires link { IsLabelAt (shape_of (T.progress table.old).net) self.old.target
            (Some link) }
        ensures goes_on { ProgressGoesOn (T.progress table.old) (T.progress table.new) }
        ensures target { self.new.target ≡ self.old.target }
    {
        for from in 0..points(table) {
            if let Some(edge) = edge_at(table, PointId(from), self.target, Some(link)) {
                self.enqueue(&edge)?;
                let without_label = without_label(table.net(), &edge);
                self.relax(table, without_label)?;
            }
        }
        Ok(())
    }

    /// Queues the key of an edge, if it is negative.
    pub(crate) fn enqueue(&mut self, edge: &Edge) -> Result<(), AllocError>
        ensures target { self.new.target ≡ self.old.target }
        ensures queue { heap_len self.new.queue ≤ heap_len self.old.queue + 1 }
    {
        if edge.weight < 0 {
            let key = (edge.weight, edge.from.0, number_of(edge.label));
            self.queue.push(Reverse(key))?;
        }
        Ok(())
    }

    /// The next key of the row that was queued at the weight that a table has for it.
    pub(crate) fn next<T: Relaxable>(&mut self, table: &mut T) -> Option<Edge>
        ensures goes_on { ProgressGoesOn (T.progress table.old) (T.progress table.new) }
        ensures target { self.new.target ≡ self.old.target }
        ensures edge { IfSome result (IsDerivedInto (T.progress table.old).net self.old.target) }
        ensures taken { OnSome result (heap_len self.new.queue + 1 ≤ heap_len self.old.queue) }
    {
        for _one in 0..self.queue.len() {
            let Reverse((weight, from, number)) = self.queue.pop()?;
            let edge = self.edge_from(table, PointId(from), number);
            if let Some(edge) = edge {
                if edge.weight == weight {
                    return Some(edge);
                }
            }
        }
        None
    }

    /// The edge of the row from a point with the number of a label, if a table has one.
    fn edge_from<T: Relaxable>(&self, table: &mut T, from: PointId, number: u32) -> Option<Edge>
        ensures goes_on { ProgressGoesOn (T.progress table.old) (T.progress table.new) }
        ensures edge { IfSome result (IsDerivedInto (T.progress table.old).net self.now.target) }
    {
        let points = points(table);
        if from.0 >= points || self.target.0 >= points {
            return None;
        }
        if number == 0 {
            return edge_at(table, from, self.target, None);
        }
        let link = table.net().links().get(number as usize - 1)?;
        if link.from != self.target {
            return None;
        }
        edge_at(table, from, self.target, Some(LinkId(number - 1)))
    }

    /// Relaxes whatever follows from an edge over a link, or with an ordinary edge of a table before
    /// it.
    pub(crate) fn settle<T: Relaxable>(
        &mut self,
        table: &mut T,
        edge: &Edge,
    ) -> Result<(), AllocError>
        requires { IsDerivedInto (T.progress table.old).net self.old.target edge.now }
        ensures { ImprovesForEach (T.progress table.old) (T.progress table.new) self.old self.new }
    {
        let over = over_link(table.net(), edge);
        self.relax(table, over)?;
        for block in 0..points(table) / BLOCK + 1 {
            self.settle_block(table, edge, block)?;
        }
        Ok(())
    }

    /// Relaxes what follows with an ordinary edge before an edge, for the points of a block, if
    /// something may improve there.
    fn settle_block<T: Relaxable>(
        &mut self,
        table: &mut T,
        edge: &Edge,
        block: u32,
    ) -> Result<(), AllocError>
        requires { IsDerivedInto (T.progress table.old).net self.old.target edge.now }
        ensures { ImprovesForEach (T.progress table.old) (T.progress table.new) self.old self.new }
    {
        let points = points(table);
        let begin = block.saturating_mul(BLOCK).min(points);
        let end = begin.saturating_add(BLOCK).min(points);
        if table.may_improve(edge, begin, end) {
            self.settle_between(table, edge, begin, end)?;
        }
        Ok(())
    }

    fn settle_between<T: Relaxable>(
        &mut self,
        table: &mut T,
        edge: &Edge,
        begin: u32,
        end: u32,
    ) -> Result<(), AllocError>
        requires edge { IsDerivedInto (T.progress table.old).net self.old.target edge.now }
        requires end { end ≤ length (T.progress table.old).net.points }
        ensures { ImprovesForEach (T.progress table.old) (T.progress table.new) self.old self.new }
    {
        for from in begin..end {
            self.settle_after(table, edge, PointId(from))?;
        }
        Ok(())
    }

    /// Relaxes what follows with the ordinary edge of a table from a point before an edge, if the
    /// table has one. If that is negative, nothing is queued unless others lower the table, too.
    fn settle_after<T: Relaxable>(
        &mut self,
        table: &mut T,
        edge: &Edge,
        from: PointId,
    ) -> Result<(), AllocError>
        requires edge { IsDerivedInto (T.progress table.old).net self.old.target edge.now }
        requires from { from.0 < length (T.progress table.old).net.points }
        ensures { ImprovesForEach (T.progress table.old) (T.progress table.new) self.old self.new }
    {
        if let Some(first) = edge_at(table, from, edge.from, None) {
            let given = after(table.net(), &first, edge);
            if first.weight < 0 && !T::IS_SHARED {
                relax_unqueued(table, given);
            } else {
                self.relax(table, given)?;
            }
        }
        Ok(())
    }

    /// Relaxes what a rule gave, and then the edge without its label; a key that improves and is
    /// negative is queued.
    fn relax<T: Relaxable>(&mut self, table: &mut T, edge: Option<Edge>) -> Result<(), AllocError>
        requires { IfSome edge (IsDerivable (T.progress table.old).net) }
        ensures { ImprovesForEach (T.progress table.old) (T.progress table.new) self.old self.new }
    {
        if let Some(edge) = edge {
            self.relax_one(table, &edge)?;
            if let Some(without_label) = without_label(table.net(), &edge) {
                self.relax_one(table, &without_label)?;
            }
        }
        Ok(())
    }

    /// Relaxes an edge; if its key improves and is negative, it is queued.
    fn relax_one<T: Relaxable>(&mut self, table: &mut T, edge: &Edge) -> Result<(), AllocError>
        requires { IsDerivable (T.progress table.old).net edge.now }
        ensures { ImprovesForEach (T.progress table.old) (T.progress table.new) self.old self.new }
    {
        if table.lower_to(edge) {
            self.enqueue(edge)?;
        }
        Ok(())
    }
}

/// How many points the network of a table has.
pub(crate) fn points<T: Relaxable>(table: &T) -> u32
    ensures { result ≡ length (T.progress table.now).net.points }
{
    table.net().points().len() as u32
}

/// The edge that a table has at this step for the key of a source, a target and a label, or without
/// one, if it has one.
fn edge_at<T: Relaxable>(
    table: &mut T,
    from: PointId,
    to: PointId,
    label: Option<LinkId>,
) -> Option<Edge>
    requires from_point { from.0 < length (T.progress table.old).net.points }
    requires to_point { to.0 < length (T.progress table.old).net.points }
    requires label { IsLabelAt (shape_of (T.progress table.old).net) to label }
    ensures goes_on { ProgressGoesOn (T.progress table.old) (T.progress table.new) }
    ensures edge { IfSome result (IsDerivedInto (T.progress table.old).net to) }
{
    let weight = table.weight(from, to, label)?;
    Some(Edge {
        from,
        to,
        label,
        weight,
    })
}

/// Relaxes what a rule gave, and then the edge without its label. No key is queued.
fn relax_unqueued<T: Relaxable>(table: &mut T, edge: Option<Edge>)
    requires { IfSome edge (IsDerivable (T.progress table.old).net) }
    ensures { ProgressGoesOn (T.progress table.old) (T.progress table.new) }
{
    if let Some(edge) = edge {
        table.lower_to(&edge);
        if let Some(without_label) = without_label(table.net(), &edge) {
            table.lower_to(&without_label);
        }
    }
}

fn number_of(label: Option<LinkId>) -> u32 {
    match label {
        None => 0,
        Some(label) => label.0.wrapping_add(1),
    }
}
