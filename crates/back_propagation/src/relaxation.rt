//! Relaxation: what follows from an edge of a row improves the slots of the row. What follows with
//! the ordinary edges of the table is relaxed block by block, unless words say that none of it
//! improves.

ghost use Rattle.std.specs.Prelude.{◌≡◌, ◌+◌, ◌*◌, ◌<◌, ◌≤◌, ◌^◌, ℕ, length, [], ◌∷◌, Some, pos};
ghost use Rattle.std.specs.Prelude.{int_lt, IfSome, IfNone, OnOk, slice_get, IsTrue, ◌<ℤ◌};
ghost use Rattle.std.specs.Prelude.{unsigned_abs, false};
ghost use Rattle.std.specs.List.{All, flat_map};
ghost use Rattle.net_model.specs.Edges.{IsLinkOf};
ghost use Rattle.net_model.specs.Limits.{most_weight};
ghost use Rattle.net_model.specs.Rules.{is_negative, joined_weight};
ghost use Rattle.closure_model.specs.ReferenceRow.{given, has_above, taken, from_removal};
ghost use Rattle.closure_model.specs.ReferenceRow.{from_link, from_first, ordinary_into};
ghost use Rattle.closure_model.specs.ReferenceRow.{consequences};
ghost use Rattle.closure_model.specs.Tables.{HasEdge};
ghost use Rattle.labelled_graph.specs.Entries.{edge_into};
ghost use Rattle.back_propagation.specs.Blocks.{AllAreSaturated, Ascend, IsHeld, IsSaturatedIn};
ghost use Rattle.back_propagation.specs.SlotPlaces.{place_in_slots, IsSlotAt, after_entry};
ghost use Rattle.back_propagation.specs.OpenRows.{IsRelaxing, HasRelaxed};

use crate::open_row::{Basis, OpenRow};
use closure_model::rows::{Made, Why};
use labelled_graph::Entry;
use net_model::{Edge, Link, LinkId, Network, PointId, Weight};
use reduction_rules::{cross_case, lower_case, no_case, removal, upper_case};
use std::alloc::AllocError;

/// How many entries are tested at once.
const BLOCK: usize = 32;

/// For how many points a whole column of words is tested in the time of one look.
const LOOKS: usize = 8;

/// How many words of a column are tested at once, before it is known whether one of them improves.
const PART: u32 = 128;

impl OpenRow {
    /// Relaxes what follows from an edge of the row, in the order of the definition. An edge of
    /// weight 0 or more has no consequence but the removal of its label.
    pub(crate) fn relax_consequences(
        &mut self,
        basis: Basis<'_>,
        edge: &Edge,
        column: usize,
    ) -> Result<(), AllocError>
        requires { IsRelaxing basis self.old edge.now column }
        ensures { OnOk result (HasRelaxed self.old self.new
            (consequences basis.entry.net.now basis.entry.table.now edge.now)) }
    {
        self.relax_removal(basis, edge)?;
        if is_negative(edge) {
            self.relax_over_link(basis, edge, column)?;
            self.relax_after_firsts(basis, edge, column)?;
        }
        Ok(())
    }

    /// Relaxes the edge without its label.
    fn relax_removal(&mut self, basis: Basis<'_>, edge: &Edge) -> Result<(), AllocError>
        requires { (column : ℕ) × IsRelaxing basis self.old edge.now column }
        ensures { OnOk result (HasRelaxed self.old self.new
            (from_removal basis.entry.net.now edge.now)) }
    {
        let place = place_of(self.width, edge.from, 0);
        self.relax_given(place, Why::Drop(*edge), removal(basis.net, edge))
    }

    /// Relaxes what follows over the link that ends where the edge begins, if one does.
    fn relax_over_link(
        &mut self,
        basis: Basis<'_>,
        edge: &Edge,
        column: usize,
    ) -> Result<(), AllocError>
        requires { IsRelaxing basis self.old edge.now column }
        ensures { OnOk result (HasRelaxed self.old self.new
            (from_link basis.entry.net.now edge.now)) }
    {
        let net = basis.net;
        if let Some(link) = net.activation(edge.from) {
            let place = place_of(self.width, link_of(net, link).from, column);
            self.relax_given(place, Why::Low(link, *edge), lower_case(net, link, edge))?;
            self.relax_given(place, Why::Cross(link, *edge), cross_case(net, link, edge))?;
        }
        Ok(())
    }

    /// Relaxes what follows with an ordinary edge of the table before a negative edge, for each
    /// that ends where it begins. Mostly nothing of it improves the row.
    fn relax_after_firsts(
        &mut self,
        basis: Basis<'_>,
        edge: &Edge,
        column: usize,
    ) -> Result<(), AllocError>
        requires row { IsRelaxing basis self.old edge.now column }
        requires negative { edge.now.weight <ℤ pos 0 }
        ensures { OnOk result (HasRelaxed self.old self.new
            (flat_map (from_first edge.now) (ordinary_into basis.entry.table.now edge.now.from))) }
    {
        let entries = basis.table.entries(edge.from);
        if self.may_improve_among(basis, edge, column, entries) {
            self.relax_by_blocks(basis, edge, column, entries)?;
        }
        Ok(())
    }

    /// Whether something that follows with the edges of some entries before the edge may go below
    /// what the row has. The answer is yes if they are no more than a block, which is tested by
    /// itself.
    fn may_improve_among(
        &self,
        basis: Basis<'_>,
        edge: &Edge,
        column: usize,
        entries: &[Entry],
    ) -> bool
        requires row { IsRelaxing basis self.now edge.now column }
        requires entries { All (IsHeld basis.table.now edge.now) entries.now }
        requires ascend { Ascend entries.now }
        requires negative { edge.now.weight <ℤ pos 0 }
        ensures { result ≡ false → All (IsSaturatedIn self.now.slots self.now.width edge.now column)
            entries.now }
    {
        if entries.len() <= BLOCK {
            return true;
        }
        self.improves_among(basis, edge, column, entries)
    }

    /// Relaxes what follows with the edges of some entries before the edge, by blocks: if nothing
    /// of a block goes below what the row has, one test shows it.
    fn relax_by_blocks(
        &mut self,
        basis: Basis<'_>,
        edge: &Edge,
        column: usize,
        entries: &[Entry],
    ) -> Result<(), AllocError>
        requires row { IsRelaxing basis self.old edge.now column }
        requires entries { All (IsHeld basis.table.now edge.now) entries.now }
        requires ascend { Ascend entries.now }
        requires negative { edge.now.weight <ℤ pos 0 }
        ensures { OnOk result (HasRelaxed self.old self.new
            (flat_map (after_entry edge.now) entries.now)) }
    {
        let mut at = 0;
        while at < entries.len() {
            let end = block_end(at, entries.len());
            let block = &entries[at..end];
            let improves = self.improves_among(basis, edge, column, block);
            self.relax_unless_saturated(basis, edge, column, block, improves)?;
            at = end;
        }
        Ok(())
    }

    /// Whether something that follows with the edges of some entries before the edge may go below
    /// what the row has, by words of both.
    fn improves_among(
        &self,
        basis: Basis<'_>,
        edge: &Edge,
        column: usize,
        entries: &[Entry],
    ) -> bool
        requires row { IsRelaxing basis self.now edge.now column }
        requires entries { All (IsHeld basis.table.now edge.now) entries.now }
        requires ascend { Ascend entries.now }
        requires some { 0 < length entries.now }
        requires negative { edge.now.weight <ℤ pos 0 }
        ensures { result ≡ false → All (IsSaturatedIn self.now.slots self.now.width edge.now column)
            entries.now }
    {
        let from = entries[0].from.0;
        let end = entries[entries.len() - 1].from.0 + 1;
        basis
            .table
            .improves_before(edge, self.slots.words(column), from, end)
    }

    /// Whether what follows with an ordinary edge of the table before the edge may go below what
    /// the row has, by words of the whole column. The answer is yes if the edges are so few that a
    /// look at each is faster.
    pub(crate) fn may_improve(
        &self,
        basis: Basis<'_>,
        edge: &Edge,
        column: usize,
        queries: usize,
    ) -> bool
        requires row { IsRelaxing basis self.now edge.now column }
        ensures { result ≡ false → AllAreSaturated basis.entry.table.now self.now.slots
            self.now.width
            edge.now column }
    {
        if !is_many(basis, queries) || edge.weight >= 0 {
            return true;
        }
        let points = basis.net.points().len();
        let words = self.slots.words(column);
        let mut at = 0;
        while at < points as u32 {
            let end = part_end(at, points as u32);
            if basis.table.improves_before(edge, words, at, end) {
                return true;
            }
            at = end;
        }
        false
    }

    /// Relaxes what follows with the edges of some entries before the edge, unless it is known that
    /// nothing of it goes below what the row has.
    fn relax_unless_saturated(
        &mut self,
        basis: Basis<'_>,
        edge: &Edge,
        column: usize,
        entries: &[Entry],
        improves: bool,
    ) -> Result<(), AllocError>
        requires row { IsRelaxing basis self.old edge.now column }
        requires entries { All (IsHeld basis.table.now edge.now) entries.now }
        requires met { improves ≡ false
            → All (IsSaturatedIn self.old.slots self.old.width edge.now column) entries.now }
        ensures { OnOk result (HasRelaxed self.old self.new
            (flat_map (after_entry edge.now) entries.now)) }
    {
        if improves {
            self.relax_after_entries(basis, edge, column, entries)?;
        }
        Ok(())
    }

    /// Relaxes what follows with the edge of an entry before the edge, for each of some entries.
    fn relax_after_entries(
        &mut self,
        basis: Basis<'_>,
        edge: &Edge,
        column: usize,
        entries: &[Entry],
    ) -> Result<(), AllocError>
        requires row { IsRelaxing basis self.old edge.now column }
        requires entries { All (IsHeld basis.table.now edge.now) entries.now }
        ensures { OnOk result (HasRelaxed self.old self.new
            (flat_map (after_entry edge.now) entries.now)) }
    {
        for entry in entries {
            self.relax_after_entry(basis, edge, column, entry)?;
        }
        Ok(())
    }

    /// Relaxes what follows with the edge of an entry before the edge, if it is an ordinary one.
    fn relax_after_entry(
        &mut self,
        basis: Basis<'_>,
        edge: &Edge,
        column: usize,
        entry: &Entry,
    ) -> Result<(), AllocError>
        requires row { IsRelaxing basis self.old edge.now column }
        requires entry { HasEdge basis.table.now (edge_into edge.now.from entry.now) }
        ensures { OnOk result (HasRelaxed self.old self.new (after_entry edge.now entry.now)) }
    {
        if entry.is_ordinary() {
            let first = entry.edge_into(edge.from);
            self.relax_after_first(basis, edge, column, &first)?;
        }
        Ok(())
    }

    /// Relaxes what follows with an ordinary edge of the table before the edge. Mostly it does not
    /// improve the row, as a look at the slot shows.
    #[inline(always)]
    pub(crate) fn relax_after_first(
        &mut self,
        basis: Basis<'_>,
        edge: &Edge,
        column: usize,
        first: &Edge,
    ) -> Result<(), AllocError>
        requires row { IsRelaxing basis self.old edge.now column }
        requires first { HasEdge basis.table.now first.now }
        ensures { OnOk result (HasRelaxed self.old self.new (from_first edge.now first.now)) }
    {
        let place = place_of(self.width, first.from, column);
        if !self.slots.has_above(place, joined_weight(first, edge)) {
            return Ok(());
        }
        self.relax_joined(basis, edge, column, first)
    }

    /// Relaxes what the rules give with an ordinary edge of the table before the edge.
    #[inline(never)]
    fn relax_joined(
        &mut self,
        basis: Basis<'_>,
        edge: &Edge,
        column: usize,
        first: &Edge,
    ) -> Result<(), AllocError>
        requires row { IsRelaxing basis self.old edge.now column }
        requires first { HasEdge basis.table.now first.now }
        ensures { OnOk result (HasRelaxed self.old self.new (from_first edge.now first.now)) }
    {
        let _ = basis;
        let place = place_of(self.width, first.from, column);
        self.relax_given(place, Why::No(*first, *edge), no_case(first, edge))?;
        self.relax_given(place, Why::Up(*first, *edge), upper_case(first, edge))
    }

    /// Relaxes what a rule gave, if it gave an edge.
    fn relax_given(&mut self, place: usize, why: Why, edge: Option<Edge>) -> Result<(), AllocError>
        requires { IfSome edge (IsSlotAt self.old.slots place) }
        ensures { OnOk result (HasRelaxed self.old self.new (given why edge)) }
    {
        if let Some(edge) = edge {
            self.relax(place, Made { edge, why })?;
        }
        Ok(())
    }

    /// Relaxes an edge: its slot takes it exactly if it has no weight or a greater one.
    fn relax(&mut self, place: usize, made: Made) -> Result<(), AllocError>
        requires { IsSlotAt self.old.slots place made.edge }
        ensures { OnOk result (HasRelaxed self.old self.new (made ∷ [])) }
    {
        if self.slots.has_above(place, made.edge.weight) {
            self.queue.push(made.edge.weight, place)?;
            self.slots.lower(place, &made)?;
        }
        Ok(())
    }
}

/// Whether the edges are so many that the words of a whole column are tested faster than each of
/// them.
pub(crate) fn is_many(basis: Basis<'_>, queries: usize) -> bool {
    queries > basis.net.points().len() / LOOKS
}

/// Where the block of entries ends that begins at one of so many.
fn block_end(at: usize, count: usize) -> usize
    requires { at < count }
    ensures after { at < result }
    ensures within { result ≤ count }
{
    if count - at > BLOCK {
        at + BLOCK
    } else {
        count
    }
}

/// Where the part of a column of so many words ends that begins at one of them.
fn part_end(at: u32, count: u32) -> u32
    requires { at < count }
    ensures after { at < result }
    ensures within { result ≤ count }
{
    if count - at > PART { at + PART } else { count }
}

fn is_negative(edge: &Edge) -> bool
    ensures { result ≡ is_negative edge.now }
{
    edge.weight < 0
}

/// The weight of one edge and then another, of which the first counts as 0 if it is below.
pub(crate) fn joined_weight(first: &Edge, second: &Edge) -> Weight
    requires first { unsigned_abs first.now.weight ≤ most_weight }
    requires second { unsigned_abs second.now.weight ≤ most_weight }
    ensures { result ≡ joined_weight first.now second.now }
{
    first.weight.max(0) + second.weight
}

fn link_of(net: &Network, name: LinkId) -> Link
    requires { name.0 < length net.now.links }
    ensures { IsLinkOf net.now name result }
{
    net.links()[name.0 as usize]
}

/// The place of the slot of a source and a column, if each source has so many slots.
pub(crate) fn place_of(width: usize, from: PointId, column: usize) -> usize
    requires { place_in_slots width from column < 2 ^ 64 }
    ensures { result ≡ place_in_slots width from column }
{
    from.0 as usize * width + column
}
