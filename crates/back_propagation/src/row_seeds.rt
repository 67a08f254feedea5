//! The seeds of the row of a target, the places in its queue at the start: found by its delta edges
//! over the edges into the target.

ghost use Rattle.std.specs.Prelude.{◌≡◌, ◌<◌, length, IfOk, OnOk};
ghost use Rattle.std.specs.List.{All, flat_map, list_any};
ghost use Rattle.closure_model.specs.Tables.{HasEdge};
ghost use Rattle.labelled_graph.specs.Entries.{edge_into};
ghost use Rattle.back_propagation.specs.DeltaRows.{goes_before, improves};
ghost use Rattle.back_propagation.specs.BestKeys.{AreBest};
ghost use Rattle.back_propagation.specs.BestCandidates.{candidate_after, candidate_over, AreApart};
ghost use Rattle.back_propagation.specs.BestCandidates.{HasGoneOver, HasTaken, IsPutIfSeed};
ghost use Rattle.back_propagation.specs.OpenRows.{IsSeeding, IsInFirstRow, IsRelaxing};

use crate::best_candidates::{BestCandidates, Candidate, Seeds};
use crate::open_row::{Basis, OpenRow};
use crate::relaxation::{is_many, joined_weight, place_of};
use crate::slots::column_of;
use labelled_graph::{Entry, Table};
use net_model::{Edge, Items, LinkId, PointId, Weight};
use std::alloc::{AllocError, Global};

/// Whether an ordinary edge ends where another begins.
#[inline(always)]
fn goes_before(first: &Edge, edge: &Edge) -> bool
    ensures { result ≡ goes_before first.now edge.now }
{
    first.label.is_none() && first.to == edge.from
}

impl OpenRow {
    /// The places with which the row of a target is seeded, by the delta edges, each with the
    /// weight of its slot; the slots are those of the table, with columns for these labels. Of the
    /// candidates for a key below what the table has, the best one counts alone, since the others
    /// give the key no lesser weight, and no sooner.
    pub(crate) fn seeded(
        &self,
        alloc: Global,
        basis: Basis<'_>,
        target: PointId,
        labels: &[LinkId],
        delta: &[Items<Edge>],
    ) -> Result<Vec<(Weight, usize)>, AllocError>
        requires { IsSeeding basis target labels.now delta.now self.now }
        ensures { IfOk result (λ places. AreBest basis.entry.table.now target delta.now
            places.items) }
    {
        let mut begin = Seeds {
            candidates: BestCandidates::new(alloc, self.slots.len())?,
            whole: Vec::new(alloc),
        };
        for entry in basis.table.entries(target) {
            self.relax_over_entry(basis, target, labels, delta, entry, &mut begin)?;
        }
        let places = begin.into_places()?;
        Ok(places)
    }

    /// Relaxes the candidates over the edge of an entry and the delta edges before it. If these are
    /// many, the row is seeded with the edge itself, if it improves the table with any of them,
    /// since the candidates cost more to compare than the edge to settle.
    fn relax_over_entry(
        &self,
        basis: Basis<'_>,
        target: PointId,
        labels: &[LinkId],
        delta: &[Items<Edge>],
        entry: &Entry,
        begin: &mut Seeds,
    ) -> Result<(), AllocError>
        requires row { IsSeeding basis target labels.now delta.now self.now }
        requires entry { HasEdge basis.table.now (edge_into target entry.now) }
        requires apart { AreApart begin.old.candidates }
        requires keys { length begin.old.candidates.marks.items ≡ length self.now.slots }
        ensures { OnOk result (HasGoneOver basis.entry.table.now target delta.now entry.now
            begin.old begin.new) }
    {
        if entry.weight >= 0 {
            return Ok(());
        }
        let firsts = delta[entry.from.0 as usize].as_slice();
        if firsts.is_empty() {
            return Ok(());
        }
        let edge = entry.edge_into(target);
        let column = column_of(labels, entry.label);
        if is_many(basis, firsts.len()) {
            self.push_if_seed(basis, &edge, column, firsts, &mut begin.whole)?;
            return Ok(());
        }
        self.relax_candidates_over(basis.table, &edge, column, firsts, &mut begin.candidates)?;
        Ok(())
    }

    /// Puts the place of an edge of the row at the end of others, if it improves the table with any
    /// of some edges before it.
    #[inline(never)]
    fn push_if_seed(
        &self,
        basis: Basis<'_>,
        edge: &Edge,
        column: usize,
        firsts: &[Edge],
        places: &mut Vec<(Weight, usize)>,
    ) -> Result<(), AllocError>
        requires row { IsRelaxing basis self.now edge.now column }
        requires edge { IsInFirstRow basis.table.now self.now edge.now column }
        requires firsts { All (HasEdge basis.table.now) firsts.now }
        ensures { OnOk result (IsPutIfSeed basis.entry.table.now self.now.width edge.now column
            firsts.now places.old.items places.new.items) }
    {
        if self.begins_after_any(basis, edge, column, firsts) {
            let place = place_of(self.width, edge.from, column);
            places.push((edge.weight, place))?;
        }
        Ok(())
    }

    /// Whether an edge of the row improves the table with any of some edges before it. Words of
    /// both show at once if none does.
    fn begins_after_any(
        &self,
        basis: Basis<'_>,
        edge: &Edge,
        column: usize,
        firsts: &[Edge],
    ) -> bool
        requires row { IsRelaxing basis self.now edge.now column }
        requires edge { IsInFirstRow basis.table.now self.now edge.now column }
        requires firsts { All (HasEdge basis.table.now) firsts.now }
        ensures { result ≡ list_any (improves basis.entry.table.now edge.now) firsts.now }
    {
        if !self.may_improve(basis, edge, column, firsts.len()) {
            return false;
        }
        self.passes_any(basis.table, edge, column, firsts)
    }

    fn passes_any(&self, table: &Table, edge: &Edge, column: usize, firsts: &[Edge]) -> bool
        requires edge { IsInFirstRow table.now self.now edge.now column }
        requires firsts { All (HasEdge table.now) firsts.now }
        ensures { result ≡ list_any (improves table.now edge.now) firsts.now }
    {
        firsts
            .iter()
            .any(|first| self.passes(table, edge, column, first))
    }

    /// Relaxes the candidates over an edge of the row and some edges before it.
    #[inline(always)]
    fn relax_candidates_over(
        &self,
        table: &Table,
        edge: &Edge,
        column: usize,
        firsts: &[Edge],
        candidates: &mut BestCandidates,
    ) -> Result<(), AllocError>
        requires edge { IsInFirstRow table.now self.now edge.now column }
        requires firsts { All (HasEdge table.now) firsts.now }
        requires apart { AreApart candidates.old }
        requires keys { length candidates.old.marks.items ≡ length self.now.slots }
        ensures { OnOk result (HasTaken candidates.old candidates.new
            (flat_map (candidate_after table.now self.now.width edge.now column) firsts.now)) }
    {
        for first in firsts {
            self.relax_candidate_over(table, edge, column, first, candidates)?;
        }
        Ok(())
    }

    /// Relaxes the candidate over an edge of the row and one before it, if it is below what the
    /// table has.
    #[inline(always)]
    fn relax_candidate_over(
        &self,
        table: &Table,
        edge: &Edge,
        column: usize,
        first: &Edge,
        candidates: &mut BestCandidates,
    ) -> Result<(), AllocError>
        requires edge { IsInFirstRow table.now self.now edge.now column }
        requires first { HasEdge table.now first.now }
        requires apart { AreApart candidates.old }
        requires keys { length candidates.old.marks.items ≡ length self.now.slots }
        ensures { OnOk result (HasTaken candidates.old candidates.new
            (candidate_after table.now self.now.width edge.now column first.now)) }
    {
        if !self.passes(table, edge, column, first) {
            return Ok(());
        }
        candidates.relax(self.candidate_over(table, edge, column, first))?;
        Ok(())
    }

    /// The candidate over an edge of the row and one before it.
    fn candidate_over(&self, table: &Table, edge: &Edge, column: usize, first: &Edge) -> Candidate
        requires edge { IsInFirstRow table.now self.now edge.now column }
        requires first { HasEdge table.now first.now }
        ensures candidate { result ≡ candidate_over self.now.width edge.now column first.now }
        ensures inside { result.to < length self.now.slots }
    {
        let _ = table;
        Candidate {
            to: place_of(self.width, first.from, column),
            total: joined_weight(first, edge),
            weight: edge.weight,
            place: place_of(self.width, edge.from, column),
        }
    }

    /// Whether the candidate over an edge and one of the row is below what the table has, by the
    /// slots of the row. Mostly it is not.
    #[inline(always)]
    fn passes(&self, table: &Table, edge: &Edge, column: usize, first: &Edge) -> bool
        requires edge { IsInFirstRow table.now self.now edge.now column }
        requires first { HasEdge table.now first.now }
        ensures { result ≡ improves table.now edge.now first.now }
    {
        let _ = table;
        if !goes_before(first, edge) {
            return false;
        }
        let place = place_of(self.width, first.from, column);
        self.slots.has_above(place, joined_weight(first, edge))
    }
}
