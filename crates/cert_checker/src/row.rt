//! The least weights of the entries of a target, or of a label.

ghost use Rattle.std.specs.Prelude.{◌≡◌, ◌<◌, ◌≤◌, ◌<ℤ◌, pos, length, IfOk, OnOk, replicate};
ghost use Rattle.std.specs.Prelude.{unsigned_abs};
ghost use Rattle.std.specs.List.{slice_index_or};
ghost use Rattle.net_model.specs.Limits.{most_weight};
ghost use Rattle.cert_checker.specs.Least.{absent, descends, improves_in, lowered_row};

use crate::few::{ABSENT, Few};
use net_model::{Edge, PointId, Weight};
use std::alloc::{AllocError, Global};
use std::marker::Model;

/// The least weight of the entries of a target, or of a label, for each point in which they begin.
/// While they are few, `few` has them and `words` nothing; then `words` has a word for each point
/// and `few` nothing. So the memory of a row grows with its entries. Contracts see it as the list
/// of its words.
#[derive(Drop)]
pub(crate) struct WeightRow {
    few: Few,
    words: Vec<Weight>,
}

impl Model for WeightRow {
    ghost use Rattle.std.specs.Prelude.{◌≡◌, ◌⊎◌, List, ℤ, [], length};
    ghost use Rattle.cert_checker.specs.Few.{words_or};

    ghost Value = { List ℤ };

    ghost view = { λ row. words_or row.words.items row.few };

    ghost invariant = { λ row. (row.words.items ≡ []) ⊎ (length row.words.items ≡ length row.few) };
}

impl WeightRow {
    /// A row without weights. It takes no memory.
    pub(crate) fn absent(alloc: Global, points: u32) -> WeightRow
        ensures { result ≡ replicate points absent }
    {
        WeightRow {
            few: Few::none(alloc, points),
            words: Vec::new(alloc),
        }
    }

    /// The word of a point.
    pub(crate) fn get(&self, from: PointId) -> Weight
        requires { from.0 < length self.now }
        ensures { result ≡ slice_index_or self.now from.0 absent }
    {
        if self.words.is_empty() {
            return self.few.get(from.0);
        }
        self.words[from.0 as usize]
    }

    /// Lowers the word of the point in which an edge begins to its weight. `AllocError` comes only
    /// for want of memory.
    pub(crate) fn lower(&mut self, alloc: Global, edge: &Edge) -> Result<(), AllocError>
        requires { edge.now.from.0 < length self.old }
        ensures { OnOk result (self.new ≡ lowered_row self.old edge.now.from.0 edge.now.weight) }
    {
        if self.words.is_empty() {
            self.few.lower(edge.from.0, edge.weight)?;
            return self.spread(alloc);
        }
        let from = edge.from.0 as usize;
        self.words[from] = self.words[from].min(edge.weight);
        Ok(())
    }

    /// Gives each point a word if there are no longer few.
    fn spread(&mut self, alloc: Global) -> Result<(), AllocError>
        ensures { OnOk result (self.new ≡ self.old) }
    {
        if self.words.is_empty() && self.few.are_many() {
            self.words = self.few.words(alloc)?;
            self.few.clear(alloc);
        }
        Ok(())
    }

    /// Whether at some point the word of this row, counted as 0 if it is below, and the negative
    /// weight of an edge after it go below the word of another row.
    pub(crate) fn improves_in(&self, there: &WeightRow, second: &Edge) -> bool
        requires lengths { length self.now ≡ length there.now }
        requires negative { second.now.weight <ℤ pos 0 }
        requires weight { unsigned_abs second.now.weight ≤ most_weight }
        ensures { result ≡ improves_in self.now there.now second.now.weight }
    {
        if self.words.is_empty() {
            return few_improve_in(&self.few, there, second);
        }
        if there.words.is_empty() {
            return words_improve_in(self.words.as_slice(), &there.few, second);
        }
        improves_in(self.words.as_slice(), there.words.as_slice(), second)
    }
}

/// The same if the first row has few.
fn few_improve_in(firsts: &Few, there: &WeightRow, second: &Edge) -> bool
    requires lengths { length firsts.now ≡ length there.now }
    requires negative { second.now.weight <ℤ pos 0 }
    requires weight { unsigned_abs second.now.weight ≤ most_weight }
    ensures { result ≡ improves_in firsts.now there.now second.now.weight }
{
    for start in firsts.starts() {
        if descends(start.word, there.get(PointId(start.from)), second.weight) {
            return true;
        }
    }
    false
}

/// The same if the second row alone does.
fn words_improve_in(firsts: &[Weight], there: &Few, second: &Edge) -> bool
    requires lengths { length firsts.now ≡ length there.now }
    requires negative { second.now.weight <ℤ pos 0 }
    requires weight { unsigned_abs second.now.weight ≤ most_weight }
    ensures { result ≡ improves_in firsts.now there.now second.now.weight }
{
    for from in 0..there.len() {
        if descends(firsts[from as usize], there.get(from), second.weight) {
            return true;
        }
    }
    false
}

/// The same of two rows that have a word for each point.
fn improves_in(firsts: &[Weight], there: &[Weight], second: &Edge) -> bool
    requires lengths { length firsts.now ≡ length there.now }
    requires negative { second.now.weight <ℤ pos 0 }
    requires weight { unsigned_abs second.now.weight ≤ most_weight }
    ensures { result ≡ improves_in firsts.now there.now second.now.weight }
{
    let mut improves_in = false;
    for place in 0..firsts.len() {
        improves_in |= descends(firsts[place], there[place], second.weight);
    }
    improves_in
}

fn descends(first: Weight, there: Weight, weight: Weight) -> bool
    requires negative { weight <ℤ pos 0 }
    requires weight { unsigned_abs weight ≤ most_weight }
    ensures { result ≡ descends first there weight }
{
    // Both are looked at whatever the other says, so that several places are at once.
    (first < ABSENT) & (first.max(0) + weight < there)
}
