//! A dense row: a word of four bytes for each point in which an edge may begin.

ghost use Rattle.std.specs.Prelude.{◌≡◌, ◌<◌, ◌≤◌, ◌==◌, ◌<ℤ◌, ◌+ℤ◌, ◌++◌, [], ◌∷◌, ℕ, pos, false};
ghost use Rattle.std.specs.Prelude.{int_lt, length, map, IfOk, IfSome, OnOk, None, Some, replicate};
ghost use Rattle.std.specs.Int.{int_max, int_min};
ghost use Rattle.std.specs.List.{slice_index_or, slice_set};
ghost use Rattle.labelled_graph.specs.Words.{absent, held, least_word, nearest_word, word_of};
ghost use Rattle.labelled_graph.specs.Words.{FitsWord, IsRecorded, SaturatesHeld};

use net_model::{PointId, Weight};
use std::alloc::{AllocError, Global};
use std::marker::Model;

/// The word of a place without a weight. No weight that fits a word is of that size.
const ABSENT: i32 = i32::MAX;

/// A weight, or none, for each point in which an edge may begin, in a word of four bytes each.
/// Contracts see it as the list of what it has.
#[derive(Debug, Drop)]
pub struct DenseRow {
    words: Vec<i32>,
}

impl Model for DenseRow {
    ghost use Rattle.std.specs.Prelude.{List, Option, ℤ, map};
    ghost use Rattle.labelled_graph.specs.Words.{held};

    ghost Value = { List (Option ℤ) };

    ghost view = { λ row. map held row.words.items };
}

impl DenseRow {
    /// A row without places. It takes no memory.
    pub(crate) fn empty(alloc: Global) -> DenseRow
        ensures { result ≡ [] }
    {
        DenseRow {
            words: Vec::new(alloc),
        }
    }

    /// A row without weights, for so many points. `AllocError` comes only for want of memory.
    pub fn absent(alloc: Global, points: usize) -> Result<DenseRow, AllocError>
        ensures { IfOk result (λ row. row ≡ replicate points None) }
    {
        Ok(DenseRow {
            words: vec![in alloc; ABSENT; points]?,
        })
    }

    /// What the row has at a point.
    pub fn get(&self, from: PointId) -> Option<Weight>
        requires { from.0 < length self.now }
        ensures { result ≡ slice_index_or self.now from.0 None }
    {
        let word = self.words[from.0 as usize];
        if word == ABSENT {
            None
        } else {
            Some(word as i64)
        }
    }

    /// Sets the weight of a point.
    pub fn set(&mut self, from: PointId, weight: Weight)
        requires from_point { from.0 < length self.old }
        requires weight { FitsWord weight }
        ensures { self.new ≡ slice_set self.old from.0 (Some weight) }
    {
        self.words[from.0 as usize] = weight as i32;
    }

    /// Sets what the row has at a point, by the nearest word. A row that has no place for the point
    /// stays as it is.
    pub(crate) fn put(&mut self, from: PointId, weight: Option<Weight>)
        ensures { self.new ≡ slice_set self.old from.0 (held (word_of weight)) }
    {
        let place = from.0 as usize;
        if place < self.words.len() {
            self.words[place] = word_of(weight);
        }
    }

    /// The weight of a point, if its word gives it exactly: the least and the greatest word may
    /// stand for a weight beyond them, or for none.
    pub(crate) fn recorded(&self, from: PointId) -> Option<Weight>
        ensures { IfSome result (IsRecorded self.now from.0) }
    {
        let place = from.0 as usize;
        if place < self.words.len() {
            recorded_by(self.words[place])
        } else {
            None
        }
    }

    /// Whether the row has no place.
    pub(crate) fn is_empty(&self) -> bool
        ensures { result ≡ (length self.now == 0) }
    {
        self.words.is_empty()
    }

    /// The words, in the order of the points.
    pub(crate) fn words(&self) -> &[i32]
        ensures { map held result.now ≡ self.now }
    {
        self.words.as_slice()
    }

    /// The same row once more. `AllocError` comes only for want of memory.
    pub(crate) fn copy(&self, alloc: Global) -> Result<DenseRow, AllocError>
        ensures { IfOk result (λ row. row ≡ self.now) }
    {
        let mut words = Vec::new(alloc);
        words.extend_from_slice(self.words.as_slice())?;
        Ok(DenseRow { words })
    }

    /// Whether at a place of a range the weight of this row, counted as 0 if it is below, plus a
    /// negative weight may be less than what words of others hold there. It may whenever the row or
    /// the words have fewer places.
    pub(crate) fn improves_before(
        &self,
        there: &[i32],
        from: usize,
        end: usize,
        weight: Weight,
    ) -> bool
        requires negative { weight <ℤ pos 0 }
        requires weight { FitsWord weight }
        ensures within { result ≡ false → end ≤ length self.now }
        ensures saturates { result ≡ false → (k : ℕ) → from ≤ k → k < end
            → SaturatesHeld (slice_index_or self.now k None)
            (held (slice_index_or there.now k (pos 0))) weight }
    {
        if end > self.words.len() || end > there.len() {
            return true;
        }
        improves_in(self.words.as_slice(), there, from, end, weight as i32)
    }

    /// Whether at a place of a range the weight of this row, counted as 0 if it is below, plus a
    /// negative weight may be less than what another row has there. If the answer is no, it is not;
    /// that it is no whenever it could be is no clause.
    pub fn improves_in(&self, there: &DenseRow, from: usize, end: usize, weight: Weight) -> bool
        requires lengths { (end ≤ length self.now) × (end ≤ length there.now) }
        requires negative { weight <ℤ pos 0 }
        requires weight { FitsWord weight }
        ensures { result ≡ false → (k : ℕ) → from ≤ k → k < end
            → SaturatesHeld (slice_index_or self.now k None)
            (slice_index_or there.now k None) weight }
    {
        improves_in(
            self.words.as_slice(),
            there.words.as_slice(),
            from,
            end,
            weight as i32,
        )
    }
}

/// The word of what a key has: the nearest.
fn word_of(weight: Option<Weight>) -> i32
    ensures { result ≡ word_of weight }
{
    match weight {
        None => ABSENT,
        Some(weight) => nearest_word(weight),
    }
}

/// The word that is nearest to a weight.
pub fn nearest_word(weight: Weight) -> i32
    ensures { result ≡ nearest_word weight }
{
    if weight < i32::MIN as i64 {
        i32::MIN
    } else if weight > ABSENT as i64 {
        ABSENT
    } else {
        weight as i32
    }
}

/// What a word that is neither the least nor the greatest stands for.
fn recorded_by(word: i32) -> Option<Weight>
    ensures { IfSome result (λ weight. (weight ≡ word) × (least_word <ℤ weight)
        × (weight <ℤ absent)) }
{
    if word == ABSENT || word == i32::MIN {
        None
    } else {
        Some(word as i64)
    }
}

fn improves_in(firsts: &[i32], there: &[i32], from: usize, end: usize, weight: i32) -> bool
    requires lengths { (end ≤ length firsts.now) × (end ≤ length there.now) }
    requires negative { weight <ℤ pos 0 }
    requires weight { FitsWord weight }
    ensures { result ≡ false → (k : ℕ) → from ≤ k → k < end
        → SaturatesHeld (held (slice_index_or firsts.now k (pos 0)))
        (held (slice_index_or there.now k (pos 0))) weight }
{
    let mut improves_in = false;
    for place in from..end {
        improves_in |= descends(firsts[place], there[place], weight);
    }
    improves_in
}

/// Whether the weight that a word holds, counted as 0 if it is below, plus a negative weight may be
/// less than what another word holds.
fn descends(first: i32, there: i32, weight: i32) -> bool
    requires negative { weight <ℤ pos 0 }
    requires weight { FitsWord weight }
    ensures { result ≡ false → SaturatesHeld (held first) (held there) weight }
{
    // The greatest word gives the limit and any other a number below it, so one comparison shows
    // whether there is a weight and how low it is.
    goes_below(first, weight, limited(there, weight))
}

/// The lesser of a word and of the limit: the greatest word plus a negative weight.
fn limited(there: i32, weight: i32) -> i32
    requires negative { weight <ℤ pos 0 }
    requires weight { FitsWord weight }
    ensures { result ≡ int_min there (absent +ℤ weight) }
{
    there.min(ABSENT + weight)
}

fn goes_below(first: i32, weight: i32, there: i32) -> bool
    requires negative { weight <ℤ pos 0 }
    requires weight { FitsWord weight }
    ensures { result ≡ int_lt (int_max first (pos 0) +ℤ weight) there }
{
    first.max(0) + weight < there
}
