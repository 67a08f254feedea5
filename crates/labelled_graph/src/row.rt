//! The row of a point: the entries of the edges that end in it, and if many, a dense row.

ghost use Rattle.std.specs.Prelude.{◌≡◌, ◌<◌, ◌≤◌, ◌*◌, ◌+◌, ◌^◌, ◌<ℤ◌, ◌++◌, ◌∷◌, [], take, drop};
ghost use Rattle.std.specs.Prelude.{length, pos, false, IfSome, IsSome, Some, OnOk, OnErr, IfOk};
ghost use Rattle.std.specs.Prelude.{map, slice_index_or};
ghost use Rattle.std.specs.FinMap as map_of;
ghost use Rattle.std.specs.List.Sorted.{IsSearchInRange};
ghost use Rattle.std.specs.declared.cmp.Ordering.TheVariants.{Less};
ghost use Rattle.std.specs.Vec.{vec_len, vec_capacity};
ghost use Rattle.net_model.specs.declared.ids.PointId.{PointId};
ghost use Rattle.closure_model.specs.Keys.{key_of, ordinary_key};
ghost use Rattle.labelled_graph.specs.Entries.{key_with};
ghost use Rattle.labelled_graph.specs.MergedRows.{row_set, word_set, words_set, CanPutNext};
ghost use Rattle.labelled_graph.specs.MergedRows.{IsMerged, IsNextOf};
ghost use Rattle.labelled_graph.specs.Rows.{keyed, mirrored, AllFitIn, AreRising, IsMirrorOf};
ghost use Rattle.labelled_graph.specs.Rows.{IsPlaceOf};
ghost use Rattle.labelled_graph.specs.Words.{held, FitsWord, SaturatesHeld};

use crate::dense_row::DenseRow;
use crate::entry::{Entry, wide_label};
use net_model::{Edge, LinkId, PointId, Weight};
use std::alloc::{AllocError, Global};
use std::cmp::Ordering;
use std::marker::Model;

/// How many points there are at least for each edge of a row that has no dense row beside its
/// entries.
const POINTS_AN_EDGE: u32 = 12;

/// How many entries are looked at one after another before a place is sought among the others: if
/// many entries are put among some, the next place is mostly near.
const NEAR: usize = 8;

/// The edges that end in one point: an entry for each, in the order of their keys, and once they
/// are many also the weights of the ordinary ones by the points in which they begin, a word for
/// each point. Contracts see it as the point in which they end, with a map from keys to weights.
#[derive(Debug, Drop)]
pub(crate) struct Row {
    target: PointId,
    entries: Vec<Entry>,
    ordinary: DenseRow,
}

impl Model for Row {
    ghost use Rattle.labelled_graph.specs.Rows.{TargetRow, row_code, row_with, IsKeptRow};

    ghost Value = { TargetRow };

    ghost coded = { row_code };

    ghost view = { λ row. row_with row.target row.entries.items };

    ghost invariant = { λ row. IsKeptRow row.target row.entries.items row.ordinary };
}

impl Row {
    /// The row of a point without edges. It takes no memory.
    pub(crate) fn empty(alloc: Global, target: PointId) -> Row
        ensures { result ≡ record { to = target; weights = map_of.empty } }
    {
        Row {
            target,
            entries: Vec::new(alloc),
            ordinary: DenseRow::empty(alloc),
        }
    }

    /// The entries, in the order of their keys.
    pub(crate) fn entries(&self) -> &[Entry]
        ensures { map (keyed self.now.to) result.now ≡ map_of.entries self.now.weights }
    {
        self.entries.as_slice()
    }

    /// The weight of a key, if it has one.
    pub(crate) fn get(&self, from: PointId, label: Option<LinkId>) -> Option<Weight>
        ensures { result ≡ map_of.get self.now.weights (key_with self.now.to from label) }
    {
        match self.recorded(from, label) {
            Some(weight) => Some(weight),
            None => self.searched(from, label),
        }
    }

    /// The weight of a key, if a word gives it exactly.
    fn recorded(&self, from: PointId, label: Option<LinkId>) -> Option<Weight>
        ensures { IfSome result (λ weight. map_of.get self.now.weights
            (key_with self.now.to from label) ≡ Some weight) }
    {
        match label {
            None => self.ordinary.recorded(from),
            Some(_) => None,
        }
    }

    /// The weight of a key, which is sought among the entries.
    fn searched(&self, from: PointId, label: Option<LinkId>) -> Option<Weight>
        ensures { result ≡ map_of.get self.now.weights (key_with self.now.to from label) }
    {
        match place_of(self.entries.as_slice(), from, label) {
            Ok(place) => Some(self.entries[place].weight),
            Err(_) => None,
        }
    }

    /// The words of what the row has for ordinary edges, by the points in which they begin; there
    /// may be fewer than points.
    pub(crate) fn words(&self) -> &[i32]
        ensures { IsMirrorOf self.now (map held result.now) }
    {
        self.ordinary.words()
    }

    /// Whether the weight of the ordinary edge of this row that begins in a point of a range,
    /// counted as 0 if it is below, plus a negative weight may be less than what words of others
    /// hold there. It may whenever the row keeps no words of these points.
    pub(crate) fn improves_before(
        &self,
        there: &[i32],
        from: usize,
        end: usize,
        weight: Weight,
    ) -> bool
        requires negative { weight <ℤ pos 0 }
        requires weight { FitsWord weight }
        ensures { AllFitIn self.now → result ≡ false → (first : PointId) → from ≤ first.0
            → first.0 < end → SaturatesHeld (map_of.get self.now.weights
            (ordinary_key first self.now.to)) (held (slice_index_or there.now first.0 (pos 0)))
            weight }
    {
        self.ordinary.improves_before(there, from, end, weight)
    }

    /// Gives the key of an edge its weight, in a row of so many points. `AllocError` comes only for
    /// want of memory, and changes nothing.
    pub(crate) fn set(&mut self, edge: &Edge, points: u32) -> Result<(), AllocError>
        requires to { edge.now.to ≡ self.old.to }
        requires label { IfSome edge.now.label (λ label. label.0 < 2 ^ 16) }
        ensures set { OnOk result (self.new ≡ record self.old {
          weights =
              map_of.insert self.old.weights (key_of edge.now) edge.now.weight;
        }) }
        ensures unchanged { OnErr result (self.new ≡ self.old) }
    {
        self.keep_words(0, points)?;
        self.put(edge)
    }

    /// Keeps words of the ordinary edges from now on, if the row, with so many more, has many edges
    /// for so many points.
    fn keep_words(&mut self, more: usize, points: u32) -> Result<(), AllocError>
        ensures { self.new ≡ self.old }
    {
        let edges = self.entries.len().saturating_add(more);
        if self.ordinary.is_empty() && edges > (points / POINTS_AN_EDGE) as usize {
            self.ordinary = self.all_words(points)?;
        }
        Ok(())
    }

    /// The weights of the ordinary edges that begin in so many points.
    fn all_words(&self, points: u32) -> Result<DenseRow, AllocError>
        ensures { IfOk result (IsMirrorOf self.now) }
    {
        let mut words = DenseRow::absent(*self.entries.allocator(), points as usize)?;
        write_words(&mut words, self.entries.as_slice());
        Ok(words)
    }

    fn put(&mut self, edge: &Edge) -> Result<(), AllocError>
        requires to { edge.now.to ≡ self.old.to }
        requires label { IfSome edge.now.label (λ label. label.0 < 2 ^ 16) }
        ensures set { OnOk result (self.new ≡ record self.old {
          weights =
              map_of.insert self.old.weights (key_of edge.now) edge.now.weight;
        }) }
        ensures unchanged { OnErr result (self.new ≡ self.old) }
    {
        match place_of(self.entries.as_slice(), edge.from, edge.label) {
            Ok(place) => {
                self.entries[place] = Entry::of(edge);
                write_word(&mut self.ordinary, edge);
                Ok(())
            }
            Err(place) => {
                reserve_one(&mut self.entries)?;
                self.entries.insert(place, Entry::of(edge))?;
                write_word(&mut self.ordinary, edge);
                Ok(())
            }
        }
    }

    /// Gives the keys of entries, which rise, their weights, going over the row once, in a row of
    /// so many points. `AllocError` comes only for want of memory, and changes nothing.
    pub(crate) fn merge(&mut self, new: &[Entry], points: u32) -> Result<(), AllocError>
        requires { AreRising self.old.to new.now }
        ensures set { OnOk result (self.new ≡ row_set self.old new.now) }
        ensures unchanged { OnErr result (self.new ≡ self.old) }
    {
        self.keep_words(new.len(), points)?;
        self.entries = merged(self.entries.as_slice(), new, *self.entries.allocator())?;
        write_words(&mut self.ordinary, new);
        Ok(())
    }

    /// Sets the weight of a key that has one.
    pub(crate) fn replace(&mut self, edge: &Edge)
        requires to { edge.now.to ≡ self.old.to }
        requires label { IfSome edge.now.label (λ label. label.0 < 2 ^ 16) }
        requires present { IsSome (map_of.get self.old.weights (key_of edge.now)) }
        ensures { self.new ≡ record self.old {
          weights =
              map_of.insert self.old.weights (key_of edge.now) edge.now.weight;
        } }
    {
        if let Ok(place) = place_of(self.entries.as_slice(), edge.from, edge.label) {
            self.entries[place] = Entry::of(edge);
            write_word(&mut self.ordinary, edge);
        }
    }

    /// Takes away the weight of a key, if it has one.
    pub(crate) fn remove(&mut self, edge: &Edge)
        requires { edge.now.to ≡ self.old.to }
        ensures { self.new ≡ record self.old {
          weights =
              map_of.remove self.old.weights (key_of edge.now);
        } }
    {
        if let Ok(place) = place_of(self.entries.as_slice(), edge.from, edge.label) {
            self.entries.remove(place);
            erase_word(&mut self.ordinary, edge);
        }
    }

    /// The same row once more.
    pub(crate) fn copy(&self, alloc: Global) -> Result<Row, AllocError>
        ensures { IfOk result (λ row. row ≡ self.now) }
    {
        let mut entries = Vec::new(alloc);
        entries.extend_from_slice(self.entries.as_slice())?;
        Ok(Row {
            target: self.target,
            entries,
            ordinary: self.ordinary.copy(alloc)?,
        })
    }
}

/// The place of a key among entries, or the place at which it would stand.
fn place_of(entries: &[Entry], from: PointId, label: Option<LinkId>) -> Result<usize, usize>
    ensures range { IsSearchInRange result (length entries.now) }
    ensures place { (to : PointId) → AreRising to entries.now
        → IsPlaceOf to entries.now (key_with to from label) result }
{
    entries.binary_search_by(|entry| entry.compare(from, label))
}

/// The same, quicker if the place is among the first.
fn place_soon(entries: &[Entry], from: PointId, label: Option<LinkId>) -> Result<usize, usize>
    ensures range { IsSearchInRange result (length entries.now) }
    ensures place { (to : PointId) → AreRising to entries.now
        → IsPlaceOf to entries.now (key_with to from label) result }
{
    let near = entries.len().min(NEAR);
    for place in 0..near {
        match entries[place].compare(from, label) {
            Ordering::Less => {}
            Ordering::Equal => return Ok(place),
            Ordering::Greater => return Err(place),
        }
    }
    let (_, far) = entries.split_at(near);
    match place_of(far, from, label) {
        Ok(place) => Ok(near + place),
        Err(place) => Err(near + place),
    }
}

/// Entries whose keys rise and others whose keys rise as one list, in the order of their keys; if
/// both have a key, as the others have it.
fn merged(entries: &[Entry], new: &[Entry], alloc: Global) -> Result<Vec<Entry>, AllocError>
    ensures { (to : PointId) → AreRising to entries.now → AreRising to new.now
        → IfOk result (λ all. IsMerged to entries.now new.now all.items) }
{
    let mut all = Vec::with_capacity(alloc, entries.len() + new.len())?;
    let mut left = entries;
    for entry in new {
        left = put_next(&mut all, left, entry)?;
    }
    all.extend_from_slice(left)?;
    all.shrink_to_fit();
    Ok(all)
}

/// Puts to the end of a list the entries, of those that are left, that stand before the key of an
/// entry, and then this one. Gives what is left then: the entries behind the key.
fn put_next<'a>(
    all: &mut Vec<Entry>,
    left: &'a [Entry],
    entry: &Entry,
) -> Result<&'a [Entry], AllocError>
    ensures { (to : PointId) → CanPutNext to all.old.items left.now entry.now
        → IfOk result (λ rest. IsNextOf to all.old.items left.now entry.now all.new.items
        rest.now) }
{
    match place_soon(left, entry.from, wide_label(entry.label)) {
        Ok(place) => put_part(all, left, place, place + 1, entry),
        Err(place) => put_part(all, left, place, place, entry),
    }
}

fn put_part<'a>(
    all: &mut Vec<Entry>,
    left: &'a [Entry],
    before: usize,
    after: usize,
    entry: &Entry,
) -> Result<&'a [Entry], AllocError>
    requires before { before ≤ length left.now }
    requires after { after ≤ length left.now }
    ensures { IfOk result (λ rest.
        (all.new.items ≡ all.old.items ++ take before left.now ++ entry.now ∷ [])
        × (rest.now ≡ drop after left.now)) }
{
    all.extend_from_slice(left.split_at(before).0)?;
    all.push(*entry)?;
    Ok(left.split_at(after).1)
}

/// Sets the words of the keys of entries to their weights.
fn write_words(ordinary: &mut DenseRow, new: &[Entry])
    ensures { ordinary.new ≡ words_set ordinary.old new.now }
{
    for entry in new {
        write_entry(ordinary, entry);
    }
}

fn write_entry(ordinary: &mut DenseRow, entry: &Entry)
    ensures { ordinary.new ≡ word_set ordinary.old entry.now }
{
    if entry.is_ordinary() {
        ordinary.put(entry.from, Some(entry.weight));
    }
}

/// Sets the word of the key of an edge to its weight; the key of a labelled edge has none.
fn write_word(ordinary: &mut DenseRow, edge: &Edge)
    ensures { ordinary.new ≡ mirrored ordinary.old (key_of edge.now) (Some edge.now.weight) }
{
    if edge.label.is_none() {
        ordinary.put(edge.from, Some(edge.weight));
    }
}

/// Sets the word of the key of an edge to that of no weight; the key of a labelled edge has none.
fn erase_word(ordinary: &mut DenseRow, edge: &Edge)
    ensures { ordinary.new ≡ mirrored ordinary.old (key_of edge.now) None }
{
    if edge.label.is_none() {
        ordinary.put(edge.from, None);
    }
}

/// Makes capacity for one entry more: if no place is left, a quarter as many again as there are
/// entries. So of five places at most one is empty, and an entry takes at most 20 bytes with its
/// share of the empty places, 24 with its word.
fn reserve_one(entries: &mut Vec<Entry>) -> Result<(), AllocError>
    ensures items { entries.new.items ≡ entries.old.items }
    ensures spare_capacity { OnOk result (vec_len entries.old < vec_capacity entries.new) }
    ensures share { 4 * vec_capacity entries.old ≤ 5 * (vec_len entries.old + 1)
        → 4 * vec_capacity entries.new ≤ 5 * (vec_len entries.old + 1) }
{
    if entries.len() == entries.capacity() {
        entries.reserve_exact((entries.len() / 4).max(1))?;
    }
    Ok(())
}
