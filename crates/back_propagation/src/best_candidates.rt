//! The best candidate for each key of a row.

ghost use Rattle.std.specs.Prelude.{◌≡◌, ◌∷◌, ◌++◌, ◌<◌, ◌+◌, [], length, slice_get, Some, IfOk};
ghost use Rattle.std.specs.Prelude.{OnOk};
ghost use Rattle.std.specs.Bool.{MatchBool};
ghost use Rattle.back_propagation.specs.BestCandidates.{AreApart, AreNone, HasTaken, IsNoWorseThan};

use net_model::Weight;
use std::alloc::{AllocError, Global};

/// A candidate for a key of a row: the places of the key and of the slot where the candidate
/// begins, the weight of that slot, and the weight of the candidate.
#[derive(Clone, Copy, Debug)]
pub(crate) struct Candidate {
    pub(crate) to: usize,
    pub(crate) total: Weight,
    pub(crate) weight: Weight,
    pub(crate) place: usize,
}

/// For each key of a row the best of the candidates that were compared for it: that of least
/// weight, and of several such the one whose slot is settled first.
#[derive(Drop)]
pub(crate) struct BestCandidates {
    // for each place of the row 0, or the number of its candidate, counted from 1
    marks: Vec<usize>,
    // where each candidate begins, with the weight of the slot there
    begins: Vec<(Weight, usize)>,
    // the weight of each candidate
    totals: Vec<Weight>,
}

impl BestCandidates {
    /// No candidate for any of so many keys. `AllocError` comes only for want of memory.
    pub(crate) fn new(alloc: Global, count: usize) -> Result<BestCandidates, AllocError>
        ensures { IfOk result (AreNone count) }
    {
        Ok(BestCandidates {
            marks: vec![in alloc; 0; count]?,
            begins: Vec::new(alloc),
            totals: Vec::new(alloc),
        })
    }

    /// Takes a candidate if its key has none, or a worse one. `AllocError` comes only for want of
    /// memory.
    #[inline(never)]
    pub(crate) fn relax(&mut self, candidate: Candidate) -> Result<(), AllocError>
        requires apart { AreApart self.old }
        requires to { candidate.to < length self.old.marks.items }
        ensures { OnOk result (HasTaken self.old self.new (candidate ∷ [])) }
    {
        let mark = self.marks[candidate.to];
        if mark == 0 {
            self.add(candidate)
        } else {
            self.compare(mark - 1, candidate);
            Ok(())
        }
    }

    /// Takes a candidate for a key that has none.
    fn add(&mut self, candidate: Candidate) -> Result<(), AllocError>
        requires apart { AreApart self.old }
        requires none { slice_get self.old.marks.items candidate.to ≡ Some 0 }
        ensures { OnOk result (HasTaken self.old self.new (candidate ∷ [])) }
    {
        self.begins.push((candidate.weight, candidate.place))?;
        self.totals.push(candidate.total)?;
        self.marks[candidate.to] = self.begins.len();
        Ok(())
    }

    /// Takes a candidate in place of the one for its key, if it is better.
    fn compare(&mut self, one: usize, candidate: Candidate)
        requires apart { AreApart self.old }
        requires one { slice_get self.old.marks.items candidate.to ≡ Some (one + 1) }
        ensures { HasTaken self.old self.new (candidate ∷ []) }
    {
        let held = self.candidate(one, candidate.to);
        if is_better(&candidate, &held) {
            self.begins[one] = (candidate.weight, candidate.place);
            self.totals[one] = candidate.total;
        }
    }

    /// One of the candidates, for a key.
    fn candidate(&self, one: usize, to: usize) -> Candidate
        requires begins { one < length self.now.begins.items }
        requires totals { one < length self.now.totals.items }
        ensures to { result.to ≡ to }
        ensures begin { slice_get self.now.begins.items one ≡ Some (result.weight, result.place) }
        ensures total { slice_get self.now.totals.items one ≡ Some result.total }
    {
        let begin = self.begins[one];
        Candidate {
            to,
            total: self.totals[one],
            weight: begin.0,
            place: begin.1,
        }
    }

    /// Where the candidates begin.
    pub(crate) fn into_begins(self) -> Vec<(Weight, usize)>
        ensures { result.items ≡ self.begins.items }
    {
        self.begins
    }
}

/// Whether one candidate is better than another.
fn is_better(one: &Candidate, other: &Candidate) -> bool
    ensures { MatchBool result (IsNoWorseThan one.now other.now) (IsNoWorseThan other.now one.now) }
{
    if one.total != other.total {
        return one.total < other.total;
    }
    if one.weight != other.weight {
        return one.weight < other.weight;
    }
    one.place < other.place
}

/// What a row is seeded with.
#[derive(Drop)]
pub(crate) struct Seeds {
    pub(crate) candidates: BestCandidates,
    // the places of edges with which it is seeded whatever other candidates there are
    pub(crate) whole: Vec<(Weight, usize)>,
}

impl Seeds {
    /// All places, each with the weight of its slot. `AllocError` comes only for want of memory.
    pub(crate) fn into_places(self) -> Result<Vec<(Weight, usize)>, AllocError>
        ensures { IfOk result (λ places. places.items ≡ self.candidates.begins.items ++ self.whole.items) }
    {
        let mut places = self.candidates.into_begins();
        places.extend_from_slice(self.whole.as_slice())?;
        Ok(places)
    }
}
