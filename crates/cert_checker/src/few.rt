//! A row of words that is stored as the points in which an entry begins.

ghost use Rattle.std.specs.Prelude.{◌≡◌, ◌<◌, ℕ, length, IfOk, OnOk, replicate};
ghost use Rattle.std.specs.List.{slice_index_or};
ghost use Rattle.cert_checker.specs.Few.{AreRisingStarts, IsPlaceOfPoint, words_of};
ghost use Rattle.cert_checker.specs.Least.{absent, lowered_row};

use net_model::Weight;
use std::alloc::{AllocError, Global};
use std::marker::Model;

/// The word of a point in which no entry begins.
pub(crate) const ABSENT: Weight = i64::MAX;

/// Entries are many if there is one for each so many points.
const POINTS_PER_ENTRY: usize = 5;

/// A point in which an entry begins, by its number, and its word.
#[derive(Clone, Copy)]
pub(crate) struct Start {
    pub(crate) from: u32,
    pub(crate) word: Weight,
}

/// A row of words, stored as the points in which an entry begins, in their order. Contracts see it
/// as the list of its words.
#[derive(Drop)]
pub(crate) struct Few {
    points: u32,
    starts: Vec<Start>,
}

impl Model for Few {
    ghost use Rattle.std.specs.Prelude.{List, ℤ};
    ghost use Rattle.cert_checker.specs.Few.{AreRisingStarts, words_of};

    ghost Value = { List ℤ };

    ghost view = { λ few. words_of few.points few.starts.items };

    ghost invariant = { λ few. AreRisingStarts few.points few.starts.items };
}

impl Few {
    /// A row for so many points in which no entry begins. It takes no memory.
    pub(crate) fn none(alloc: Global, points: u32) -> Few
        ensures { result ≡ replicate points absent }
    {
        Few {
            points,
            starts: Vec::new(alloc),
        }
    }

    /// How many points there are.
    pub(crate) fn len(&self) -> u32
        ensures { result ≡ length self.now }
    {
        self.points
    }

    /// The points in which an entry begins, in their order.
    pub(crate) fn starts(&self) -> &[Start]
        ensures words { self.now ≡ words_of (length self.now) result.now }
        ensures sound { AreRisingStarts (length self.now) result.now }
    {
        self.starts.as_slice()
    }

    /// Takes all entries away.
    pub(crate) fn clear(&mut self, alloc: Global)
        ensures { length self.new ≡ length self.old }
    {
        self.starts = Vec::new(alloc);
    }

    /// Whether they take as much memory as a word for each point would, or nearly.
    pub(crate) fn are_many(&self) -> bool {
        self.starts.len() >= self.points as usize / POINTS_PER_ENTRY
    }

    /// The word of a point.
    pub(crate) fn get(&self, from: u32) -> Weight
        requires { from < length self.now }
        ensures { result ≡ slice_index_or self.now from absent }
    {
        match place_of(self.starts.as_slice(), from) {
            Ok(place) => self.starts[place].word,
            Err(_) => ABSENT,
        }
    }

    /// Lowers the word of a point to a weight.
    pub(crate) fn lower(&mut self, from: u32, weight: Weight) -> Result<(), AllocError>
        requires { from < length self.old }
        ensures { OnOk result (self.new ≡ lowered_row self.old from weight) }
    {
        match place_of(self.starts.as_slice(), from) {
            Ok(place) => {
                let word = self.starts[place].word.min(weight);
                self.starts[place] = Start { from, word };
                Ok(())
            }
            Err(place) => Ok(self.starts.insert(place, Start { from, word: weight })?),
        }
    }

    /// A word for each point.
    pub(crate) fn words(&self, alloc: Global) -> Result<Vec<Weight>, AllocError>
        ensures { IfOk result (λ words. words.items ≡ self.now) }
    {
        let mut words = Vec::with_capacity(alloc, self.points as usize)?;
        for from in 0..self.points {
            words.push(self.get(from))?;
        }
        Ok(words)
    }
}

/// The place of the one of a point, or that at which it would stand.
fn place_of(starts: &[Start], from: u32) -> Result<usize, usize>
    ensures { (points : ℕ) → AreRisingStarts points starts.now
        → IsPlaceOfPoint starts.now from result }
{
    starts.binary_search_by(|start| start.from.cmp(&from))
}
