//! Shared words, and the steps of their seats.

ghost use Rattle.std.specs.Prelude.{◌≡◌, ◌+◌, ◌%◌, ◌^◌, ◌<◌, ◌==◌, [], ◌∷◌, min, length};
ghost use Rattle.std.specs.Prelude.{IfOk, if◌then◌else◌};
ghost use Rattle.std.specs.Mem.Slots.{slots_items, slots_len, IsFull};
ghost use Rattle.shared_seats.specs.Steps.{MayStep, MaySplit, MayJoin, IsLast};
ghost use Rattle.shared_seats.specs.declared.standing.Standing.TheVariants.{Live};

use crate::known::{Finding, Known, SeatRule};
use crate::rule::{Joining, Ruled, Splitting, Stepping};
use crate::seat::Seat;
use crate::standing::Standing;
use atomic_table::{Closed, Table};
use std::alloc::{AllocError, Global};
use std::marker::Model;

/// Words of 64 bits that change in single atomic steps, each by a seat. Between any two steps the
/// words and all seats keep the rule `P`, which may read what the words were told when they were
/// made, their key. Each call asks that its seats belong to these words.
#[derive(Drop)]
pub struct SharedWords<V: Known, K, P: SeatRule<V, K>> {
    table: Table<(), Standing<V>, K, Ruled<P>, Global>,
}

impl<V: Known, K, P: SeatRule<V, K>> Model for SharedWords<V, K, P> {
    ghost use Rattle.std.specs.Prelude.{◌≡◌};
    ghost use Rattle.shared_seats.specs.Seats.{WordsSeen, words_code};

    ghost Value = { WordsSeen K };

    ghost coded = { words_code K.code };

    ghost view = { λ words. record {
      id = words.table.shared.table_id;
      key = words.table.shared.key;
    } };

    ghost invariant = { λ words. words.table.shared.table_id.slots ≡ 0 };
}

impl<V: Known, K, P: SeatRule<V, K>> SharedWords<V, K, P> {
    /// Words with these values, and the first of their seats, from which so many may be split.
    /// `AllocError` comes only for want of memory; then nothing was made. No other call takes
    /// memory.
    pub fn new(
        alloc: Global,
        words: &[u64],
        key: &K,
        to_split: u32,
    ) -> Result<(SharedWords<V, K, P>, Seat<V>), AllocError>
        requires rule { P.holds key.now words.now (Live (P.first key.now) ∷ []) }
        requires to_split { to_split ≡ V.to_split (P.first key.now) }
        ensures { IfOk result (λ made. (made.0.key ≡ key.now)
            × (made.0.id.words ≡ length words.now)
            × (made.1 ≡ record { table = made.0.id; view = P.first key.now })) }
    {
        let (table, place) = Table::of_words(alloc, words, key)?;
        Ok((SharedWords { table }, Seat { place, to_split }))
    }

    /// How many words there are.
    pub fn word_count(&self) -> usize
        ensures { result ≡ self.now.id.words }
    {
        self.table.word_count()
    }

    /// Splits a seat from one from which at least one more may be split. There is a word.
    pub fn split(&self, seat: &mut Seat<V>) -> Seat<V>
        requires table { seat.old.table ≡ self.now.id }
        requires words { 0 < self.now.id.words }
        requires may { 0 < V.to_split seat.old.view }
        requires rule { MaySplit (P.holds self.now.key) seat.old.view (V.split_from seat.old.view)
            (V.split_off seat.old.view) }
        ensures from { seat.new ≡ record {
          table = seat.old.table;
          view = V.split_from seat.old.view;
        } }
        ensures off { result ≡ record {
          table = seat.old.table;
          view = V.split_off seat.old.view;
        } }
    {
        let place = self.table.shared.split_seat::<Splitting>(&mut seat.place);
        seat.to_split -= 1;
        Seat { place, to_split: 0 }
    }

    /// Joins a seat into another. There is a word.
    pub fn join(&self, into: &mut Seat<V>, from: Seat<V>)
        requires tables { (into.old.table ≡ self.now.id) × (from.table ≡ self.now.id) }
        requires words { 0 < self.now.id.words }
        requires rule { MayJoin (P.holds self.now.key) into.old.view from.view
            (V.joined_with into.old.view from.view) }
        ensures { into.new ≡ record {
          table = into.old.table;
          view = V.joined_with into.old.view from.view;
        } }
    {
        let Seat { place, .. } = from;
        self.table
            .shared
            .join_seat::<Joining>(&mut into.place, place);
    }

    /// Loads a word.
    pub fn load<M: Finding<V>>(&self, seat: &mut Seat<V>, place: usize) -> u64
        requires table { seat.old.table ≡ self.now.id }
        requires place { place < self.now.id.words }
        requires rule { MayStep (P.holds self.now.key) V.to_split place (λ word. word)
            seat.old.view (M.shows place 0 0 seat.old.view) }
        ensures table { seat.new.table ≡ seat.old.table }
        ensures shows { M.shows place 0 0 seat.old.view result seat.new.view }
    {
        self.table
            .shared
            .load::<Stepping<M>>(&mut seat.place, place)
    }

    /// Adds to a word, and gives what it was.
    pub fn fetch_add<M: Finding<V>>(&self, seat: &mut Seat<V>, place: usize, more: u64) -> u64
        requires table { seat.old.table ≡ self.now.id }
        requires place { place < self.now.id.words }
        requires rule { MayStep (P.holds self.now.key) V.to_split place
            (λ word. (word + more) % 2 ^ 64) seat.old.view (M.shows place more 0 seat.old.view) }
        ensures table { seat.new.table ≡ seat.old.table }
        ensures shows { M.shows place more 0 seat.old.view result seat.new.view }
    {
        self.table
            .shared
            .fetch_add::<Stepping<M>>(&mut seat.place, place, more)
    }

    /// Lowers a word to another that is less, and gives what it was.
    pub fn fetch_min<M: Finding<V>>(&self, seat: &mut Seat<V>, place: usize, most: u64) -> u64
        requires table { seat.old.table ≡ self.now.id }
        requires place { place < self.now.id.words }
        requires rule { MayStep (P.holds self.now.key) V.to_split place (λ word. min word most)
            seat.old.view (M.shows place most 0 seat.old.view) }
        ensures table { seat.new.table ≡ seat.old.table }
        ensures shows { M.shows place most 0 seat.old.view result seat.new.view }
    {
        self.table
            .shared
            .fetch_min::<Stepping<M>>(&mut seat.place, place, most)
    }

    /// Replaces a word if it is this one, and gives what it was.
    pub fn compare_exchange<M: Finding<V>>(
        &self,
        seat: &mut Seat<V>,
        place: usize,
        current: u64,
        new: u64,
    ) -> u64
        requires table { seat.old.table ≡ self.now.id }
        requires place { place < self.now.id.words }
        requires rule { MayStep (P.holds self.now.key) V.to_split place
            (λ word. if word == current then new else word) seat.old.view
            (M.shows place current new seat.old.view) }
        ensures table { seat.new.table ≡ seat.old.table }
        ensures shows { M.shows place current new seat.old.view result seat.new.view }
    {
        self.table
            .shared
            .compare_exchange::<Stepping<M>>(&mut seat.place, place, current, new)
    }

    /// The words as they are at the end, by a seat.
    pub fn close(self, seat: Seat<V>) -> Closed<(), Global>
        requires table { seat.table ≡ self.id }
        ensures last { IsLast (P.holds self.key) seat.view (slots_items result.words) }
        ensures full { IsFull result.words }
        ensures count { slots_len result.words ≡ self.id.words }
        ensures none { slots_len result.slots ≡ 0 }
    {
        let SharedWords { table } = self;
        let Seat { place, .. } = seat;
        table.close_with(place)
    }
}
