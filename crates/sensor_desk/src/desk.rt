//! The desk: its seats, and posts and reads of the moments of links.

ghost use Rattle.std.specs.Prelude.{◌≡◌, ◌<◌, ◌≤◌, ◌^◌, ◌+◌, length, IfOk};
ghost use Rattle.std.specs.Mem.Slots.{slots_items, slots_len, IsFull};
ghost use Rattle.shared_seats.specs.NotedViews.{split_from, split_off, joined_with};
ghost use Rattle.shared_seats.specs.Steps.{IsLast};
ghost use Rattle.sensor_desk.specs.DeskRule.{IsReachedBy};
ghost use Rattle.sensor_desk.specs.Limits.{most_desk_seats};
ghost use Rattle.sensor_desk.specs.Desks.{IsSeatOfDesk, HasLink, Posts, ReadsLink, Looks};
ghost use Rattle.sensor_desk.specs.Views.{first_view};
ghost use Rattle.sensor_desk.specs.Words.{held};

use crate::post_result::Posted;
use crate::rule::{Histories, Looking, Posting, Reading};
use crate::seat::DeskSeat;
use crate::view::{About, View};
use atomic_table::Closed;
use net_model::{LinkId, Network};
use shared_seats::SharedWords;
use std::alloc::{AllocError, Global};
use std::marker::Model;
use std::snapshot::Snapshot;

/// A desk at which feeders post the moments at which links were over. For each link the first post
/// stands, and no later one changes it. A desk is shared by reference; whoever posts or reads owns
/// a seat of it.
#[derive(Drop)]
pub struct Desk {
    words: SharedWords<View, About, Histories>,
}

impl Model for Desk {
    ghost use Rattle.sensor_desk.specs.Desks.{DeskSeen};
    ghost use Rattle.sensor_desk.specs.Seats.{desk_code, IsDesk};

    ghost Value = { DeskSeen };

    ghost coded = { desk_code };

    ghost view = { λ desk. record {
      id = desk.words.id;
      about = desk.words.key;
    } };

    ghost invariant = { λ desk. IsDesk desk.words.id desk.words.key };
}

impl Desk {
    /// The desk of a network, at which nothing is posted, and the first of its seats, from which
    /// all others are split. There are 1 to 65 seats. If a network has a delay, the desk is that of
    /// its shown form. `AllocError` comes only if memory is refused; then nothing was made. No
    /// other call of a desk takes memory.
    pub fn new(alloc: Global, net: &Network, seats: u32) -> Result<(Desk, DeskSeat), AllocError>
        requires seats { (1 ≤ seats) × (seats ≤ most_desk_seats) }
        ensures about { IfOk result (λ made. (made.0.about.net.value ≡ net.now)
            × (made.0.about.seats ≡ seats)) }
        ensures seat { IfOk result (λ made. made.1 ≡ record {
          table = made.0.id;
          view = first_view made.0.about;
        }) }
    {
        let words = vec![in alloc; 0; net.links().len() + 1]?;
        let about = About {
            net: Snapshot::of(net),
            seats,
        };
        let (words, seat) = SharedWords::new(alloc, words.as_slice(), &about, seats - 1)?;
        Ok((Desk { words }, seat))
    }

    /// Splits a seat from one that may split. The new seat has noted nothing, and may not split.
    pub fn split(&self, seat: &mut DeskSeat) -> DeskSeat
        requires seat { IsSeatOfDesk self.now seat.old }
        requires may { 0 < seat.old.view.to_split }
        ensures from { seat.new ≡ record {
          table = seat.old.table;
          view = split_from seat.old.view;
        } }
        ensures off { result ≡ record { table = seat.old.table; view = split_off seat.old.view } }
        ensures seats { IsSeatOfDesk self.now seat.new × IsSeatOfDesk self.now result }
    {
        self.words.split(seat)
    }

    /// Joins a seat into another, which then has the notes of both. What its own steps found stays
    /// as it was.
    pub fn join(&self, into: &mut DeskSeat, from: DeskSeat)
        requires seats { IsSeatOfDesk self.now into.old × IsSeatOfDesk self.now from }
        ensures joined { into.new ≡ record {
          table = into.old.table;
          view = joined_with into.old.view from.view;
        } }
        ensures seat { IsSeatOfDesk self.now into.new }
    {
        self.words.join(into, from);
    }

    /// Posts the moment, below 2^63, at which a link was over: one atomic step. `First` exactly if
    /// nothing stood for the link at that step; then this moment stands from then on. Else
    /// `Before`, with the moment that stands, and nothing changes. Either way the seat notes what
    /// stands.
    pub fn post(&self, seat: &mut DeskSeat, link: LinkId, moment: u64) -> Posted
        requires seat { IsSeatOfDesk self.now seat.old }
        requires link { HasLink self.now link }
        requires moment { moment < 2 ^ 63 }
        ensures posts { Posts seat.old seat.new link moment result }
        ensures seat { IsSeatOfDesk self.now seat.new }
    {
        let place = link.0 as usize + 1;
        let word = self
            .words
            .compare_exchange::<Posting>(seat, place, 0, moment + 1);
        match moment_of_word(word) {
            None => Posted::First,
            Some(moment) => Posted::Before(moment),
        }
    }

    /// Reads the moment that stands for a link: one load. `None` exactly if nothing stood for it at
    /// that step; a moment that is read stands for good. The seat notes it.
    pub fn read(&self, seat: &mut DeskSeat, link: LinkId) -> Option<u64>
        requires seat { IsSeatOfDesk self.now seat.old }
        requires link { HasLink self.now link }
        ensures reads { ReadsLink seat.old seat.new link result }
        ensures seat { IsSeatOfDesk self.now seat.new }
    {
        let place = link.0 as usize + 1;
        let word = self.words.load::<Reading>(seat, place);
        moment_of_word(word)
    }

    /// Looks at what stands for a link, as `read`, and notes nothing.
    pub(crate) fn look(&self, seat: &mut DeskSeat, link: LinkId) -> Option<u64>
        requires seat { IsSeatOfDesk self.now seat.old }
        requires link { HasLink self.now link }
        ensures { Looks seat.old seat.new link result }
    {
        let place = link.0 as usize + 1;
        let word = self.words.load::<Looking>(seat, place);
        moment_of_word(word)
    }

    /// The words as they are at the end of a desk.
    pub(crate) fn into_words(self, seat: DeskSeat) -> Closed<(), Global>
        requires seat { IsSeatOfDesk self seat }
        ensures left { IsLast (IsReachedBy self.about) seat.view (slots_items result.words) }
        ensures full { IsFull result.words }
        ensures count { slots_len result.words ≡ length self.about.net.value.links + 1 }
        ensures none { slots_len result.slots ≡ 0 }
    {
        let Desk { words } = self;
        words.close(seat)
    }
}

/// What a word of a link says: nothing if it is 0, else the moment one below it.
pub(crate) fn moment_of_word(word: u64) -> Option<u64>
    ensures { result ≡ held word }
{
    if word == 0 { None } else { Some(word - 1) }
}
