//! A board of numbered targets, each of which is drawn once.

ghost use Rattle.std.specs.Prelude.{◌≡◌, ◌≤◌, ◌<◌, IfOk};
ghost use Rattle.work_board.specs.Boards.{IsSeatOfBoard, Draws, EachOnce};
ghost use Rattle.work_board.specs.Limits.{most_seats};
ghost use Rattle.work_board.specs.Views.{first_view, split_from, split_off, joined_with};

use crate::rule::{Drawing, Histories};
use crate::seat::Seat;
use crate::view::{Size, View};
use shared_seats::SharedWords;
use std::alloc::{AllocError, Global};
use std::marker::Model;
use std::snapshot::Snapshot;

/// A board of numbered targets. Each number below the count of targets is drawn once. `new` gives
/// it with its first seat. Each worker draws with a seat of its own, which was split from the first
/// one and is joined into it at the end; `close` gives what was drawn.
#[derive(Drop)]
pub struct Board {
    words: SharedWords<View, Size, Histories>,
    targets: u32,
}

impl Model for Board {
    ghost use Rattle.std.specs.Prelude.{◌≡◌};
    ghost use Rattle.work_board.specs.Boards.{BoardSeen};
    ghost use Rattle.work_board.specs.Seats.{board_code};

    ghost Value = { BoardSeen };

    ghost coded = { board_code };

    ghost view = { λ board. record {
      id = board.words.id;
      size = board.words.key;
    } };

    ghost invariant = { λ board. (board.words.id.words ≡ 1)
        × (board.targets ≡ board.words.key.targets) };
}

/// What the seats of a board drew: each number below the count of targets once, with the number of
/// the seat that drew it. It has no bytes: contracts alone read it.
#[derive(Drop)]
pub struct Drawn {
    place: Snapshot<Seat>,
}

impl Model for Drawn {
    ghost use Rattle.std.specs.Prelude.{List};
    ghost use Rattle.work_board.specs.declared.view.Draw.{Draw};

    ghost Value = { List Draw };

    ghost view = { λ drawn. drawn.place.value.view.held };
}

impl Board {
    /// A board of so many targets, of which nothing is drawn, and the first of its seats. There are
    /// 1 to 64 seats. `AllocError` comes only for want of memory; then nothing was made.
    pub fn new(alloc: Global, targets: u32, seats: u32) -> Result<(Board, Seat), AllocError>
        requires { (1 ≤ seats) × (seats ≤ most_seats) }
        ensures { IfOk result (λ made. (made.0.size ≡ record { targets = targets; seats = seats })
            × (made.1 ≡ record {
              table = made.0.id;
              view = first_view (record { targets = targets; seats = seats });
            })) }
    {
        let (words, shared) = SharedWords::new(alloc, &[0], &Size { targets, seats }, seats - 1)?;
        let seat = Seat {
            shared,
            out: 0,
            told: false,
        };
        Ok((Board { words, targets }, seat))
    }

    /// Splits a seat from the first one, from which at least one more may be split. The new seat
    /// holds nothing, has the next number, and none is split from it.
    pub fn split(&self, seat: &mut Seat) -> Seat
        requires seat { IsSeatOfBoard self.now seat.old }
        requires may { 0 < seat.old.view.to_split }
        ensures from { seat.new ≡ record {
          table = seat.old.table;
          view = split_from seat.old.view;
        } }
        ensures off { result ≡ record { table = seat.old.table; view = split_off seat.old.view } }
    {
        let shared = self.words.split(&mut seat.shared);
        seat.out += 1;
        Seat {
            shared,
            out: 0,
            told: false,
        }
    }

    /// Draws the next number, by one atomic step. It is above all that the seat holds; if a target
    /// has it, it is given, and the seat holds it from then on. `None` if that number is not one of
    /// a target; then the seat knows that there is nothing left, and draws no more.
    pub fn draw(&self, seat: &mut Seat) -> Option<u32>
        requires seat { IsSeatOfBoard self.now seat.old }
        requires untold { seat.old.view.nones ≡ 0 }
        ensures { Draws seat.old seat.new result }
    {
        let number = self.words.fetch_add::<Drawing>(&mut seat.shared, 0, 1);
        if number < u64::from(self.targets) {
            return Some(number as u32);
        }
        seat.told = true;
        None
    }

    /// Joins a seat into the first one, which takes over what the other holds and what it knows of
    /// the end.
    pub fn join(&self, into: &mut Seat, from: Seat)
        requires seats { IsSeatOfBoard self.now into.old × IsSeatOfBoard self.now from }
        requires out { 0 < into.old.view.out }
        ensures { into.new ≡ record {
          table = into.old.table;
          view = joined_with into.old.view from.view;
        } }
    {
        let Seat { shared, told, .. } = from;
        self.words.join(&mut into.shared, shared);
        into.out -= 1;
        into.told |= told;
    }

    /// Closes a board when all seats are joined into the first one and it knows that there is
    /// nothing left: what it holds is what was drawn, each number of a target once.
    pub fn close(self, seat: Seat) -> Drawn
        requires seat { IsSeatOfBoard self seat }
        requires first { seat.view.drawer ≡ 0 }
        requires out { seat.view.out ≡ 0 }
        requires told { 0 < seat.view.nones }
        ensures drawn { result ≡ seat.view.held }
        ensures once { EachOnce self.size.targets result }
    {
        let place = Snapshot::of(&seat);
        let Board { words, .. } = self;
        let Seat { shared, .. } = seat;
        words.close(shared).free();
        Drawn { place }
    }
}
