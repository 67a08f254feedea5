//! A seat at a board.

ghost use Rattle.std.specs.Prelude.{◌≡◌, ◌==◌, not};

use crate::view::View;
use std::marker::Model;

/// A seat at a board, with which one worker draws.
#[derive(Drop)]
pub struct Seat {
    pub(crate) shared: shared_seats::Seat<View>,
    pub(crate) out: u32,
    pub(crate) told: bool,
}

impl Model for Seat {
    ghost use Rattle.work_board.specs.Boards.{BoardSeatSeen};
    ghost use Rattle.work_board.specs.Seats.{seat_code, IsSeatedAtBoard};

    ghost Value = { BoardSeatSeen };

    ghost coded = { seat_code };

    ghost view = { λ seat. seat.shared };

    ghost invariant = { λ seat. IsSeatedAtBoard seat.shared.view seat.out seat.told };
}

impl Seat {
    /// How many seats may still be split from it.
    pub fn to_split(&self) -> u32
        ensures { result ≡ self.now.view.to_split }
    {
        self.shared.to_split()
    }

    /// How many seats were split from it and are not joined yet.
    pub fn out(&self) -> u32
        ensures { result ≡ self.now.view.out }
    {
        self.out
    }

    /// Whether it, or a seat that was joined into it, drew when there was nothing left.
    pub fn told(&self) -> bool
        ensures { result ≡ not (self.now.view.nones == 0) }
    {
        self.told
    }
}
