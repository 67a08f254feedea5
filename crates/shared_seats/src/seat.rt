//! A seat.

ghost use Rattle.std.specs.Prelude.{◌≡◌};

use crate::known::Known;
use crate::standing::Standing;
use std::marker::Model;

/// A seat, by which one thread steps on shared words. Contracts see the words to which it belongs,
/// and what it knows.
#[derive(Drop)]
pub struct Seat<V: Known> {
    pub(crate) place: atomic_table::Seat<(), Standing<V>>,
    pub(crate) to_split: u32,
}

impl<V: Known> Model for Seat<V> {
    ghost use Rattle.shared_seats.specs.Seats.{SeatSeen, seat_code, seen_at, IsSeated};

    ghost Value = { SeatSeen V };

    ghost coded = { seat_code V.code };

    ghost view = { λ seat. seen_at V.nothing seat.place };

    ghost invariant = { λ seat. IsSeated V.nothing V.to_split seat.place seat.to_split };
}

impl<V: Known> Seat<V> {
    /// How many seats may still be split from it.
    pub fn to_split(&self) -> u32
        ensures { result ≡ V.to_split self.now.view }
    {
        self.to_split
    }
}
