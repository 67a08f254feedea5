//! The rule of a table of shared words, and what its steps make of the standings of seats.

use crate::known::{Finding, Known, SeatRule};
use crate::standing::Standing;
use atomic_table::{Join, Play, Split, TableRule};
use std::marker::PhantomData;

/// The rule `P`, of the words and the standings of the seats.
pub struct Ruled<P> {
    rule: PhantomData<P>,
}

impl<V, K, P: SeatRule<V, K>> TableRule<(), Standing<V>, K> for Ruled<P> {
    ghost use Rattle.shared_seats.specs.declared.standing.Standing.TheVariants.{Live};

    ghost holds = { λ key state. P.holds key state.words state.views };

    ghost first = { λ key. Live (P.first key) };
}

/// A step of a live seat.
pub(crate) struct Stepping<M> {
    finding: PhantomData<M>,
}

impl<V: Known, M: Finding<V>> Play<(), Standing<V>> for Stepping<M> {
    ghost use Rattle.shared_seats.specs.Steps.{shown};

    ghost then = { shown V.to_split M.shows };
}

/// A seat is split from another.
pub(crate) struct Splitting;

impl<V: Known> Split<Standing<V>> for Splitting {
    ghost use Rattle.shared_seats.specs.Standings.{live_map};

    ghost left = { live_map V.split_from };

    ghost right = { live_map V.split_off };
}

/// A seat is joined into another.
pub(crate) struct Joining;

impl<V: Known> Join<Standing<V>> for Joining {
    ghost use Rattle.shared_seats.specs.Standings.{both_of};
    ghost use Rattle.shared_seats.specs.declared.standing.Standing.TheVariants.{Spent};

    ghost both = { both_of V.joined_with };

    ghost spent = { Spent };
}
