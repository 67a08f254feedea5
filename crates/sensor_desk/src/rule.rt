//! The rule of the words of a desk, and what its steps note.

use crate::view::{About, View};
use shared_seats::{Finding, SeatRule, Subject};

impl Subject for About {
    ghost use Rattle.sensor_desk.specs.Seats.{any_about};

    ghost any = { any_about };
}

/// The words say what stands after some history.
pub(crate) struct Histories;

impl SeatRule<View, About> for Histories {
    ghost use Rattle.sensor_desk.specs.DeskRule.{IsReachedBy};
    ghost use Rattle.sensor_desk.specs.Views.{first_view};

    ghost holds = { IsReachedBy };

    ghost first = { first_view };
}

/// A post: one `compare_exchange` from 0.
pub(crate) struct Posting;

impl Finding<View> for Posting {
    ghost use Rattle.sensor_desk.specs.Steps.{posting};

    ghost shows = { posting };
}

/// A read: one load, and a note of what it found.
pub(crate) struct Reading;

impl Finding<View> for Reading {
    ghost use Rattle.sensor_desk.specs.Steps.{reading};

    ghost shows = { reading };
}

/// A look: one load.
pub(crate) struct Looking;

impl Finding<View> for Looking {
    ghost use Rattle.sensor_desk.specs.Steps.{looking};

    ghost shows = { looking };
}
