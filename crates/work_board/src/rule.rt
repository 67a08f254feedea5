//! The rule under which the word of a board stands, what its seats know, and what a draw shows.

use crate::view::{Size, View};
use shared_seats::{Finding, Known, SeatRule};

/// What the word contains is reached by a history of the board.
pub(crate) struct Histories;

impl SeatRule<View, Size> for Histories {
    ghost use Rattle.work_board.specs.Steps.{IsReachedBy};
    ghost use Rattle.work_board.specs.Views.{first_view};

    ghost holds = { IsReachedBy };

    ghost first = { first_view };
}

impl Known for View {
    ghost use Rattle.std.specs.Prelude.{refl};
    ghost use Rattle.work_board.specs.Seats as seats;
    ghost use Rattle.work_board.specs.Views as views;

    ghost nothing = { seats.nothing };

    ghost to_split = { λ view. view.to_split };

    ghost split_from = { views.split_from };

    ghost split_off = { views.split_off };

    ghost joined_with = { views.joined_with };

    ghost splits_one_less = { λ _. refl };

    ghost splits_none = { λ _. refl };

    ghost splits_as_many = { λ _ _. refl };
}

/// A draw: one `fetch_add`.
pub(crate) struct Drawing;

impl Finding<View> for Drawing {
    ghost use Rattle.work_board.specs.Steps.{IsDrawn};

    ghost shows = { λ _ _ _. IsDrawn };
}
