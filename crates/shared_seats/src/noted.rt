//! What a seat knows that notes what its steps found.

use crate::known::Known;

/// What shared words are about whose seats take notes.
pub trait Subject {
    /// Any value.
    ghost any: { Self };
}

/// What a seat knows that takes notes. Values of it stand in contracts alone: none is made.
pub struct Noted<A, N, L> {
    /// What the words are about.
    pub about: A,
    /// Its notes, and those of the seats that were joined into it. A clause reads an array as a
    /// list, of any length.
    pub notes: [N; 0],
    /// What its own steps found.
    pub looks: [L; 0],
    /// How many seats may still be split from it.
    pub to_split: u32,
}

impl<A: Subject, N, L> Known for Noted<A, N, L> {
    ghost use Rattle.std.specs.Prelude.{refl};
    ghost use Rattle.shared_seats.specs.NotedViews as views;

    ghost nothing = { views.bare_view A.any 0 };

    ghost to_split = { views.count_to_split };

    ghost split_from = { views.split_from };

    ghost split_off = { views.split_off };

    ghost joined_with = { views.joined_with };

    ghost splits_one_less = { λ _. refl };

    ghost splits_none = { λ _. refl };

    ghost splits_as_many = { λ _ _. refl };
}
