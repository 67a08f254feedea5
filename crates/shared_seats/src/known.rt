//! What a user of shared words gives: what a seat knows, what its steps show, and the rule.

ghost use Rattle.std.specs.Prelude.{◌≡◌, ℕ, ◌-◌, List};

/// What a seat knows, and what becomes of it when seats are split and joined.
pub trait Known {
    /// What a seat without a live standing would know: any value.
    ghost nothing: { Self };

    /// How many seats may still be split from a seat that knows this.
    ghost to_split: { Self → ℕ };

    /// What a seat knows after another was split from it.
    ghost split_from: { Self → Self };

    /// What the seat knows that was split from one that knows this.
    ghost split_off: { Self → Self };

    /// What a seat knows after another was joined into it.
    ghost joined_with: { Self → Self → Self };

    /// From a seat from which another was split, one less may be split.
    ghost splits_one_less: { (view : Self) → to_split (split_from view) ≡ to_split view - 1 };

    /// From a seat that was split from another, none may be split.
    ghost splits_none: { (view : Self) → to_split (split_off view) ≡ 0 };

    /// From a seat into which another was joined, as many may be split as before.
    ghost splits_as_many: { (view joining : Self) → to_split (joined_with view joining)
        ≡ to_split view };
}

/// The rule of words that are told `K` once, when they are made.
pub trait SeatRule<V, K> {
    ghost use Rattle.shared_seats.specs.declared.standing.Standing.{Standing};

    /// What holds of the words and of all seats.
    ghost holds: { K → List ℕ → List (Standing V) → Type 0 };

    /// What the first seat knows.
    ghost first: { K → V };
}

/// What a step shows to its seat.
pub trait Finding<V> {
    /// Of the place of the word, the two operands of the step, what the seat knew before, the word
    /// that the step found, and what the seat knows after it.
    ghost shows: { ℕ → ℕ → ℕ → V → ℕ → V → Type 0 };
}
