//! The workers who make rounds: how many, with their threads and memory, and the gate before each
//! row.

ghost use Rattle.std.specs.Prelude.{◌≡◌, ◌≤◌};
ghost use Rattle.work_board.specs.Limits.{most_seats};

use std::alloc::Global;
use std::marker::Model;

/// The workers of rounds, 1 to 64: the threads on which they run, their memory, how many they are,
/// and the gate that is called before each row. Who makes rounds, or decides by them, is passed all
/// of this at once. Contracts see the workers as their number; what is made by them depends neither
/// on it nor on the gate.
#[derive(Drop)]
pub struct Workers<'a, R, G> {
    rt: &'a R,
    alloc: Global,
    count: u32,
    gate: &'a G,
}

impl<'a, R, G> Model for Workers<'a, R, G> {
    ghost use Rattle.std.specs.Prelude.{ℕ, ◌≤◌};
    ghost use Rattle.work_board.specs.Limits.{most_seats};

    ghost Value = { ℕ };

    ghost view = { λ workers. workers.count };

    ghost invariant = { λ workers. (1 ≤ workers.count) × (workers.count ≤ most_seats) };
}

impl<'a, R, G> Workers<'a, R, G> {
    /// So many workers, and the gate before each of their rows.
    pub fn of(rt: &'a R, alloc: Global, count: u32, gate: &'a G) -> Workers<'a, R, G>
        requires { (1 ≤ count) × (count ≤ most_seats) }
        ensures { result ≡ count }
    {
        Workers {
            rt,
            alloc,
            count,
            gate,
        }
    }

    /// As many of them as are worth starting: the first alone if there is little to do.
    pub(crate) fn worth(&self, is_little: bool) -> Workers<'a, R, G> {
        let count = if is_little { 1 } else { self.count };
        Workers::of(self.rt, self.alloc, count, self.gate)
    }

    /// The threads.
    pub fn rt(&self) -> &'a R {
        self.rt
    }

    /// The memory.
    pub fn alloc(&self) -> Global {
        self.alloc
    }

    /// How many there are.
    pub fn count(&self) -> u32
        ensures count { result ≡ self.now }
        ensures some { 1 ≤ result }
        ensures seated { result ≤ most_seats }
    {
        self.count
    }

    /// The gate.
    pub fn gate(&self) -> &'a G {
        self.gate
    }
}
