//! How many workers make the rows of a round, and test a closed table.

ghost use Rattle.std.specs.Prelude.{◌≡◌, option_map};
ghost use Rattle.command_contracts.specs.WorkerCounts.{workers_of};

use crate::counts::count_within;
use parallel_rounds::{NoGate, Workers};
use std::alloc::Global;
use std::marker::Model;

/// How many workers there may be.
const MOST_WORKERS: u32 = 64;

/// How many workers make the rows of a round and test a closed table, from 1 to 64. Contracts see
/// their number; what they open and close does not depend on it.
#[derive(Drop)]
pub struct WorkerCount {
    count: u32,
}

impl Model for WorkerCount {
    ghost use Rattle.std.specs.Prelude.{ℕ, ◌≤◌};
    ghost use Rattle.command_contracts.specs.WorkerCounts.{most_workers};

    ghost Value = { ℕ };

    ghost view = { λ workers. workers.count };

    ghost invariant = { λ workers. (1 ≤ workers.count) × (workers.count ≤ most_workers) };
}

impl WorkerCount {
    /// So many workers as the value of the option `--workers` says, or one if it is not given;
    /// `None` if the value is no number from 1 to 64.
    pub fn of(value: Option<&str>) -> Option<WorkerCount>
        ensures { result ≡ workers_of (option_map (λ text. text.now) value.entry) }
    {
        match value {
            None => Some(WorkerCount { count: 1 }),
            Some(word) => Some(WorkerCount {
                count: count_within(word.as_bytes(), MOST_WORKERS)?,
            }),
        }
    }

    /// The workers themselves, with the threads on which they run and their memory, and no gate
    /// before a row.
    pub fn workers<'a, R>(&self, rt: &'a R, alloc: Global) -> Workers<'a, R, NoGate>
        ensures { result ≡ self.now }
    {
        Workers::of(rt, alloc, self.count, &NoGate)
    }
}
