//! Gates of sweeps: one that is passed only if as many workers go over targets at once as there
//! are, and one that counts the targets.

use cell_table::CellGate;
use example_plans::Meeting;
use std::sync::atomic::{AtomicU64, Ordering};

/// Blocks each of the first targets, as many as there are workers, until all of these have begun.
#[derive(Drop)]
pub(crate) struct FirstTargets(pub(crate) Meeting);

impl CellGate for FirstTargets {
    fn before(&self, _target: u32) {
        self.0.join();
    }
}

/// Counts how often it is called.
#[derive(Drop)]
pub(crate) struct CallCounter {
    calls: AtomicU64,
}

impl CallCounter {
    pub(crate) fn new() -> CallCounter {
        CallCounter {
            calls: AtomicU64::new(0),
        }
    }

    pub(crate) fn calls(&self) -> u64 {
        self.calls.load(Ordering::SeqCst)
    }
}

impl CellGate for CallCounter {
    fn before(&self, _target: u32) {
        self.calls.fetch_add(1, Ordering::SeqCst);
    }
}
