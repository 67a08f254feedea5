//! A meeting of threads, for tests that need several to run at once.

use std::sync::atomic::{AtomicBool, AtomicU64, Ordering};

/// How often a thread looks, at most, whether all have come.
const TURNS: u64 = 500_000_000;

/// Threads that come and wait for one another, until as many have come as are awaited.
#[derive(Drop)]
pub struct Meeting {
    awaited: u64,
    arrived: AtomicU64,
    failed: AtomicBool,
}

impl Meeting {
    /// A meeting of so many threads.
    pub fn of(awaited: u64) -> Meeting {
        Meeting {
            awaited,
            arrived: AtomicU64::new(0),
            failed: AtomicBool::new(false),
        }
    }

    /// Comes, and waits if it is one of the first, as many as are awaited.
    pub fn join(&self) {
        if self.arrive() < self.awaited {
            self.wait();
        }
    }

    /// Comes without waiting. Returns how many had come before.
    pub fn arrive(&self) -> u64 {
        self.arrived.fetch_add(1, Ordering::SeqCst)
    }

    /// Waits until all that are awaited have come. It goes on after many turns, and the meeting has
    /// failed.
    pub fn wait(&self) {
        for _ in 0..TURNS {
            if self.arrived.load(Ordering::SeqCst) >= self.awaited {
                return;
            }
        }
        self.failed.store(true, Ordering::SeqCst);
    }

    /// How many have come, if none that waited went on before all that are awaited had come.
    pub fn met(&self) -> Option<u64> {
        if self.failed.load(Ordering::SeqCst) {
            None
        } else {
            Some(self.arrived.load(Ordering::SeqCst))
        }
    }
}
