//! A test that the plans of a fleet are decided side by side.

use crate::plans::plans;
use example_plans::Meeting;
use parallel_rounds::Gate;
use plan_fleet::{Fleet, State};
use std::alloc::Global;
use std::process::Abort;
use std::sync::atomic::{AtomicU32, Ordering};
use std::test::Fail;
use std::thread::Threads;

/// Blocks the first plan until the second has begun, and adds up the places that it is told.
#[derive(Drop)]
struct Held {
    meeting: Meeting,
    places: AtomicU32,
}

impl Held {
    fn new() -> Held {
        Held {
            meeting: Meeting::of(2),
            places: AtomicU32::new(0),
        }
    }

    /// Whether the first plan was not released before, and both have begun, at the places 0 and 1.
    fn was_met(&self) -> bool {
        self.meeting.met() == Some(2) && self.places.load(Ordering::SeqCst) == 1
    }
}

impl Gate for Held {
    fn before(&self, place: u32) {
        self.places.fetch_add(place, Ordering::SeqCst);
        self.meeting.arrive();
        if place == 0 {
            self.meeting.wait();
        }
    }
}

/// A fleet of two plans of one point each, of which the first is blocked until the second has
/// begun.
fn try_two<R: Threads + Sync + Abort>(rt: &R, alloc: Global) -> Result<(), Fail> {
    let gate = Held::new();
    let two = [("x", "point A"), ("y", "point B")];
    let fleet = Fleet::open(rt, alloc, plans(alloc, two.as_slice())?, &gate)?;
    assert!(rt; gate.was_met(), "two plans are decided at once");
    assert!(rt; fleet.state(0) == State::Running && fleet.state(1) == State::Running);
    Ok(())
}

#[test]
fn plans_are_decided_side_by_side(rt: HostRuntime) -> Result<(), Fail> {
    try_two(&rt, rt.alloc())
}
