//! Feeders that post concurrently.

ghost use Rattle.std.specs.Prelude.{◌≡◌, ◌<◌, ◌≤◌, length, IfOk, OnOk};
ghost use Rattle.std.specs.List.{All};
ghost use Rattle.sensor_desk.specs.Desks.{IsSeatOfDesk};

use crate::gates::FirstPosts;
use example_plans::{Meeting, network};
use net_model::{LinkId, Network};
use sensor_desk::{Desk, DeskSeat, Feeder, NoPostGate};
use std::alloc::{AllocError, Global};
use std::process::Abort;
use std::test::Fail;
use std::thread::Threads;

/// A plan of two links.
const PLAN: &str =
    "point A1|point C1|point A2|point C2|bound b1 C1 C2 2|link A1 1 3 C1|link A2 2 6 C2";

/// A feeder for each seat that may be split from the first one.
fn feeders_of(alloc: Global, desk: &Desk, seat: &mut DeskSeat) -> Result<Vec<Feeder>, AllocError>
    requires seat { IsSeatOfDesk desk.now seat.old }
    requires some { 0 < seat.old.view.to_split }
    ensures seat { OnOk result (IsSeatOfDesk desk.now seat.new) }
    ensures some { IfOk result (λ feeders. 0 < length feeders.items) }
    ensures seats { IfOk result (λ feeders. All (λ feeder. IsSeatOfDesk desk.now feeder.seat)
        feeders.items) }
{
    let mut feeders = Vec::new(alloc);
    while seat.to_split() > 0 {
        let seat = desk.split(seat);
        feeders.push(Feeder { seat, met: None })?;
    }
    Ok(feeders)
}

/// Whether each feeder found a moment at its first place, and those without a place none.
fn all_met_first(feeders: &[Feeder], places: usize) -> bool {
    for (place, feeder) in feeders.iter().enumerate() {
        if !is_met(feeder, place, places) {
            return false;
        }
    }
    true
}

fn is_met(feeder: &Feeder, place: usize, places: usize) -> bool {
    match feeder.met {
        Some(met) => met as usize == place,
        None => place >= places,
    }
}

/// All feeders post a moment, the first two at once if there are two, and then a later one, which
/// each finds at its first place.
fn try_posts<R: Abort + Threads + Sync>(
    rt: &R,
    desk: &Desk,
    seat: &mut DeskSeat,
    feeders: &mut [Feeder],
)
    requires two { length desk.now.about.net.value.links ≡ 2 }
    requires seat { IsSeatOfDesk desk.now seat.old }
    requires some { 0 < length feeders.old }
    requires seats { All (λ feeder. IsSeatOfDesk desk.now feeder.seat) feeders.old }
{
    let links = [LinkId(0), LinkId(1), LinkId(0), LinkId(1)];
    let gate = FirstPosts(Meeting::of(feeders.len().min(2) as u64));
    desk.post_all(rt, feeders, 7, links.as_slice(), &gate);
    assert!(rt; gate.0.met() == Some(4));
    desk.post_all(rt, feeders, 8, links.as_slice(), &NoPostGate);
    assert!(rt; all_met_first(feeders, 4));
    assert_eq!(rt; desk.read(seat, LinkId(0)), Some(7));
    assert_eq!(rt; desk.read(seat, LinkId(1)), Some(7));
}

fn try_feeders<R: Abort + Threads + Sync>(
    rt: &R,
    alloc: Global,
    net: &Network,
    count: u32,
) -> Result<(), Fail>
    requires two { length net.now.links ≡ 2 }
    requires count { (1 ≤ count) × (count ≤ 64) }
{
    let (desk, mut seat) = Desk::new(alloc, net, count + 1)?;
    let mut feeders = feeders_of(alloc, &desk, &mut seat)?;
    try_posts(rt, &desk, &mut seat, feeders.as_mut_slice());
    Ok(())
}

#[test]
fn feeders_post_at_once(rt: HostRuntime) -> Result<(), Fail> {
    let net = network(rt.alloc(), PLAN)?;
    if net.links().len() != 2 {
        return Err(Fail::from("the plan has other links"));
    }
    for count in [1, 2, 7] {
        try_feeders(&rt, rt.alloc(), &net, count)?;
    }
    Ok(())
}
