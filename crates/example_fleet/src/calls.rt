//! Each call of a fleet, on three plans: one that is controllable, one that is not, and one with a
//! link.

ghost use Rattle.std.specs.Prelude.{◌≡◌, ◌<◌, length, IfOk};
ghost use Rattle.std.specs.List.{All};
ghost use Rattle.net_model.specs.Network.{IsPoint};
ghost use Rattle.plan_fleet.specs.Fleets.{AtPlan};

use crate::plans::plans;
use execution_model::{Act, Fed, Finished, Why};
use net_model::PointId;
use parallel_rounds::NoGate;
use plan_fleet::{Fleet, FleetFed, FleetFinished, State};
use std::alloc::Global;
use std::process::Abort;
use std::test::Fail;
use std::thread::Threads;

const PLANS: [(&str, &str); 3] = [
    ("two", "point A|point B|bound b1 A B 5|bound b2 B A -2"),
    ("never", "point A|point B|bound b1 A B 3|bound b2 B A -5"),
    ("link", "point A|point C|link A 3 8 C"),
];

/// The fleet of these plans.
fn open<R: Threads + Sync>(rt: &R, alloc: Global) -> Result<Fleet, Fail>
    ensures { IfOk result (λ fleet. length fleet ≡ 3) }
{
    Ok(Fleet::open(rt, alloc, plans(alloc, PLANS.as_slice())?, &NoGate)?)
}

/// How the plans stand, each by a letter: running, not controllable, complete, ended.
fn stands(fleet: &Fleet) -> [u8; 3]
    requires { length fleet.now ≡ 3 }
{
    [
        letter(fleet.state(0)),
        letter(fleet.state(1)),
        letter(fleet.state(2)),
    ]
}

fn letter(state: State) -> u8 {
    match state {
        State::Running => b'r',
        State::NotControllable => b'n',
        State::Complete => b'c',
        State::Ended => b'e',
    }
}

/// Feeds a plan a moment at which nothing completes.
fn feed(fleet: &mut Fleet, plan: u32, moment: u64) -> FleetFed
    requires three { length fleet.old ≡ 3 }
    requires plan { plan < 3 }
    ensures { length fleet.new ≡ 3 }
{
    fleet.feed(plan, moment, [].as_slice())
}

fn finish(fleet: &mut Fleet, plan: u32) -> FleetFinished
    requires three { length fleet.old ≡ 3 }
    requires plan { plan < 3 }
    ensures { length fleet.new ≡ 3 }
{
    fleet.finish(plan)
}

/// The moment of the last act of a plan, and its next due moment; none if it was not started.
fn reported(fleet: &Fleet, plan: u32) -> (Option<u64>, Option<u64>)
    requires three { length fleet.now ≡ 3 }
    requires plan { plan < 3 }
{
    if !fleet.started(plan) {
        return (None, None);
    }
    (last_of(fleet.acts(plan)), fleet.next_due(plan))
}

fn last_of(acts: &[Act]) -> Option<u64> {
    Some(acts.last()?.moment)
}

/// Feeds and ends the plans in turn: the answer to each, and how all stand after it.
fn try_turns<R: Abort>(rt: &R, mut fleet: Fleet) -> Result<(), Fail>
    requires { length fleet ≡ 3 }
{
    assert!(rt; stands(&fleet) == *b"rnr" && reported(&fleet, 1) == (None, None));
    assert!(rt; reported(&fleet, 0) == (None, Some(0)) && reported(&fleet, 2) == (None, Some(0)));
    assert!(rt; fleet.network(0).points().len() == 2 && fleet.network(1).bounds().len() == 2);
    assert!(rt; feed(&mut fleet, 0, 0) == FleetFed::Fed(Fed::Acts));
    assert!(rt;
        reported(&fleet, 0) == (Some(0), Some(2)) && reported(&fleet, 2) == (None, Some(0))
    );
    assert!(rt; feed(&mut fleet, 1, 0) == FleetFed::Idle && stands(&fleet) == *b"rnr");
    assert!(rt; feed(&mut fleet, 2, 4) == FleetFed::Fed(Fed::Acts));
    assert!(rt; feed(&mut fleet, 2, 4) == FleetFed::Fed(Fed::Refused(Why::NotLater(4))));
    assert!(rt; stands(&fleet) == *b"rne" && feed(&mut fleet, 2, 5) == FleetFed::Idle);
    assert!(rt; finish(&mut fleet, 0) == FleetFinished::Finished(Finished::Complete));
    assert!(rt; stands(&fleet) == *b"cne" && reported(&fleet, 0) == (Some(2), None));
    assert!(rt;
        finish(&mut fleet, 0) == FleetFinished::Idle && finish(&mut fleet, 2) == FleetFinished::Idle
    );
    Ok(())
}

/// The end of a plan with an open link, and of one that is ended.
fn try_ends<R: Abort>(rt: &R, mut fleet: Fleet) -> Result<(), Fail>
    requires { length fleet ≡ 3 }
{
    assert!(rt; finish(&mut fleet, 2) == FleetFinished::Finished(Finished::Unfinished(PointId(1))));
    fleet.end(0);
    assert!(rt; stands(&fleet) == *b"ene" && feed(&mut fleet, 0, 0) == FleetFed::Idle);
    Ok(())
}

#[test]
fn calls_change_one_plan(rt: HostRuntime) -> Result<(), Fail> {
    let fleet = open(&rt, rt.alloc())?;
    try_turns(&rt, fleet)
}

#[test]
fn ends_of_plans(rt: HostRuntime) -> Result<(), Fail> {
    let fleet = open(&rt, rt.alloc())?;
    try_ends(&rt, fleet)
}
