//! Strategies, what they play in a situation, and schedules that satisfy a network or do not.

ghost use Rattle.std.specs.Prelude.{IfOk};
ghost use Rattle.net_model.specs.Network.{HasPlanNumbers};

use net_model::{BuildFault, Items, Name, NameFault, Network, Part, PointId, Weight};
use std::alloc::{AllocError, Global};
use std::process::Abort;
use std::test::Fail;
use strategy_model::{Case, Schedule, Situation, Tree, play, satisfies};

const A: PointId = PointId(0);

const C: PointId = PointId(1);

const D: PointId = PointId(2);

fn name(text: &str) -> Result<Name, NameFault> {
    Name::new(text.as_bytes())
}

fn bound(text: &str, from: &str, to: &str, most: Weight) -> Result<Part, NameFault> {
    Ok(Part::Bound(name(text)?, name(from)?, name(to)?, most))
}

fn link(from: &str, low: Weight, high: Weight, to: &str) -> Result<Part, NameFault> {
    Ok(Part::Link(name(from)?, low, high, name(to)?))
}

/// A link from A to C of one or two moments, and D at the moment of C.
fn together(alloc: Global) -> Result<Network, Fail>
    ensures { IfOk result HasPlanNumbers }
{
    let parts = [
        Part::Point(name("A")?),
        Part::Point(name("C")?),
        Part::Point(name("D")?),
        bound("e1", "C", "D", 0)?,
        bound("e2", "D", "C", 0)?,
        link("A", 1, 2, "C")?,
    ];
    Ok(Network::build(alloc, &parts)?)
}

fn case(alloc: Global, seen: &[PointId], acts: &[PointId], next: Tree) -> Result<Case, AllocError> {
    Ok(Case {
        seen: Items::new(Vec::from_slice(alloc, seen)?),
        acts: Items::new(Vec::from_slice(alloc, acts)?),
        next,
    })
}

/// A node with one case.
fn only(alloc: Global, seen: &[PointId], acts: &[PointId], next: Tree) -> Result<Tree, AllocError> {
    let mut cases = Vec::new(alloc);
    cases.push(case(alloc, seen, acts, next)?)?;
    Ok(Tree::Node(Items::new(cases)))
}

/// A at once, and D as soon as C is seen; if C is not seen in moment 1 it continues as `late` says.
fn as_seen(alloc: Global, late: Tree) -> Result<Tree, AllocError> {
    let mut cases = Vec::new(alloc);
    cases.push(case(alloc, &[C], &[D], Tree::Leaf)?)?;
    cases.push(case(alloc, &[], &[], late)?)?;
    only(alloc, &[], &[A], Tree::Node(Items::new(cases)))
}

#[derive(Clone, Copy)]
enum Example {
    /// D as soon as C is seen, in moment 1 or 2.
    Whole,
    /// The same without the last node's case.
    WithoutLast,
    /// Nothing is done.
    Leaf,
    /// A twice in one moment.
    Twice,
    /// A again in the next moment.
    Again,
    /// The contingent point C is executed.
    Contingent,
}

fn tree(alloc: Global, example: Example) -> Result<Tree, AllocError> {
    match example {
        Example::Whole => as_seen(alloc, only(alloc, &[C], &[D], Tree::Leaf)?),
        Example::WithoutLast => as_seen(alloc, Tree::Node(Items::new(Vec::new(alloc)))),
        Example::Leaf => Ok(Tree::Leaf),
        Example::Twice => only(alloc, &[], &[A, A], Tree::Leaf),
        Example::Again => only(alloc, &[], &[A], only(alloc, &[C], &[A, D], Tree::Leaf)?),
        Example::Contingent => only(alloc, &[], &[C], Tree::Leaf),
    }
}

/// Strategies, the duration of the link, and what is played: the moments of A, C and D.
const PLAYS: [(Example, u64, Option<[u64; 3]>); 9] = [
    (Example::Whole, 1, Some([0, 1, 1])),
    (Example::Whole, 2, Some([0, 2, 2])),
    (Example::Whole, 3, None),
    (Example::WithoutLast, 1, Some([0, 1, 1])),
    (Example::WithoutLast, 2, None),
    (Example::Leaf, 1, None),
    (Example::Twice, 1, None),
    (Example::Again, 1, None),
    (Example::Contingent, 1, None),
];

fn played(
    alloc: Global,
    net: &Network,
    example: Example,
    duration: u64,
) -> Result<Option<Schedule>, AllocError> {
    let tree = tree(alloc, example)?;
    let situation: Situation = Vec::from_slice(alloc, &[duration])?;
    play(alloc, &tree, net, &situation)
}

/// Whether a schedule is the one wanted, and satisfies the network if one is wanted.
fn is_wanted(schedule: &Option<Schedule>, wanted: Option<[u64; 3]>, net: &Network) -> bool {
    match (schedule, wanted) {
        (None, None) => true,
        (Some(schedule), Some(moments)) => {
            schedule.as_slice() == &moments[..]
                && schedule.len() == net.points().len()
                && satisfies(schedule, net)
        }
        _ => false,
    }
}

fn check_plays(rt: &impl Abort, alloc: Global, net: &Network) -> Result<(), AllocError> {
    for (example, duration, wanted) in PLAYS {
        let schedule = played(alloc, net, example, duration)?;
        assert!(rt; is_wanted(&schedule, wanted, net));
    }
    Ok(())
}

/// Moments of A, C and D, and whether they satisfy the network.
const SCHEDULES: [([u64; 3], bool); 3] = [
    ([0, 2, 2], true),
    ([0, 2, 1], false),
    ([0, 2, 3], false),
];

fn check_schedules(rt: &impl Abort, alloc: Global, net: &Network) -> Result<(), AllocError> {
    for (moments, wanted) in SCHEDULES {
        let schedule: Schedule = Vec::from_slice(alloc, &moments)?;
        assert!(rt; schedule.len() == net.points().len());
        assert!(rt; satisfies(&schedule, net) == wanted);
    }
    Ok(())
}

/// Strategies, the duration of the link and what is played, of the same network with a delay of 1:
/// C is seen a moment after it came.
const LATE_PLAYS: [(Example, u64, Option<[u64; 3]>); 4] = [
    (Example::Whole, 1, Some([0, 1, 2])),
    (Example::Whole, 2, None),
    (Example::WithoutLast, 1, None),
    (Example::Contingent, 1, None),
];

fn check_late_plays(rt: &impl Abort, alloc: Global, net: Network) -> Result<(), AllocError>
    requires { HasPlanNumbers net }
{
    let late = net.with_delay(1);
    for (example, duration, wanted) in LATE_PLAYS {
        let schedule = played(alloc, &late, example, duration)?;
        let moments = schedule.as_ref().map(|schedule| schedule.as_slice());
        assert!(rt; moments == wanted.as_ref().map(|moments| &moments[..]));
    }
    Ok(())
}

fn check(rt: &impl Abort, alloc: Global, net: &Network) -> Result<(), Fail> {
    check_plays(rt, alloc, net)?;
    Ok(check_schedules(rt, alloc, net)?)
}

#[test]
fn strategies_play_and_schedules_satisfy(rt: HostRuntime) -> Result<(), Fail> {
    let net = together(rt.alloc())?;
    check(&rt, rt.alloc(), &net)?;
    Ok(check_late_plays(&rt, rt.alloc(), net)?)
}
