//! The play of a strategy tree in a situation, moment by moment.

ghost use Rattle.std.specs.Prelude.{◌≡◌, ◌⊎◌, ◌^◌, ◌≤◌, Some, None, ◌+◌, ◌-◌, ◌++◌, ◌&&◌, length};
ghost use Rattle.std.specs.Prelude.{is_none, nat_lt, IfOk, IfSome, OnOk};
ghost use Rattle.std.specs.Option.{option_map, option_copied};
ghost use Rattle.net_model.specs.Network.{activation};
ghost use Rattle.strategy_model.specs.Plays.{play, moment_so_far, at_moment, shows, is_shown};
ghost use Rattle.strategy_model.specs.Plays.{shown, may_act, case_for, schedule_made};

use crate::tree::{Case, Tree};
use crate::{Schedule, Situation};
use net_model::{Link, Network, PointId};
use std::alloc::{AllocError, Global};

/// The schedule that a strategy makes of a network, with its delay, in a situation, which has one
/// duration for each link, each in its interval. It is `None` exactly if the strategy has no play
/// there: if at some moment no case has just the points that are shown, or an act is no executable
/// point or was executed before, or if a point has no moment at the leaf. `AllocError` comes only
/// for want of memory.
pub fn play(
    alloc: Global,
    tree: &Tree,
    net: &Network,
    situation: &Situation,
) -> Result<Option<Schedule>, AllocError>
    ensures played { IfOk result (λ schedule. option_map
        (λ s. s.items) schedule ≡ play tree.now net.now situation.now.items) }
    ensures complete { IfOk result
        (λ schedule. IfSome schedule (λ s. length s.items ≡ length net.now.points)) }
{
    let mut moments = Vec::new(alloc);
    let mut node = tree;
    let mut t: u64 = 0;
    while let Tree::Node(cases) = node {
        let seen = shown(alloc, net, situation.as_slice(), moments.as_slice(), t)?;
        let Some(case) = case_for(cases.as_slice(), seen.as_slice()) else {
            return Ok(None);
        };
        if !may_act(net, moments.as_slice(), case.acts.as_slice()) {
            return Ok(None);
        }
        push_at(&mut moments, seen.as_slice(), happened(net, t))?;
        push_at(&mut moments, case.acts.as_slice(), t)?;
        node = &case.next;
        t = next_moment(t)?;
    }
    schedule_made(alloc, net, moments.as_slice())
}

/// No tree that memory can hold is so deep that the moments run out.
fn next_moment(t: u64) -> Result<u64, AllocError>
    ensures { IfOk result (λ next. next ≡ t + 1) }
{
    t.checked_add(1).ok_or(AllocError)
}

/// The moment at which what is shown at a moment happened.
fn happened(net: &Network, t: u64) -> u64
    ensures { result ≡ t - net.now.delay }
{
    t.saturating_sub(net.delay() as u64)
}

/// The moment that a point has so far.
fn moment_so_far(so_far: &[(PointId, u64)], point: PointId) -> Option<u64>
    ensures { result ≡ moment_so_far so_far.now point }
{
    for (known, moment) in so_far {
        if *known == point {
            return Some(*moment);
        }
    }
    None
}

/// The moment at which a completion is shown, if it is a moment.
fn late(activation: u64, duration: u64, delay: u64) -> Option<u64>
    ensures { (result ≡ Some (activation + duration + delay))
        ⊎ ((result ≡ None) × (2 ^ 64 ≤ activation + duration + delay)) }
{
    activation.checked_add(duration)?.checked_add(delay)
}

fn shows(net: &Network, so_far: &[(PointId, u64)], t: u64, link: &Link, duration: u64) -> bool
    ensures { result ≡ shows net.now so_far.now t link.now duration }
{
    match moment_so_far(so_far, link.from) {
        Some(activation) => late(activation, duration, net.delay() as u64) == Some(t),
        None => false,
    }
}

fn is_shown(
    net: &Network,
    so_far: &[(PointId, u64)],
    t: u64,
    links: &[Link],
    durations: &[u64],
    point: PointId,
) -> bool
    ensures { result ≡ is_shown net.now so_far.now t links.now durations.now point }
{
    for (link, duration) in links.iter().zip(durations) {
        if link.to == point && shows(net, so_far, t, link, *duration) {
            return true;
        }
    }
    false
}

/// The points that are shown at a moment, in order of number.
fn shown(
    alloc: Global,
    net: &Network,
    situation: &[u64],
    so_far: &[(PointId, u64)],
    t: u64,
) -> Result<Vec<PointId>, AllocError>
    ensures { IfOk result (λ points. points.items ≡ shown net.now situation.now so_far.now t) }
{
    let mut points = Vec::new(alloc);
    for k in 0..net.points().len() {
        let point = PointId(k as u32);
        if is_shown(net, so_far, t, net.links(), situation, point) {
            points.push(point)?;
        }
    }
    Ok(points)
}

/// The first case that has just these points as seen.
fn case_for<'a>(cases: &'a [Case], points: &[PointId]) -> Option<&'a Case>
    ensures { option_copied result ≡ case_for cases.now points.now }
{
    for case in cases {
        if case.seen.as_slice() == points {
            return Some(case);
        }
    }
    None
}

/// Whether these points may be executed now.
fn may_act(net: &Network, so_far: &[(PointId, u64)], acts: &[PointId]) -> bool
    ensures { result ≡ may_act net.now so_far.now acts.now }
{
    for (place, act) in acts.iter().enumerate() {
        if !may_execute(net, so_far, *act) || acts[place + 1..].contains(act) {
            return false;
        }
    }
    true
}

/// Whether a point is executable and was not executed before.
fn may_execute(net: &Network, so_far: &[(PointId, u64)], point: PointId) -> bool
    ensures { result ≡ (nat_lt point.0 (length net.now.points) && is_none
        (activation net.now point) && is_none (moment_so_far so_far.now point)) }
{
    (point.0 as usize) < net.points().len()
        && !net.is_contingent(point)
        && moment_so_far(so_far, point).is_none()
}

/// Gives points a moment.
fn push_at(moments: &mut Vec<(PointId, u64)>, points: &[PointId], t: u64) -> Result<(), AllocError>
    ensures { OnOk result (moments.new.items ≡ moments.old.items ++ at_moment t points.now) }
{
    for point in points {
        moments.push((*point, t))?;
    }
    Ok(())
}

/// The schedule that was made, if each point has a moment.
fn schedule_made(
    alloc: Global,
    net: &Network,
    so_far: &[(PointId, u64)],
) -> Result<Option<Schedule>, AllocError>
    ensures made { IfOk result (λ schedule. option_map
        (λ s. s.items) schedule ≡ schedule_made net.now so_far.now) }
    ensures complete { IfOk result
        (λ schedule. IfSome schedule (λ s. length s.items ≡ length net.now.points)) }
{
    let mut schedule = Vec::new(alloc);
    for k in 0..net.points().len() {
        let Some(moment) = moment_so_far(so_far, PointId(k as u32)) else {
            return Ok(None);
        };
        schedule.push(moment)?;
    }
    Ok(Some(schedule))
}
