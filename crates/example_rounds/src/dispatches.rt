//! The lower bounds and waits of the closures of small networks, and what is left of them without
//! those that others imply.

ghost use Rattle.std.specs.Prelude.{◌≡◌, ◌≤◌, ◌<◌, length, IfOk, IfSome};

use crate::networks::network;
use crate::rounds::see_text;
use derivation_dag::{Plain, Supports};
use dispatch_net::Dispatch;
use net_model::{Network, PointId};
use parallel_rounds::{NoGate, Outcome, propagate};
use std::alloc::{AllocError, Global};
use std::process::Abort;
use std::test::Fail;
use std::thread::Threads;

/// The dispatchable network of the closure of a network without a delay, if its table has an order.
fn dispatch<R: Threads + Sync>(
    rt: &R,
    alloc: Global,
    net: &Network,
) -> Result<Option<Dispatch>, Fail>
    ensures { IfOk result (λ found. IfSome found
        (λ dispatch. length dispatch.kept ≡ length net.now.points)) }
{
    if net.delay() != 0 {
        return Err(Fail::from("a delay"));
    }
    let mut store = Plain::of(alloc, net)?;
    let _points = net.points();
    let Outcome::Closed { rounds: _, order } = propagate(rt, alloc, net, &mut store, 1, &NoGate)?
    else {
        return Ok(None);
    };
    let dispatch = Dispatch::of(alloc, net, store.table(), order.as_slice())?;
    Ok(Some(dispatch))
}

/// The lower bounds and waits of a point, by numbers.
fn push_point(dispatch: &Dispatch, point: PointId, text: &mut String) -> Result<(), AllocError>
    requires { point.0 < length dispatch.now.kept }
{
    for (other, n) in dispatch.lower_bounds(point) {
        write!(text, "{} after {} by {n}|", point.0, other.0)?;
    }
    for (link, n) in dispatch.waits(point) {
        write!(text, "{} waits for {} by {n}|", point.0, link.0)?;
    }
    Ok(())
}

/// The lower bounds and waits of so many points.
fn push_points(dispatch: &Dispatch, points: u32, text: &mut String) -> Result<(), AllocError>
    requires { points ≤ length dispatch.now.kept }
{
    for point in 0..points {
        push_point(dispatch, PointId(point), text)?;
    }
    Ok(())
}

/// The lower bounds and waits of so many points, and after ` => ` what is left of them without
/// those that others imply.
fn push_both(dispatch: Dispatch, points: u32, text: &mut String) -> Result<(), AllocError>
    requires { points ≤ length dispatch.kept }
{
    push_points(&dispatch, points, text)?;
    text.push_str(" => ")?;
    push_points(&dispatch.slim(), points, text)
}

/// The lower bounds and waits of the closure of a network, before and after.
fn push_shown<R: Threads + Sync>(
    rt: &R,
    alloc: Global,
    net: &Network,
    text: &mut String,
) -> Result<(), Fail> {
    let points = net.points().len() as u32;
    match dispatch(rt, alloc, net)? {
        Some(dispatch) => Ok(push_both(dispatch, points, text)?),
        None => Ok(()),
    }
}

fn push_shown_of<R: Threads + Sync>(
    rt: &R,
    alloc: Global,
    parts: &str,
    text: &mut String,
) -> Result<(), Fail> {
    let net = network(alloc, parts)?;
    push_shown(rt, alloc, &net, text)
}

fn check<R: Threads + Sync + Abort>(rt: &R, alloc: Global, row: &str) -> Result<(), Fail> {
    let (parts, expected) = row.split_once(" => ").unwrap_or((row, ""));
    let mut text = String::new(alloc);
    push_shown_of(rt, alloc, parts, &mut text)?;
    see_text(rt, text.as_str(), expected, parts);
    Ok(())
}

/// Rows: the parts of a network, its lower bounds and waits, and what is left of them; points and
/// links stand by their numbers. In order: a bound and a wait; a bound; none. A bound that two
/// others together are beyond, that they just reach, and that they do not reach. One that is just
/// reached over a link's shortest duration, and one only over its longest, each beside a wait that
/// is dropped with a bound on the end of its link. A wait that a bound on its activation point just
/// reaches, and one that it does not. A wait that a bound and another wait together just reach, and
/// one that they do not. Bounds, and then waits, that are left out over others which are left out
/// too: of another point, with the points numbered from the first on and from the last, and of the
/// same point. A bound on the end of another link.
const DISPATCHES: &str =
    "point A|point C|point X|bound b X C 2|link A 3 8 C => 2 after 0 by 3|2 waits for 0 by 6| => 2 after 0 by 3|2 waits for 0 by 6|
point A|point B|bound b B A -2 => 1 after 0 by 2| => 1 after 0 by 2|
point A|point B|bound b A B 0 =>  => 
point A|point B|point C|bound b1 B A -2|bound b2 C B -3|bound b3 C A -4 => 1 after 0 by 2|2 after 0 by 4|2 after 1 by 3| => 1 after 0 by 2|2 after 1 by 3|
point A|point B|point C|bound b1 B A -2|bound b2 C B -3|bound b3 C A -5 => 1 after 0 by 2|2 after 0 by 5|2 after 1 by 3| => 1 after 0 by 2|2 after 1 by 3|
point A|point B|point C|bound b1 B A -2|bound b2 C B -3|bound b3 C A -6 => 1 after 0 by 2|2 after 0 by 6|2 after 1 by 3| => 1 after 0 by 2|2 after 0 by 6|2 after 1 by 3|
point A|point C|point X|bound b1 X C -2|bound b2 X A -5|link A 3 8 C => 2 after 0 by 5|2 after 1 by 2|2 waits for 0 by 8| => 2 after 1 by 2|
point A|point C|point X|bound b1 X C -2|bound b2 X A -6|link A 3 8 C => 2 after 0 by 6|2 after 1 by 2|2 waits for 0 by 8| => 2 after 0 by 6|2 after 1 by 2|
point A|point C|point X|bound b1 X C 2|bound b2 X A -6|link A 3 8 C => 2 after 0 by 6|2 waits for 0 by 6| => 2 after 0 by 6|
point A|point C|point X|bound b1 X C 2|bound b2 X A -5|link A 3 8 C => 2 after 0 by 5|2 waits for 0 by 6| => 2 after 0 by 5|2 waits for 0 by 6|
point A|point C|point Y|point X|bound b1 Y C 2|bound b2 X C 1|bound b3 X Y -1|link A 3 8 C => 2 after 0 by 3|2 waits for 0 by 6|3 after 0 by 3|3 after 2 by 1|3 waits for 0 by 7| => 2 after 0 by 3|2 waits for 0 by 6|3 after 2 by 1|
point A|point C|point Y|point X|bound b1 Y C 2|bound b2 X C 0|bound b3 X Y -1|link A 3 8 C => 2 after 0 by 3|2 waits for 0 by 6|3 after 0 by 3|3 after 2 by 1|3 waits for 0 by 8| => 2 after 0 by 3|2 waits for 0 by 6|3 after 2 by 1|3 waits for 0 by 8|
point A|point B|point C|point D|bound b1 B A -1|bound b2 C B -1|bound b3 C A -2|bound b4 D C -1|bound b5 D A -3 => 1 after 0 by 1|2 after 0 by 2|2 after 1 by 1|3 after 0 by 3|3 after 1 by 1|3 after 2 by 1| => 1 after 0 by 1|2 after 1 by 1|3 after 2 by 1|
point D|point C|point B|point A|bound b1 B A -1|bound b2 C B -1|bound b3 C A -2|bound b4 D C -1|bound b5 D A -3 => 0 after 1 by 1|0 after 2 by 1|0 after 3 by 3|1 after 2 by 1|1 after 3 by 2|2 after 3 by 1| => 0 after 1 by 1|1 after 2 by 1|2 after 3 by 1|
point A|point C|point W|point Y|point X|bound b1 W C 4|bound b2 Y C 3|bound b3 X C 2|bound b4 Y W -1|bound b5 X Y -1|link A 3 8 C => 2 after 0 by 3|2 waits for 0 by 4|3 after 0 by 3|3 after 2 by 1|3 waits for 0 by 5|4 after 0 by 3|4 after 2 by 1|4 after 3 by 1|4 waits for 0 by 6| => 2 after 0 by 3|2 waits for 0 by 4|3 after 2 by 1|4 after 3 by 1|
point X|point Y|point W|point C|point A|bound b1 W C 4|bound b2 Y C 3|bound b3 X C 2|bound b4 Y W -1|bound b5 X Y -1|link A 3 8 C => 0 after 1 by 1|0 after 2 by 1|0 after 4 by 3|0 waits for 0 by 6|1 after 2 by 1|1 after 4 by 3|1 waits for 0 by 5|2 after 4 by 3|2 waits for 0 by 4| => 0 after 1 by 1|1 after 2 by 1|2 after 4 by 3|2 waits for 0 by 4|
point D|point C|point B|point A|bound b1 B A -1|bound b2 C B -2|bound b3 D B -3|bound b4 D C -1|bound b5 D A -4 => 0 after 1 by 1|0 after 2 by 3|0 after 3 by 4|1 after 2 by 2|1 after 3 by 1|2 after 3 by 1| => 0 after 1 by 1|1 after 2 by 2|2 after 3 by 1|
point A|point C|point Y|point X|bound b1 Y A -5|bound b2 X Y -1|bound b3 X A -6|bound b4 X C 2|link A 3 8 C => 2 after 0 by 5|3 after 0 by 6|3 after 2 by 1|3 waits for 0 by 6| => 2 after 0 by 5|3 after 2 by 1|
point A|point B|point D|point C|point X|bound b1 X C 2|bound b2 X D -1|link A 3 8 C|link B 1 9 D => 4 after 0 by 3|4 after 1 by 1|4 after 2 by 1|4 waits for 0 by 6|4 waits for 1 by 9| => 4 after 0 by 3|4 after 2 by 1|4 waits for 0 by 6|";

#[test]
fn closures_are_dispatched(rt: HostRuntime) -> Result<(), Fail> {
    for row in DISPATCHES.split('\n') {
        check(&rt, rt.alloc(), row)?;
    }
    Ok(())
}
