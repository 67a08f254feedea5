//! Drawn days: the executor, on slim lists, compared with the slow one on whole lists.

use crate::comparison::{Departures, Draws, try_stream};
use crate::plans::network;
use crate::refusals::Refusals;
use execution_model::Why;
use std::alloc::{AllocError, Global};
use std::process::Abort;
use std::test::Fail;
use std::thread::Threads;

/// How many days are drawn.
const DAYS: u32 = 500;

/// The lines of a day, by kind.
#[derive(Drop)]
struct Day {
    points: String,
    bounds: String,
    links: String,
}

/// Of how many days at least the stream is refused for each cause.
const FEW: u32 = 3;

#[test]
fn days_are_as_slow(rt: HostRuntime) -> Result<(), Fail> {
    let mut draws = Draws { state: 11 };
    let mut refusals = Refusals::default();
    for number in 0..DAYS {
        if let Some(why) = try_day(&rt, rt.alloc(), number, &mut draws)? {
            refusals.count(why);
        }
    }
    assert!(rt; FEW <= refusals.fewest(), "{refusals:?}");
    Ok(())
}

/// One stream of a drawn day of 22 to 61 points. Gives why it was refused.
fn try_day(
    rt: &(impl Abort + Threads + Sync),
    alloc: Global,
    number: u32,
    draws: &mut Draws,
) -> Result<Option<Why>, Fail> {
    let tasks = draws.draw(14).saturating_add(7);
    let lines = drawn(alloc, tasks, draws)?;
    let net = network(alloc, lines.as_str())?;
    try_stream(rt, alloc, &net, Departures::of(number), draws)
}

/// The lines of a day of so many tasks.
fn drawn(alloc: Global, tasks: u64, draws: &mut Draws) -> Result<String, AllocError> {
    let mut day = Day {
        points: String::new(alloc),
        bounds: String::new(alloc),
        links: String::new(alloc),
    };
    push_tasks(&mut day, tasks, draws)?;
    format!(in alloc; "point morning{}{}{}", day.points, day.bounds, day.links)
}

fn push_tasks(day: &mut Day, tasks: u64, draws: &mut Draws) -> Result<(), AllocError> {
    for task in 0..tasks {
        push_task(day, task, draws)?;
    }
    Ok(())
}

/// A task: after the morning or an earlier task, with a duration that is chosen or contingent; and
/// a point that comes at most some moments before its end, which then has to wait for it.
fn push_task(day: &mut Day, task: u64, draws: &mut Draws) -> Result<(), AllocError> {
    write!(
        day.points,
        "|point begin{task}|point done{task}|point watch{task}"
    )?;
    push_start(day, task, draws)?;
    push_end(day, task, draws)
}

fn push_start(day: &mut Day, task: u64, draws: &mut Draws) -> Result<(), AllocError> {
    let gap = draws.draw(4);
    let sign = if gap == 0 { "" } else { "-" };
    write!(day.bounds, "|bound after{task} begin{task} ")?;
    match task.checked_sub(draws.draw(3).saturating_add(1)) {
        None => write!(day.bounds, "morning {sign}{gap}"),
        Some(last) => write!(day.bounds, "done{last} {sign}{gap}"),
    }
}

fn push_end(day: &mut Day, task: u64, draws: &mut Draws) -> Result<(), AllocError> {
    let least = draws.draw(4).saturating_add(1);
    let most = least.saturating_add(draws.draw(6));
    let notice = draws.draw(5);
    push_bound(day, ["watch", "watch", "done"], task, "", notice)?;
    if draws.draw(3) == 0 {
        push_bound(day, ["least", "done", "begin"], task, "-", least)?;
        push_bound(day, ["most", "begin", "done"], task, "", most)
    } else {
        write!(day.links, "|link begin{task} {least} {most} done{task}")
    }
}

/// A bound between two points of a task, by the words of its name and of the points, and the sign
/// and the size of its number.
fn push_bound(
    day: &mut Day,
    words: [&str; 3],
    task: u64,
    sign: &str,
    size: u64,
) -> Result<(), AllocError> {
    let [name, from, to] = words;
    write!(
        day.bounds,
        "|bound {name}{task} {from}{task} {to}{task} {sign}{size}"
    )
}
