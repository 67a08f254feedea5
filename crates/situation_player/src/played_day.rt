//! The earliest schedule of a situation, played out by an execution.

ghost use Rattle.std.specs.Prelude.{◌≡◌, length, map, Some, IfOk, IsSome};
ghost use Rattle.std.specs.List.{All};
ghost use Rattle.strategy_model.specs.Control.{IsEarliest};
ghost use Rattle.strategy_model.specs.Situations.{IsSituation};
ghost use Rattle.situation_player.specs.PlayedDays.{IsStartedForward, IsTimed, lastings_of};
ghost use Rattle.situation_player.specs.PlayedDays.{completion, sooner, first_completion};
ghost use Rattle.situation_player.specs.PlayedDays.{completes_at, completing_at, IsNextMoment};

use live_executor::Executor;
use net_model::{Link, Network, PointId};
use std::alloc::{AllocError, Global};
use strategy_model::{Schedule, Situation};

/// A link in a situation: its contingent point completes the duration after its activation point.
#[derive(Clone, Copy)]
struct Lasting {
    from: PointId,
    to: PointId,
    duration: u64,
}

/// The earliest schedule of a situation: a strategy that controls the network plays it, and no such
/// strategy plays any point sooner there. The executor was started with the network on the
/// dispatchable network of a forward closed table, the whole or a slim one, and nothing was fed to
/// it. The network has no delay. `AllocError` comes only if memory is refused. There is a feed for each
/// moment at which a point is executed or a link completes, and before each the links are gone over
/// twice: that no clause says.
pub fn play_out(
    alloc: Global,
    executor: &mut Executor,
    net: &Network,
    situation: &Situation,
) -> Result<Schedule, AllocError>
    requires started { IsStartedForward net.now executor.old }
    requires situation { IsSituation net.now situation.now.items }
    ensures earliest { IfOk result
        (λ schedule. IsEarliest net.now situation.now.items schedule.items) }
    ensures complete { IfOk result (λ schedule. length schedule.items ≡ length net.now.points) }
{
    let lastings = lastings_of(alloc, net.links(), situation.as_slice())?;
    while let Some(moment) = next_moment(executor, lastings.as_slice()) {
        let completing = completing_at(alloc, executor, lastings.as_slice(), moment)?;
        executor.feed(moment, completing.as_slice());
    }
    executor.finish();
    moments_of(alloc, executor, net.points().len() as u32)
}

/// The links in a situation.
fn lastings_of(alloc: Global, links: &[Link], durations: &[u64]) -> Result<Vec<Lasting>, AllocError>
    ensures { IfOk result (λ lastings. lastings.items ≡ lastings_of links.now durations.now) }
{
    links
        .iter()
        .zip(durations)
        .map(|(link, duration)| Lasting {
            from: link.from,
            to: link.to,
            duration: *duration,
        })
        .collect(alloc)
}

/// The next moment at which a point is executed or a link completes, or `None` if there is none.
fn next_moment(executor: &Executor, lastings: &[Lasting]) -> Option<u64>
    requires { All (IsTimed (length executor.now.setting.dispatch) executor.now.moments)
        lastings.now }
    ensures { IsNextMoment executor.now lastings.now result }
{
    sooner(executor.next_due(), first_completion(executor, lastings))
}

/// The first moment at which an active link completes.
fn first_completion(executor: &Executor, lastings: &[Lasting]) -> Option<u64>
    requires { All (IsTimed (length executor.now.setting.dispatch) executor.now.moments)
        lastings.now }
    ensures { result ≡ first_completion executor.now.moments lastings.now }
{
    let mut first = None;
    for lasting in lastings {
        first = sooner(first, completion(executor, lasting));
    }
    first
}

/// The points that complete at a moment.
fn completing_at(
    alloc: Global,
    executor: &Executor,
    lastings: &[Lasting],
    moment: u64,
) -> Result<Vec<PointId>, AllocError>
    requires { All (IsTimed (length executor.now.setting.dispatch) executor.now.moments)
        lastings.now }
    ensures { IfOk result (λ points. points.items ≡ completing_at executor.now.moments moment
        lastings.now) }
{
    let mut points = Vec::new(alloc);
    for lasting in lastings {
        if completes_at(executor, lasting, moment) {
            points.push(lasting.to)?;
        }
    }
    Ok(points)
}

/// Whether an active link completes at a moment.
fn completes_at(executor: &Executor, lasting: &Lasting, moment: u64) -> bool
    requires { IsTimed (length executor.now.setting.dispatch) executor.now.moments lasting.now }
    ensures { result ≡ completes_at executor.now.moments moment lasting.now }
{
    match completion(executor, lasting) {
        Some(completed) => completed == moment,
        None => false,
    }
}

/// When a link completes, if it is active: its activation point has come, and its contingent point
/// hasn't.
fn completion(executor: &Executor, lasting: &Lasting) -> Option<u64>
    requires { IsTimed (length executor.now.setting.dispatch) executor.now.moments lasting.now }
    ensures { result ≡ completion executor.now.moments lasting.now }
{
    match executor.moment_of(lasting.to) {
        Some(_) => None,
        None => match executor.moment_of(lasting.from) {
            Some(activated) => Some(activated + lasting.duration),
            None => None,
        },
    }
}

/// The sooner of two moments, if there is one.
fn sooner(first: Option<u64>, second: Option<u64>) -> Option<u64>
    ensures { result ≡ sooner first second }
{
    match (first, second) {
        (Some(first), Some(second)) => Some(first.min(second)),
        (Some(first), None) => Some(first),
        (None, second) => second,
    }
}

/// The moments of the points, all of which have come.
fn moments_of(alloc: Global, executor: &Executor, points: u32) -> Result<Schedule, AllocError>
    requires points { points ≡ length executor.now.setting.dispatch }
    requires moments { length executor.now.moments ≡ length executor.now.setting.dispatch }
    requires come { All IsSome executor.now.moments }
    ensures { IfOk result (λ schedule. map Some schedule.items ≡ executor.now.moments) }
{
    let mut schedule = Vec::new(alloc);
    for k in 0..points {
        match executor.moment_of(PointId(k)) {
            Some(moment) => schedule.push(moment)?,
            None => unreachable!(),
        }
    }
    Ok(schedule)
}
