//! Days that are played out, with their situations.

ghost use Rattle.std.specs.Prelude.{◌≡◌, IfOk};
ghost use Rattle.strategy_model.specs.Situations.{IsSituation};
ghost use Rattle.dispatch_net.specs.OfClosure.{IsDispatchOfClosure};
ghost use Rattle.situation_player.specs.PlayedDays.{IsStartedForward};

use dispatch_net::Dispatch;
use example_plans::network;
use live_executor::Executor;
use net_model::Network;
use parallel_rounds::NoGate;
use plan_session::{Session, Verdict};
use situation_player::{longest, play_out, shortest, situation};
use std::alloc::Global;
use std::process::Abort;
use std::test::Fail;
use std::thread::Threads;
use strategy_model::Situation;

/// Plans, each with its days: the shortest, the longest or that of a number, the durations of the
/// links, and the moments of the points.
const DAYS: [(&str, &str); 4] = [
    (
        "point A1|point C1|point A2|point C2|bound b1 C1 C2 2|link A1 1 3 C1|link A2 2 6 C2",
        "shortest: 1 2 = 2 3 0 2
longest: 3 6 = 3 6 0 6
0: 1 2 = 2 3 0 2
14: 3 6 = 3 6 0 6
15: 1 2 = 2 3 0 2",
    ),
    (
        "point start|point leave1|point arrive1|point leave2|point arrive2|point meet|point leave3|point arrive3|bound a1 leave1 start 0|bound a2 start leave1 60|bound b1 leave2 arrive1 -10|bound b2 arrive1 leave2 30|bound c1 meet start -120|bound c2 start meet 150|bound c3 meet arrive2 0|bound d1 leave3 arrive2 -15|bound d2 arrive2 leave3 120|bound d3 leave3 meet -30|bound z start arrive3 240|link leave1 20 40 arrive1|link leave2 30 50 arrive2|link leave3 25 45 arrive3",
        "shortest: 20 30 25 = 0 0 20 30 60 120 150 175
longest: 40 50 45 = 0 0 40 50 100 120 150 195
22: 21 31 25 = 0 0 21 31 62 120 150 175",
    ),
    (
        "point A|point C|point D|bound b1 D C 4|link A 3 8 C",
        "3: 6 = 0 6 4
0: 3 = 0 3 3
18446744073709551615: 6 = 0 6 4",
    ),
    ("", "shortest: =\nlongest: =\n7: ="),
];

#[test]
fn days_are_played_out(rt: HostRuntime) -> Result<(), Fail> {
    for (plan, days) in DAYS {
        try_days(&rt, rt.alloc(), plan, days)?;
    }
    Ok(())
}

fn try_days(
    rt: &(impl Abort + Threads + Sync),
    alloc: Global,
    plan: &str,
    days: &str,
) -> Result<(), Fail> {
    for expected in days.lines() {
        let which = expected.split(':').next().unwrap_or("");
        try_day(rt, alloc, plan, which, expected)?;
    }
    Ok(())
}

fn try_day(
    rt: &(impl Abort + Threads + Sync),
    alloc: Global,
    plan: &str,
    which: &str,
    expected: &str,
) -> Result<(), Fail> {
    let mut day = String::new(alloc);
    push_day(rt, alloc, plan, which, &mut day)?;
    assert_eq!(rt; day.as_str(), expected, "{plan}");
    Ok(())
}

/// A day of a plan: which it is, the durations of its links, and the moments of its points.
fn push_day(
    rt: &(impl Threads + Sync),
    alloc: Global,
    plan: &str,
    which: &str,
    text: &mut String,
) -> Result<(), Fail> {
    let net = network(alloc, plan)?;
    let session = Session::open(rt, alloc, net, 1, &NoGate)?;
    push_day_of(alloc, &session, which, text)
}

fn push_day_of(
    alloc: Global,
    session: &Session,
    which: &str,
    text: &mut String,
) -> Result<(), Fail> {
    let Verdict::Controllable = session.verdict() else {
        return Err(Fail::from("not controllable"));
    };
    let dispatch = session.dispatch(alloc)?;
    push_played(alloc, session.shown(), dispatch, which, text)
}

/// A day of a network without a delay, played out on its dispatchable network.
fn push_played(
    alloc: Global,
    net: &Network,
    dispatch: Dispatch,
    which: &str,
    text: &mut String,
) -> Result<(), Fail>
    requires of { IsDispatchOfClosure net.now dispatch }
    requires no_delay { net.now.delay ≡ 0 }
{
    let mut executor = start(alloc, net, dispatch)?;
    push_execution(alloc, net, &mut executor, which, text)
}

fn push_execution(
    alloc: Global,
    net: &Network,
    executor: &mut Executor,
    which: &str,
    text: &mut String,
) -> Result<(), Fail>
    requires { IsStartedForward net.now executor.old }
{
    let situation = situation_of(alloc, net, which)?;
    write!(text, "{which}:")?;
    push_numbers(text, situation.as_slice())?;
    text.push_str(" =")?;
    push_schedule(alloc, net, executor, &situation, text)
}

fn push_schedule(
    alloc: Global,
    net: &Network,
    executor: &mut Executor,
    situation: &Situation,
    text: &mut String,
) -> Result<(), Fail>
    requires started { IsStartedForward net.now executor.old }
    requires situation { IsSituation net.now situation.now.items }
{
    let schedule = play_out(alloc, executor, net, situation)?;
    push_numbers(text, schedule.as_slice())
}

/// The execution of a network without a delay on what no others imply of the dispatchable network
/// of its closure.
fn start(alloc: Global, net: &Network, dispatch: Dispatch) -> Result<Executor, Fail>
    requires of { IsDispatchOfClosure net.now dispatch }
    requires no_delay { net.now.delay ≡ 0 }
    ensures { IfOk result (IsStartedForward net.now) }
{
    net.sound();
    Ok(Executor::start(alloc, net, dispatch.slim())?)
}

/// The shortest situation, the longest, or that of a number.
fn situation_of(alloc: Global, net: &Network, which: &str) -> Result<Situation, Fail>
    ensures { IfOk result (λ situation. IsSituation net.now situation.items) }
{
    match which {
        "shortest" => Ok(shortest(alloc, net)?),
        "longest" => Ok(longest(alloc, net)?),
        number => Ok(situation(alloc, number.parse()?, net)?),
    }
}

fn push_numbers(text: &mut String, numbers: &[u64]) -> Result<(), Fail> {
    for number in numbers {
        write!(text, " {number}")?;
    }
    Ok(())
}
