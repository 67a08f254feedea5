//! Steps at a desk, one after another: posts, reads, and an executor that follows.

ghost use Rattle.std.specs.Prelude.{◌≡◌, ◌<◌, length, IfOk, OnOk};
ghost use Rattle.sensor_desk.specs.Desks.{IsSeatOfDesk};
ghost use Rattle.sensor_desk.specs.Follower.{IsExecutionFor};

use crate::answer_words::{
    AnswerWords, push_answer_words, words_of_closing, words_of_finished, words_of_followed,
};
use crate::executors::start;
use example_plans::network;
use live_executor::Executor;
use net_model::{LinkId, Network, PointId};
use sensor_desk::{Desk, DeskSeat, Posted};
use std::alloc::Global;
use std::process::Abort;
use std::str::SplitWhitespace;
use std::test::Fail;
use std::thread::Threads;

/// The latest moment that may be posted.
const MOST_POSTED: u64 = 9_223_372_036_854_775_807;

/// The plan of two links, whose points are A1, C1, A2 and C2.
const TWO: &str =
    "point A1|point C1|point A2|point C2|bound b1 C1 C2 2|link A1 1 3 C1|link A2 2 6 C2";

/// A plan of one link, whose points are A, C and D.
const ONE: &str = "point A|point C|point D|bound b1 D C 4|link A 3 8 C";

/// Plans, each with steps at its desk, the answer to each, and the end of the desk. A step is a
/// post of a moment for a link, a read of a link, a moment at which an executor follows, or its
/// end. Links and points stand by their numbers.
const DAYS: [(&str, &str, &str); 9] = [
    (
        TWO,
        "post 0 3 = first
post 0 5 = before 3
read 0 = posted 3
read 1 = none
follow 4 = late 1 3
read 0 = posted 3",
        "differs 0",
    ),
    (
        TWO,
        "follow 0 = acts
post 1 2 = first
follow 2 = acts
post 0 3 = first
post 1 9 = before 2
finish = unfinished 1
follow 3 = acts
finish = complete",
        "agreed",
    ),
    (
        TWO,
        "follow 0 = acts
post 1 2 = first",
        "differs 1",
    ),
    (
        TWO,
        "post 1 0 = first
post 0 9223372036854775807 = first
read 1 = posted 0
read 0 = posted 9223372036854775807
follow 0 = refused
follow 0 = ended",
        "differs 0",
    ),
    (ONE, "", "agreed"),
    (
        ONE,
        "follow 0 = acts
post 0 5 = first
follow 4 = acts
follow 5 = acts
finish = complete",
        "agreed",
    ),
    (
        ONE,
        "follow 0 = acts
post 0 2 = first
follow 3 = late 1 2
follow 2 = refused
finish = ended",
        "differs 0",
    ),
    (
        ONE,
        "follow 0 = acts
follow 9 = refused
follow 10 = ended",
        "agreed",
    ),
    ("", "follow 0 = acts\nfinish = complete", "agreed"),
];

#[test]
fn steps_are_answered(rt: HostRuntime) -> Result<(), Fail> {
    for (plan, steps, closing) in DAYS {
        try_day(&rt, rt.alloc(), plan, steps, closing)?;
    }
    Ok(())
}

fn try_day<R: Abort + Threads + Sync>(
    rt: &R,
    alloc: Global,
    plan: &str,
    steps: &str,
    closing: &str,
) -> Result<(), Fail> {
    let net = network(alloc, plan)?.shown(alloc)?;
    let executor = start(rt, alloc, &net)?;
    let mut said = String::new(alloc);
    let closed = said_at(alloc, &net, executor, steps, &mut said)?;
    assert_eq!(rt; said.as_str(), steps, "{plan}");
    assert_eq!(rt; closed.as_str(), closing, "{plan} {steps}");
    Ok(())
}

/// The steps, each with its answer, and what the end of the desk comes to.
fn said_at(
    alloc: Global,
    net: &Network,
    mut executor: Executor,
    steps: &str,
    said: &mut String,
) -> Result<String, Fail>
    requires { IsExecutionFor net.now executor }
{
    let (desk, mut seat) = Desk::new(alloc, net, 1)?;
    take_steps(alloc, &desk, &mut seat, net, &mut executor, steps, said)?;
    let closed = words_of_closing(desk.close(seat, net, &executor));
    let mut text = String::new(alloc);
    push_answer_words(alloc, &mut text, closed)?;
    Ok(text)
}

fn take_steps(
    alloc: Global,
    desk: &Desk,
    seat: &mut DeskSeat,
    net: &Network,
    executor: &mut Executor,
    steps: &str,
    said: &mut String,
) -> Result<(), Fail>
    requires net { desk.now.about.net.value ≡ net.now }
    requires seat { IsSeatOfDesk desk.now seat.old }
    requires executor { IsExecutionFor net.now executor.old }
    ensures seat { OnOk result (IsSeatOfDesk desk.now seat.new) }
    ensures executor { OnOk result (IsExecutionFor net.now executor.new) }
{
    let mut room = vec![in alloc; PointId(0); net.links().len()]?;
    for line in steps.lines() {
        if !said.is_empty() {
            said.push_str("\n")?;
        }
        let step = line.split(" = ").next().unwrap_or("");
        said.push_str(step)?;
        said.push_str(" = ")?;
        let reported = take_step(desk, seat, net, executor, room.as_mut_slice(), step)?;
        push_answer_words(alloc, said, reported)?;
    }
    Ok(())
}

/// Takes a step, and gives its answer.
fn take_step(
    desk: &Desk,
    seat: &mut DeskSeat,
    net: &Network,
    executor: &mut Executor,
    room: &mut [PointId],
    step: &str,
) -> Result<AnswerWords, Fail>
    requires net { desk.now.about.net.value ≡ net.now }
    requires seat { IsSeatOfDesk desk.now seat.old }
    requires executor { IsExecutionFor net.now executor.old }
    requires room { length room.old ≡ length net.now.links }
    ensures seat { IsSeatOfDesk desk.now seat.new }
    ensures executor { IsExecutionFor net.now executor.new }
    ensures room { length room.new ≡ length room.old }
{
    let mut words = step.split_whitespace();
    match words.next() {
        Some("post") => post(desk, seat, net, &mut words),
        Some("read") => read(desk, seat, net, &mut words),
        Some("follow") => {
            let moment = number_in(&mut words)?;
            Ok(words_of_followed(desk.follow(seat, net, executor, moment, room)))
        }
        Some("finish") => Ok(words_of_finished(executor.finish())),
        _ => Err(Fail::from("no step")),
    }
}

fn post(
    desk: &Desk,
    seat: &mut DeskSeat,
    net: &Network,
    words: &mut SplitWhitespace,
) -> Result<AnswerWords, Fail>
    requires net { desk.now.about.net.value ≡ net.now }
    requires seat { IsSeatOfDesk desk.now seat.old }
    ensures { IsSeatOfDesk desk.now seat.new }
{
    let link = link_in(net, words)?;
    let moment = number_in(words)?;
    if moment > MOST_POSTED {
        return Err(Fail::from("no moment"));
    }
    match desk.post(seat, link, moment) {
        Posted::First => Ok(AnswerWords::word("first")),
        Posted::Before(moment) => Ok(AnswerWords::at("before", moment)),
    }
}

fn read(
    desk: &Desk,
    seat: &mut DeskSeat,
    net: &Network,
    words: &mut SplitWhitespace,
) -> Result<AnswerWords, Fail>
    requires net { desk.now.about.net.value ≡ net.now }
    requires seat { IsSeatOfDesk desk.now seat.old }
    ensures { IsSeatOfDesk desk.now seat.new }
{
    let link = link_in(net, words)?;
    match desk.read(seat, link) {
        None => Ok(AnswerWords::word("none")),
        Some(moment) => Ok(AnswerWords::at("posted", moment)),
    }
}

/// A number among the words of a step.
fn number_in(words: &mut SplitWhitespace) -> Result<u64, Fail> {
    Ok(words.next().unwrap_or("").parse()?)
}

/// A link of a network among the words of a step, by its number.
fn link_in(net: &Network, words: &mut SplitWhitespace) -> Result<LinkId, Fail>
    ensures { IfOk result (λ link. link.0 < length net.now.links) }
{
    let number: u32 = words.next().unwrap_or("").parse()?;
    if number as usize >= net.links().len() {
        return Err(Fail::from("no link"));
    }
    Ok(LinkId(number))
}
