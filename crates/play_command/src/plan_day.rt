//! The command `play`: a plan, and then a day of it, as it is played in one situation.

ghost use Rattle.std.specs.Prelude.{◌≡◌, ◌++◌, IfOk, OnOk};
ghost use Rattle.std.specs.List.{flat_map};
ghost use Rattle.net_model.specs.Network.{IsPoint};
ghost use Rattle.net_model.specs.NetworkParts.{point_name};
ghost use Rattle.net_model.specs.ShownForm.{shown_situation};
ghost use Rattle.strategy_model.specs.Control.{IsEarliest};
ghost use Rattle.strategy_model.specs.Plays.{points_of};
ghost use Rattle.strategy_model.specs.Situations.{IsSituation, moment_in};
ghost use Rattle.play_command.specs.PlayPromise.{PlayPromise, PutsPlay};
ghost use Rattle.play_command.specs.PlayCommand.{PutsTimes, happened_in, play_answers};
ghost use Rattle.play_command.specs.PlayCommand.{play_request, play_syntax, time_line};
ghost use Rattle.execution_model.specs.Feeds.{started};
ghost use Rattle.forward_executor.specs.ForwardExecutions.{IsForwardDispatch, IsSlim};
ghost use Rattle.verdicts.specs.Decisions.{IsOrderedForwardTable};
ghost use Rattle.verdicts.specs.Verdict.{IsControllableBy};
ghost use Rattle.play_command.specs.PlayedSituation.{situation_of};

use crate::which_situation::WhichSituation;
use command_contracts::{OneAnswer, PlanQuestion, Request, WorkerCount, form_given};
use command_engine::{Answer, End, Question, Word};
use command_words::{Arguments, Syntax};
use common_answers::put_refuted;
use dispatch_net::Dispatch;
use dispatch_net::laws::law_slim_stays_slim;
use forward_closure::ForwardClosed;
use input_texts::{PlanForm, PlanNetwork};
use live_executor::Executor;
use net_model::{Network, PointId};
use situation_player::play_out;
use std::alloc::{AllocError, Global};
use std::marker::Model;
use std::thread::Threads;
use strategy_model::laws::law_at_most_one_earliest;
use strategy_model::laws::shown::law_earliest_is_shown;
use strategy_model::{Schedule, Situation};
use verdicts::{Verdict, decide, dispatch_by};

/// A day of a plan: the command `play` reads a plan, and puts `controllable` if a strategy controls
/// its network, and then for each point in order a line with its moment in the earliest schedule of
/// the requested situation, which is that at which it happens and not that at which it is shown;
/// else `not controllable` and a certificate which `judge` accepts. It ends with 0 in the first
/// case, and with 1 in the second. What it promises is `PlayPromise`.
#[derive(Drop)]
pub struct Play {
    words: PlayWords,
    workers: WorkerCount,
}

/// What the words of `play` say.
#[derive(Clone, Copy)]
pub struct PlayWords {
    form: PlanForm,
    which: WhichSituation,
}

impl Model for Play {
    ghost use Rattle.play_command.specs.declared.plan_day.PlayWords.{PlayWords};

    ghost Value = { PlayWords };

    ghost view = { λ play. play.words };
}

impl Question<PlanNetwork> for Play {
    ghost answers = { λ play net number. play_answers play net };

    fn answer<R: Threads + Sync>(
        self,
        rt: &R,
        alloc: Global,
        answer: &mut Answer,
        value: PlanNetwork,
        _number: u32,
    ) -> Result<End, AllocError> {
        put_day(rt, alloc, answer, value.into_network(), &self)
    }
}

impl Request for Play {
    ghost syntax = { play_syntax };

    ghost query = { play_request };

    fn words() -> Syntax<'static> {
        Syntax {
            flags: &["json"],
            options: &["workers", "delay"],
            operands: &["WHICH"],
        }
    }

    fn of(arguments: &Arguments<'_>) -> Option<Play> {
        let workers = WorkerCount::of(arguments.option(0))?;
        let form = form_given(arguments.flag(0), arguments.option(1))?;
        let which = WhichSituation::given(arguments.operand(0))?;
        let words = PlayWords { form, which };
        Some(Play { words, workers })
    }

    fn workers_decide_nothing() {}
}

impl PlanQuestion for Play {
    ghost form = { λ words. words.form };

    ghost puts = { λ words net number. PutsPlay words net };

    ghost promised = { PlayPromise };

    fn plan_form(&self) -> PlanForm {
        self.words.form
    }

    fn puts_the_answer() {}

    fn answers_keep_it() {}

    fn ends_by_an_answer() {}
}

impl OneAnswer for Play {
    fn answers_once() {
        law_at_most_one_earliest();
    }
}

/// Puts the verdict of a network, and if it is controllable the requested day, in place of what
/// stood in the buffer.
fn put_day<R: Threads + Sync>(
    rt: &R,
    alloc: Global,
    answer: &mut Answer,
    net: Network,
    play: &Play,
) -> Result<End, AllocError>
    ensures { IfOk result (play_answers play.now net answer.new.text) }
{
    match decide(&play.workers.workers(rt, alloc), net)? {
        Verdict::Controllable {
            stated,
            shown,
            closed,
        } => put_times(alloc, answer, &stated, &shown, &closed, play.words.which),
        Verdict::Refuted(certificate) => put_refuted(alloc, answer, &certificate),
    }
}

/// Puts that a network is controllable, and the moments of its points in a situation, in place of
/// what stood in the buffer, by a forward closed table of its shown form.
fn put_times(
    alloc: Global,
    answer: &mut Answer,
    net: &Network,
    shown: &Network,
    closed: &ForwardClosed,
    which: WhichSituation,
) -> Result<End, AllocError>
    requires verdict { IsControllableBy IsOrderedForwardTable net.now shown.now closed.now }
    ensures { IfOk result (PutsTimes which net.now answer.new.text) }
{
    law_earliest_is_shown();
    net.sound();
    let dispatch = dispatch_by(alloc, shown, closed)?;
    let situation = situation_as_shown(alloc, net, which)?;
    let schedule = played(alloc, shown, dispatch, &situation)?;
    answer.clear();
    answer.push_line(&[Word::Text("controllable")])?;
    push_times(answer, net, schedule.as_slice())?;
    Ok(End::Done)
}

/// A situation of a network, as it is in the shown form. `AllocError` comes only for want of
/// memory.
fn situation_as_shown(
    alloc: Global,
    net: &Network,
    which: WhichSituation,
) -> Result<Situation, AllocError>
    ensures is { IfOk result (λ shown. shown.items ≡ shown_situation net.now
        (situation_of which net.now)) }
    ensures situation { IfOk result (λ shown. IsSituation net.now (situation_of which net.now)) }
{
    net.sound();
    let situation = which.situation(alloc, net)?;
    net.shown_situation(alloc, situation.as_slice())
}

/// The earliest schedule of a situation of a network without a delay, by a dispatchable network of
/// a forward closed table. `AllocError` comes only for want of memory.
pub(crate) fn played(
    alloc: Global,
    net: &Network,
    dispatch: Dispatch,
    situation: &Situation,
) -> Result<Schedule, AllocError>
    requires dispatch { IsForwardDispatch net.now dispatch }
    requires no_delay { net.now.delay ≡ 0 }
    requires situation { IsSituation net.now situation.now.items }
    ensures { IfOk result (λ schedule. IsEarliest net.now situation.now.items schedule.items) }
{
    net.sound();
    law_slim_stays_slim();
    let mut executor = start_slim(alloc, net, dispatch.slim())?;
    play_out(alloc, &mut executor, net, situation)
}

/// Starts the execution of a network on a slim dispatchable network of a forward closed table of
/// it. `AllocError` comes only for want of memory.
fn start_slim(alloc: Global, net: &Network, dispatch: Dispatch) -> Result<Executor, AllocError>
    requires dispatch { IsForwardDispatch net.now dispatch }
    requires slim { IsSlim dispatch }
    ensures { IfOk result (λ executor. executor ≡ started
        (record { links = net.now.links; dispatch = dispatch.made })) }
{
    Executor::start(alloc, net, dispatch)
}

/// Puts a line for each point of a network, with its moment by a schedule as it is shown.
fn push_times(answer: &mut Answer, net: &Network, shown: &[u64]) -> Result<(), AllocError>
    ensures { OnOk result (answer.new.text ≡ answer.old.text ++ flat_map
        (λ point. time_line net.now point (happened_in net.now shown.now point))
        (points_of net.now)) }
{
    for point in 0..net.points().len() as u32 {
        push_time(answer, net, shown, PointId(point))?;
    }
    Ok(())
}

fn push_time(
    answer: &mut Answer,
    net: &Network,
    shown: &[u64],
    point: PointId,
) -> Result<(), AllocError>
    requires { IsPoint net.now point }
    ensures { OnOk result (answer.new.text ≡ answer.old.text ++ time_line net.now point
        (happened_in net.now shown.now point)) }
{
    answer.push_line(&[
        Word::Text("time"),
        Word::Name(point_name(net, point)),
        Word::Number(happened_in(net, shown, point)),
    ])
}

/// When a point happened, by a schedule as it is shown: a contingent point was shown the delay
/// after that.
fn happened_in(net: &Network, shown: &[u64], point: PointId) -> u64
    requires { IsPoint net.now point }
    ensures { result ≡ happened_in net.now shown.now point }
{
    let moment = moment_in(shown, point);
    if net.is_contingent(point) {
        moment.saturating_sub(net.delay().unsigned_abs())
    } else {
        moment
    }
}

/// The moment of a point in a schedule.
fn moment_in(schedule: &[u64], point: PointId) -> u64
    ensures { result ≡ moment_in schedule.now point }
{
    schedule.get(point.0 as usize).copied().unwrap_or(0)
}

/// The name of a point.
fn point_name(net: &Network, point: PointId) -> &[u8]
    ensures { result.now ≡ point_name net.now.points point }
{
    match net.points().get(point.0 as usize) {
        Some(name) => name.bytes(),
        None => b"",
    }
}
