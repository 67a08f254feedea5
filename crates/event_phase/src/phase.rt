//! The phase in which a network is executed over lines of events, whatever command opens it.

ghost use Rattle.std.specs.Prelude.{◌≡◌, ◌≤◌, length, IfOk, OnOk, IfSome};
ghost use Rattle.std.specs.List.{All};
ghost use Rattle.net_model.specs.Limits.{most_moment};
ghost use Rattle.net_model.specs.Network.{IsPoint};
ghost use Rattle.desk_feeding.specs.Fed.{most_feeders};
ghost use Rattle.execution_model.specs.Feeds.{started, IsDueAnswer};
ghost use Rattle.canonical_closure.specs.CanonicalClosure.{canonical_closure};
ghost use Rattle.execution_model.specs.Laws.{setting_of};
ghost use Rattle.forward_executor.specs.ForwardExecutions.{IsForwardDispatch, IsSlim};
ghost use Rattle.event_stream.specs.EventText.{completed, done, said, HasPoints};
ghost use Rattle.command_engine.specs.declared.machines.Flow.TheVariants.{Finish};
ghost use Rattle.event_phase.specs.EventPhase.{executing_machine, answer_capacity, AnswersEnd};
ghost use Rattle.event_phase.specs.EventPhase.{AnswersEvent, AnswersRead, EndsAmong, FeedsAmong};
ghost use Rattle.event_phase.specs.EventPhase.{FeedsNamed, GoesWith, IsMomentWithin, PutsFed};
ghost use Rattle.event_phase.specs.EventRuns.{AreExecutingParts, HasFeeders, IsDeskOf, event_run_by};
ghost use Rattle.event_phase.specs.EventRuns.{event_run_in};
ghost use Rattle.event_phase.specs.CompletionOrders.{completion_order_where};

use crate::event_answers::{
    MOST_ACT, put_acts, put_complete, put_due, refuse_end, refuse_event, refuse_line,
};
use command_engine::{Answer, Command, End, Flow, LEAST_CAPACITY, Refusal, Stop};
use common_answers::stop_fault;
use desk_feeding::Feeding;
use dispatch_net::Dispatch;
use event_stream::{Event, EventReader};
use execution_model::{Act, Fed, Finished};
use forward_executor::ForwardExecutor;
use net_model::{FormatKind, Network};
use plan_port::MOST_LINE;
use std::alloc::{AllocError, Global};
use std::marker::Model;
use std::thread::Threads;

/// The execution of a network over lines of events, as it stands. As a command it is
/// `executing_machine`; what is promised of it, by whatever command it was begun, is
/// `ExecutionPromise`. It wants no memory: the capacity for the longest answer is reserved when it
/// begins, and so is all that feeding from a desk needs. No feed of it was refused: one that is
/// ends it. What it feeds is stated by the lines alone: of the desk, the feeders and what they read
/// no clause speaks.
#[derive(Drop)]
pub struct Executing {
    parts: ExecutingParts,
}

/// What the execution of a network over lines of events consists of: beside the network its
/// executor, the reader of the lines, and the desk from which it is fed, if there are feeders.
#[derive(Drop)]
struct ExecutingParts {
    net: Network,
    executor: ForwardExecutor,
    events: EventReader,
    feeding: Option<Feeding>,
}

impl Model for Executing {
    ghost use Rattle.event_phase.specs.EventRuns.{AreExecutingParts, EventRun, event_run_in};

    ghost Value = { EventRun };

    ghost view = { λ executing. event_run_in executing.parts };

    ghost invariant = { λ executing. AreExecutingParts executing.parts };
}

impl Executing {
    /// Starts the execution of a network on the slim dispatchable network of a forward closed table
    /// of it: no point has come, and no feed was made. If there is a number of feeders, it is fed
    /// from a desk. `AllocError` comes only if memory is refused.
    pub(crate) fn start(
        alloc: Global,
        net: Network,
        dispatch: Dispatch,
        feeders: Option<u32>,
    ) -> Result<Executing, AllocError>
        requires dispatch { IsForwardDispatch net dispatch }
        requires slim { IsSlim dispatch }
        requires feeders { IfSome feeders (λ count. (1 ≤ count) × (count ≤ most_feeders)) }
        ensures { IfOk result (λ state. state ≡ event_run_by (completion_order_where feeders) net
            (started (setting_of net (canonical_closure net)))) }
    {
        let feeding = feeding_by(alloc, &net, feeders)?;
        let executor = ForwardExecutor::start(alloc, &net, dispatch)?;
        let events = EventReader::new(alloc)?;
        let parts = ExecutingParts {
            net,
            executor,
            events,
            feeding,
        };
        Ok(Executing { parts })
    }

    /// Reserves the capacity that the answers to events need.
    pub(crate) fn reserve(&self, answer: &mut Answer) -> Result<(), AllocError>
        ensures text { answer.new.text ≡ answer.old.text }
        ensures spare_capacity { OnOk result (answer_capacity self.now.net ≤ answer.new.capacity) }
        ensures capacity { answer.old.capacity ≤ answer.new.capacity }
    {
        answer.reserve(MOST_ACT * self.parts.net.points().len() + LEAST_CAPACITY)
    }

    /// The next moment at which a point will be executed if nothing completes before, or `None` if
    /// there is none.
    pub(crate) fn next_due(&self) -> Option<u64>
        ensures { IsDueAnswer self.now.execution result }
    {
        self.parts.executor.next_due()
    }
}

/// The feeding of an execution of a network by so many feeders, or none.
fn feeding_by(
    alloc: Global,
    net: &Network,
    feeders: Option<u32>,
) -> Result<Option<Feeding>, AllocError>
    requires { IfSome feeders (λ count. (1 ≤ count) × (count ≤ most_feeders)) }
    ensures completion_order { IfOk result
        (λ feeding. completion_order_where feeding ≡ completion_order_where feeders) }
    ensures desk { IfOk result (IsDeskOf net.now) }
    ensures feeders { IfOk result (HasFeeders feeders) }
{
    match feeders {
        None => Ok(None),
        Some(count) => Ok(Some(Feeding::new(alloc, net, count)?)),
    }
}

impl Command for Executing {
    ghost machine = { executing_machine };

    fn longest(&self) -> u32 {
        MOST_LINE
    }

    fn take_line<R: Threads + Sync>(
        self,
        rt: &R,
        _alloc: Global,
        answer: &mut Answer,
        number: u32,
        line: &[u8],
    ) -> Result<Flow<Executing>, AllocError> {
        let Executing { mut parts } = self;
        let reported = parts.events.read(line, &parts.net);
        match reported {
            Ok(event) => Ok(answer_event(rt, parts, answer, number, event)),
            Err(kind) => Ok(Flow::Finish(refuse_line(answer, number, kind))),
        }
    }

    fn stop(&self, answer: &mut Answer, number: u32, stop: Stop) -> End {
        let fault = stop_fault(number, stop, FormatKind::NoEnd);
        fault.put(answer);
        fault.end()
    }
}

/// Answers what a line of events states, in place of what stood in the buffer; the reader has the
/// points that it names.
fn answer_event<R: Threads + Sync>(
    rt: &R,
    parts: ExecutingParts,
    answer: &mut Answer,
    number: u32,
    event: Event,
) -> Flow<Executing>
    requires spare_capacity { answer_capacity parts.net ≤ answer.old.capacity }
    requires parts { AreExecutingParts parts }
    requires points { HasPoints parts.net event parts.events }
    requires within { IsMomentWithin (said event parts.events) }
    ensures answers { AnswersRead (event_run_in parts) number
        (said event parts.events) answer.new.text result }
    ensures capacity { answer.old.capacity ≤ answer.new.capacity }
    ensures kept { GoesWith parts.net result }
{
    match event {
        Event::Blank => {
            answer.clear();
            Flow::Continue(Executing { parts })
        }
        Event::At(moment) => feed(rt, parts, answer, number, moment),
        Event::Done => Flow::Finish(finish(parts, answer, number)),
    }
}

/// Feeds the points that the reader has, at a moment, and puts the acts and the next due moment, or
/// why the feed is refused.
fn feed<R: Threads + Sync>(
    rt: &R,
    mut parts: ExecutingParts,
    answer: &mut Answer,
    number: u32,
    moment: u64,
) -> Flow<Executing>
    requires spare_capacity { answer_capacity parts.net ≤ answer.old.capacity }
    requires parts { AreExecutingParts parts }
    requires points { All (IsPoint parts.net) parts.events }
    requires within { moment ≤ most_moment }
    ensures answers { AnswersRead (event_run_in parts) number
        (completed moment parts.events) answer.new.text result }
    ensures capacity { answer.old.capacity ≤ answer.new.capacity }
    ensures kept { GoesWith parts.net result }
{
    let fed = feed_named(rt, &mut parts, moment);
    let due = parts.executor.next_due();
    match put_fed(answer, &parts.net, number, fed, parts.executor.acts(), due) {
        None => Flow::Continue(Executing { parts }),
        Some(end) => Flow::Finish(end),
    }
}

/// Feeds the points that the reader has, at a moment: by a desk, if there are feeders, else as the
/// line names them.
fn feed_named<R: Threads + Sync>(rt: &R, parts: &mut ExecutingParts, moment: u64) -> Fed
    requires parts { AreExecutingParts parts.old }
    requires points { All (IsPoint parts.old.net) parts.old.events }
    requires within { moment ≤ most_moment }
    ensures { FeedsNamed parts.old moment result parts.new }
{
    let ExecutingParts {
        net,
        executor,
        events,
        feeding,
    } = parts;
    let named = events.completions();
    match feeding {
        None => executor.feed(moment, named),
        Some(feeding) => feeding.feed(rt, net, executor, moment, named),
    }
}

/// Ends the execution, and puts the acts that remain, or why it can't end.
fn finish(parts: ExecutingParts, answer: &mut Answer, number: u32) -> End
    requires spare_capacity { answer_capacity parts.net ≤ answer.old.capacity }
    requires parts { AreExecutingParts parts }
    ensures answers { AnswersEvent (event_run_in parts) number done answer.new.text
        (Finish result) }
    ensures capacity { answer.old.capacity ≤ answer.new.capacity }
{
    let ExecutingParts {
        net,
        mut executor,
        ..
    } = parts;
    let finished = executor.finish();
    put_end(answer, &net, number, finished, executor.acts())
}

/// Puts the answer to a feed of an execution in place of what stood in the buffer: its acts and the
/// next due moment after it, or why it is refused, in the line of this number. `None` if the
/// execution continues, else how that ends. It takes no memory.
pub fn put_fed(
    answer: &mut Answer,
    net: &Network,
    number: u32,
    fed: Fed,
    acts: &[Act],
    due: Option<u64>,
) -> Option<End>
    requires spare_capacity { answer_capacity net.now ≤ answer.old.capacity }
    requires points { FeedsAmong net.now fed acts.now }
    ensures answers { PutsFed net.now number fed acts.now due answer.new.text result }
    ensures size { length answer.new.text ≤ answer_capacity net.now }
    ensures capacity { answer.old.capacity ≤ answer.new.capacity }
{
    match fed {
        Fed::Acts => {
            answer.clear();
            put_acts(answer, net, acts);
            put_due(answer, due);
            None
        }
        Fed::Refused(why) | Fed::Ended(why) => Some(refuse_event(answer, net, number, why)),
    }
}

/// Puts the answer to the end of an execution in place of what stood in the buffer: the acts that
/// remained, or why it can't end, in the line of this number; and how that ends. It takes no
/// memory.
pub fn put_end(
    answer: &mut Answer,
    net: &Network,
    number: u32,
    finished: Finished,
    acts: &[Act],
) -> End
    requires spare_capacity { answer_capacity net.now ≤ answer.old.capacity }
    requires points { EndsAmong net.now finished acts.now }
    ensures answers { AnswersEnd net.now number finished acts.now answer.new.text (Finish result) }
    ensures size { length answer.new.text ≤ answer_capacity net.now }
    ensures capacity { answer.old.capacity ≤ answer.new.capacity }
{
    match finished {
        Finished::Complete => {
            answer.clear();
            put_acts(answer, net, acts);
            put_complete(answer);
            End::Done
        }
        Finished::Unfinished(point) => refuse_end(answer, net, number, point),
        Finished::Ended(why) => refuse_event(answer, net, number, why),
    }
}
