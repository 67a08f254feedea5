//! The executor, on slim lists, compared with the slow one on whole lists.

use crate::live::{Live, slow};
use crate::plans::network;
use crate::slow_executor::SlowExecutor;
use execution_model::{Fed, MOST_MOMENT, Why};
use net_model::{Link, Network, PointId};
use std::alloc::Global;
use std::process::Abort;
use std::test::Fail;
use std::thread::Threads;

/// Pseudo-random numbers, the same in each run.
#[derive(Drop)]
pub(crate) struct Draws {
    pub(crate) state: u64,
}

impl Draws {
    /// A number below another, and 0 if that is 0.
    pub(crate) fn draw(&mut self, below: u64) -> u64 {
        self.state = (self.state % 2_147_483_648 * 1_103_515_245 + 12_345) % 2_147_483_648;
        (self.state / 65_536).checked_rem(below).unwrap_or(0)
    }
}

/// When a contingent point completes.
#[derive(Clone, Copy)]
struct Completion {
    moment: u64,
    point: PointId,
}

/// The completions of an execution of a network, in order of moment.
#[derive(Clone, Copy)]
struct Stream<'a> {
    net: &'a Network,
    completions: &'a [Completion],
}

/// What both executors are fed, or their end.
#[derive(Drop)]
struct Feed {
    moment: u64,
    listed: Vec<PointId>,
    ends: bool,
}

/// Up to which moment each contingent point has completed.
const MOMENTS: u64 = 250;

/// Networks, and how many streams are tried on each.
const NETWORKS: [(&str, u32); 9] = [
    ("point A|point B|bound b1 A B 5|bound b2 B A -2", 20),
    (
        "point A|point C|point D|bound e1 C D 0|bound e2 D C 0|link A 3 8 C",
        40,
    ),
    ("point A|point C|point D|bound b1 D C 4|link A 3 8 C", 40),
    (
        "point A|point C|point D|bound b1 D C 1|bound b2 C D -1|link A 5 5 C",
        20,
    ),
    (
        "point A1|point C1|point A2|point C2|bound b1 C1 C2 2|link A1 1 3 C1|link A2 2 6 C2",
        40,
    ),
    (
        "point A|point C|point D|point F|point S|bound e1 C D 0|bound e2 D C 0|link A 3 8 C|link D 2 4 F",
        60,
    ),
    (
        "point A|point C|point E|point B|link A 3 8 C|link B 1 2 E|bound b B A 0",
        40,
    ),
    (
        "point A|point C|point E|point X|point Y|link A 2 5 C|link C 1 3 E|bound b X C 1|bound c Y E 2|bound d Y X -1",
        60,
    ),
    (
        "point start|point leave1|point arrive1|point leave2|point arrive2|point meet|point leave3|point arrive3|bound a1 leave1 start 0|bound a2 start leave1 60|bound b1 leave2 arrive1 -10|bound b2 arrive1 leave2 30|bound c1 meet start -120|bound c2 start meet 150|bound c3 meet arrive2 0|bound d1 leave3 arrive2 -15|bound d2 arrive2 leave3 120|bound d3 leave3 meet -30|bound z start arrive3 240|link leave1 20 40 arrive1|link leave2 30 50 arrive2|link leave3 25 45 arrive3",
        10,
    ),
];

#[test]
fn streams_are_as_slow(rt: HostRuntime) -> Result<(), Fail> {
    let mut draws = Draws { state: 7 };
    for (parts, count) in &NETWORKS {
        try_network(&rt, rt.alloc(), parts, *count, &mut draws)?;
    }
    Ok(())
}

fn try_network(
    rt: &(impl Abort + Threads + Sync),
    alloc: Global,
    parts: &str,
    count: u32,
    draws: &mut Draws,
) -> Result<(), Fail> {
    let net = network(alloc, parts)?;
    for number in 0..count {
        try_stream(rt, alloc, &net, Departures::of(number), draws)?;
    }
    Ok(())
}

/// How streams depart from what the executions of a network are fed.
#[derive(Clone, Copy)]
pub(crate) struct Departures {
    /// How many feeds of a hundred have a fault.
    faults: u64,
    /// Whether the end comes before the last completion.
    cut_short: bool,
}

impl Departures {
    /// The departures of a stream by its number: of four streams one is faithful, and one cut
    /// short.
    pub(crate) fn of(number: u32) -> Departures {
        let faults = match number % 4 {
            1 => 12,
            2 => 40,
            _ => 0,
        };
        Departures {
            faults,
            cut_short: number % 4 == 3,
        }
    }
}

/// One stream with such departures. Gives why it was refused.
pub(crate) fn try_stream(
    rt: &(impl Abort + Threads + Sync),
    alloc: Global,
    net: &Network,
    departures: Departures,
    draws: &mut Draws,
) -> Result<Option<Why>, Fail> {
    let durations = durations(alloc, net, draws)?;
    let completions = completions(rt, alloc, net, durations.as_slice())?;
    let stream = Stream {
        net,
        completions: completions.as_slice(),
    };
    feed_both(rt, alloc, &stream, departures, draws)
}

/// A duration of each link.
fn durations(alloc: Global, net: &Network, draws: &mut Draws) -> Result<Vec<u64>, Fail> {
    let mut durations = Vec::new(alloc);
    for link in net.links() {
        durations.push(duration(link, draws))?;
    }
    Ok(durations)
}

fn duration(link: &Link, draws: &mut Draws) -> u64 {
    let low = link.low.unsigned_abs();
    let spare = link.high.unsigned_abs().saturating_sub(low);
    low.saturating_add(draws.draw(spare.saturating_add(1)))
}

/// The completions of an execution in which the links have these durations, fed moment by moment.
fn completions(
    rt: &(impl Abort + Threads + Sync),
    alloc: Global,
    net: &Network,
    durations: &[u64],
) -> Result<Vec<Completion>, Fail> {
    let mut executor = slow(rt, alloc, net)?;
    completions_by(rt, alloc, net, durations, &mut executor)
}

/// The completions of an execution that an executor at its start makes.
fn completions_by(
    rt: &impl Abort,
    alloc: Global,
    net: &Network,
    durations: &[u64],
    executor: &mut SlowExecutor,
) -> Result<Vec<Completion>, Fail> {
    let mut all = Vec::new(alloc);
    for moment in 0..MOMENTS {
        if all.len() < durations.len() {
            let listed = completed(alloc, net, executor, durations, moment)?;
            feed_listed(rt, alloc, executor, moment, listed.as_slice())?;
            push_completions(&mut all, moment, listed.as_slice())?;
        }
    }
    Ok(all)
}

/// Feeds a moment with the points that complete, which is not refused.
fn feed_listed(
    rt: &impl Abort,
    alloc: Global,
    executor: &mut SlowExecutor,
    moment: u64,
    listed: &[PointId],
) -> Result<(), Fail> {
    let answer = executor.feed(alloc, moment, listed)?;
    assert_eq!(rt; answer, Fed::Acts);
    Ok(())
}

fn push_completions(
    all: &mut Vec<Completion>,
    moment: u64,
    listed: &[PointId],
) -> Result<(), Fail> {
    for point in listed {
        all.push(Completion {
            moment,
            point: *point,
        })?;
    }
    Ok(())
}

/// The points that complete at a moment.
fn completed(
    alloc: Global,
    net: &Network,
    executor: &SlowExecutor,
    durations: &[u64],
    moment: u64,
) -> Result<Vec<PointId>, Fail> {
    let mut listed = Vec::new(alloc);
    for (link, duration) in net.links().iter().zip(durations) {
        let ends = executor
            .moment_of(link.from)
            .and_then(|activated| activated.checked_add(*duration));
        if ends == Some(moment) {
            listed.push(link.to)?;
        }
    }
    Ok(listed)
}

/// What is wrong with a feed.
#[derive(Clone, Copy, PartialEq)]
enum FeedFault {
    Nothing,
    /// It is left out.
    Skipped,
    /// No point is listed.
    Unlisted,
    /// Another point is listed.
    Another,
    /// The first point is listed again.
    Again,
    /// It comes at an earlier moment.
    Earlier,
    /// It comes after the last moment that there is.
    TooLate,
    /// A point that has not completed is listed.
    Sooner,
    /// The end comes before it.
    Ended,
}

/// A fault of a feed, in so many of a hundred cases.
fn draw_fault(faults: u64, draws: &mut Draws) -> FeedFault {
    if draws.draw(100) >= faults {
        return FeedFault::Nothing;
    }
    match draws.draw(8) {
        0 => FeedFault::Skipped,
        1 => FeedFault::Unlisted,
        2 => FeedFault::Another,
        3 => FeedFault::Again,
        4 => FeedFault::Earlier,
        5 => FeedFault::TooLate,
        6 => FeedFault::Sooner,
        _ => FeedFault::Ended,
    }
}

/// At which moment a feed comes by a fault.
fn moment_by(moment: u64, fault: FeedFault, draws: &mut Draws) -> u64 {
    match fault {
        FeedFault::Earlier => moment.saturating_sub(draws.draw(4)),
        FeedFault::TooLate => MOST_MOMENT.saturating_add(draws.draw(4)).saturating_add(1),
        _ => moment,
    }
}

impl Stream<'_> {
    /// Up to which moment it is fed: some moments after the last completion, or to one before if it
    /// is cut short.
    fn end(&self, cut_short: bool, draws: &mut Draws) -> u64 {
        let whole = match self.completions.last() {
            Some(last) => last.moment.saturating_add(10),
            None => 8,
        };
        if cut_short { draws.draw(whole) } else { whole }
    }

    /// The points that complete at a moment.
    fn listed_at(&self, alloc: Global, moment: u64) -> Result<Vec<PointId>, Fail> {
        let mut listed = Vec::new(alloc);
        for completion in self.completions {
            if completion.moment == moment {
                listed.push(completion.point)?;
            }
        }
        Ok(listed)
    }

    /// A point that completes after a moment.
    fn next_after(&self, moment: u64) -> Option<PointId> {
        for completion in self.completions {
            if moment < completion.moment {
                return Some(completion.point);
            }
        }
        None
    }

    /// A point of the network.
    fn some_point(&self, draws: &mut Draws) -> Option<PointId> {
        let number = draws.draw(self.net.points().len() as u64);
        u32::try_from(number).ok().map(PointId)
    }

    /// The points that are listed at a moment by a fault.
    fn listed(
        &self,
        alloc: Global,
        moment: u64,
        fault: FeedFault,
        draws: &mut Draws,
    ) -> Result<Vec<PointId>, Fail> {
        let mut listed = self.listed_at(alloc, moment)?;
        let added = match fault {
            FeedFault::Unlisted => {
                listed.clear();
                None
            }
            FeedFault::Another => self.some_point(draws),
            FeedFault::Sooner => self.next_after(moment),
            FeedFault::Again => listed.first().copied(),
            _ => None,
        };
        if let Some(point) = added {
            listed.push(point)?;
        }
        Ok(listed)
    }

    /// The feed of a moment, with a fault in so many of a hundred, or none if it is left out, as
    /// most are that list no point.
    fn feed(
        &self,
        alloc: Global,
        moment: u64,
        faults: u64,
        draws: &mut Draws,
    ) -> Result<Option<Feed>, Fail> {
        let fault = draw_fault(faults, draws);
        let listed = self.listed(alloc, moment, fault, draws)?;
        let is_quiet = fault == FeedFault::Nothing && listed.is_empty() && draws.draw(4) > 0;
        if is_quiet || fault == FeedFault::Skipped {
            return Ok(None);
        }
        Ok(Some(Feed {
            moment: moment_by(moment, fault, draws),
            listed,
            ends: fault == FeedFault::Ended,
        }))
    }
}

/// Both executors of a network.
#[derive(Drop)]
struct Both {
    live: Live,
    slow: SlowExecutor,
    refused: Option<Why>,
}

impl Both {
    fn start(rt: &(impl Threads + Sync), alloc: Global, net: &Network) -> Result<Both, Fail> {
        let live = Live::start(rt, alloc, net)?;
        let slow = slow(rt, alloc, net)?;
        Ok(Both {
            live,
            slow,
            refused: None,
        })
    }

    /// Feeds both, and says whether they answer the same.
    fn feed(&mut self, alloc: Global, moment: u64, listed: &[PointId]) -> Result<bool, Fail> {
        let answer = self.live.feed(moment, listed)?;
        let wanted = self.slow.feed(alloc, moment, listed)?;
        if let Fed::Refused(why) = wanted {
            self.refused = Some(why);
        }
        Ok(answer == wanted)
    }

    /// Ends both, and says whether they answer the same.
    fn finish(&mut self, alloc: Global) -> Result<bool, Fail> {
        let answer = self.live.finish();
        let wanted = self.slow.finish(alloc)?;
        Ok(answer == wanted)
    }

    /// Feeds or ends both, and says whether they answer the same and are the same then.
    fn step(&mut self, alloc: Global, net: &Network, feed: &Feed) -> Result<bool, Fail> {
        let same = if feed.ends {
            self.finish(alloc)?
        } else {
            self.feed(alloc, feed.moment, feed.listed.as_slice())?
        };
        Ok(same && self.are_same(alloc, net)?)
    }

    /// Whether the acts, the next due moment and the moments of all points are the same.
    fn are_same(&self, alloc: Global, net: &Network) -> Result<bool, Fail> {
        let due = self.slow.next_due(alloc)?;
        Ok(
            self.live.acts() == self.slow.acts()
                && self.live.next_due() == due
                && self.have_same_moments(net),
        )
    }

    fn have_same_moments(&self, net: &Network) -> bool {
        for number in 0..net.points().len() as u32 {
            if self.live.moment_of(PointId(number)) != self.slow.moment_of(PointId(number)) {
                return false;
            }
        }
        true
    }

    /// Feeds both what the stream has at a moment, if anything, and says whether they do the same.
    fn step_at(
        &mut self,
        alloc: Global,
        stream: &Stream<'_>,
        moment: u64,
        faults: u64,
        draws: &mut Draws,
    ) -> Result<bool, Fail> {
        match stream.feed(alloc, moment, faults, draws)? {
            Some(feed) => self.step(alloc, stream.net, &feed),
            None => Ok(true),
        }
    }

    /// Ends both, and says whether they answer the same and are the same then.
    fn end_alike(&mut self, alloc: Global, net: &Network) -> Result<bool, Fail> {
        Ok(self.finish(alloc)? && self.are_same(alloc, net)?)
    }

    /// Feeds both a stream and ends them, and compares them after each feed and at the end. Gives
    /// why the stream was refused.
    fn follow(
        &mut self,
        rt: &impl Abort,
        alloc: Global,
        stream: &Stream<'_>,
        departures: Departures,
        draws: &mut Draws,
    ) -> Result<Option<Why>, Fail> {
        for moment in 0..stream.end(departures.cut_short, draws) {
            let same = self.step_at(alloc, stream, moment, departures.faults, draws)?;
            assert!(rt; same, "{moment}");
        }
        let same = self.end_alike(alloc, stream.net)?;
        assert!(rt; same);
        Ok(self.refused)
    }
}

/// Feeds both executors a stream, and compares them after each feed. Gives why it was refused.
fn feed_both(
    rt: &(impl Abort + Threads + Sync),
    alloc: Global,
    stream: &Stream<'_>,
    departures: Departures,
    draws: &mut Draws,
) -> Result<Option<Why>, Fail> {
    let mut both = Both::start(rt, alloc, stream.net)?;
    both.follow(rt, alloc, stream, departures, draws)
}
