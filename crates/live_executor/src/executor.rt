//! The executor, which is fed with completions moment by moment.

ghost use Rattle.std.specs.Prelude.{◌≡◌, ◌+◌, ◌<◌, ◌≤◌, Ok, Err, Some, None, length, IfOk, OnOk};
ghost use Rattle.std.specs.Prelude.{OnErr};
ghost use Rattle.std.specs.List.{All};
ghost use Rattle.std.specs.Option.{option_map_or};
ghost use Rattle.execution_model.specs.Earliest.{FeedsEarliest, EndsEarliest};
ghost use Rattle.net_model.specs.Moments.{moment_of};
ghost use Rattle.execution_model.specs.Feeds.{started, next_moment, IsFed, IsFinished, IsDueAnswer};
ghost use Rattle.execution_model.specs.Feeds.{refusal_of_moment, first_open, IsWhole};
ghost use Rattle.live_executor.specs.Kept.{IsTaken};
ghost use Rattle.live_executor.specs.Sound.{IsDispatchOf};

use crate::dispatched_network::Dispatched;
use crate::execution_state::ExecutionState;
use dispatch_net::Dispatch;
use execution_model::laws::{law_feeds_are_earliest, law_finishes_are_earliest};
use execution_model::{Act, Fed, Finished, MOST_MOMENT, Why};
use net_model::{Network, PointId};
use std::alloc::{AllocError, Global};
use std::marker::Model;

/// An execution of a dispatchable network, fed with completions moment by moment. Contracts see it
/// as an execution: by what the network is executed, the moments so far, the last moment fed, the
/// last acts, and why a feed was refused.
#[derive(Drop)]
pub struct Executor {
    dispatched: Dispatched,
    state: ExecutionState,
    acts: Vec<Act>,
    last: Option<u64>,
    refused: Option<Why>,
}

impl Model for Executor {
    ghost use Rattle.execution_model.specs.Feeds.{Execution};
    ghost use Rattle.std.specs.Vec.{vec_capacity};
    ghost use Rattle.live_executor.specs.Kept.{IsKeptExecution};
    ghost use Rattle.live_executor.specs.Sound.{made_setting};

    ghost Value = { Execution };

    ghost view = { λ kept. record {
      setting = made_setting kept.dispatched;
      moments = kept.state.moments;
      last = kept.last;
      acts = kept.acts.items;
      refused = kept.refused;
    } };

    ghost invariant = { λ kept. IsKeptExecution kept.dispatched kept.state kept.acts.items
        (vec_capacity kept.acts) kept.last kept.refused };
}

impl Executor {
    /// Starts an execution of a network on a dispatchable network of it. No point has come, and
    /// nothing was fed. All memory that an execution needs is taken here. `AllocError` comes only
    /// if memory is refused.
    pub fn start(alloc: Global, net: &Network, dispatch: Dispatch) -> Result<Executor, AllocError>
        requires { IsDispatchOf net.now dispatch }
        ensures { IfOk result (λ executor. executor ≡ started
            (record { links = net.now.links; dispatch = dispatch.made })) }
    {
        let dispatched = Dispatched::new(alloc, net, dispatch)?;
        let state = ExecutionState::initial(alloc, &dispatched)?;
        let acts = Vec::with_capacity(alloc, dispatched.points() as usize)?;
        Ok(Executor {
            dispatched,
            state,
            acts,
            last: None,
            refused: None,
        })
    }

    /// The acts of the last feed that was answered `Acts`, or of the end, by moment and then by
    /// number of the point: no more than there are points.
    pub fn acts(&self) -> &[Act]
        ensures value { result.now ≡ self.now.acts }
        ensures few { length self.now.acts ≤ length self.now.moments }
        ensures count { length self.now.moments ≡ length self.now.setting.dispatch }
    {
        self.acts.as_slice()
    }

    /// The moment at which a point was executed or has completed, or `None` if it has not.
    pub fn moment_of(&self, point: PointId) -> Option<u64>
        requires { point.0 < length self.now.setting.dispatch }
        ensures { result ≡ moment_of self.now.moments point }
    {
        self.state.moment_of(point)
    }

    /// The first moment after the last one fed, or from 0 on, at which a point will be executed if
    /// nothing completes before; `None` if there is none, and after a refusal.
    pub fn next_due(&self) -> Option<u64>
        ensures { IsDueAnswer self.now result }
    {
        match self.refused {
            Some(_) => None,
            None => {
                self.dispatched.executes_the_same();
                self.state.next_due()
            }
        }
    }

    /// Feeds a moment, in whole moments from 0, with the points that complete at it. Time runs to
    /// the moment before, then the completions are taken, then the acts of the moment are made.
    /// `Refused` comes, with the first cause, for `NotLater`, then `MomentLimit`, then for each
    /// listed point in order `NotContingent`, `Twice`, `NotActive`, `TooSoon` or `Overdue`, then
    /// `Overdue` for the lowest point that should have completed; no act is made then, the moments
    /// and `acts` stay as they were, and each later `feed` and `finish` answers `Ended` with that
    /// cause.
    ///
    /// If it was started on the dispatchable network of the closure, and each feed so far was
    /// taken, a feed within the limit is taken exactly if the stream with it is faithful: if it
    /// fits some situation. Then the moments and the acts are those of the earliest schedule of
    /// every situation that the stream fits, and of the points that have come no strategy that
    /// controls the network plays any sooner there.
    pub fn feed(&mut self, moment: u64, completions: &[PointId]) -> Fed
        requires { All (λ point. point.0 < length self.old.setting.dispatch) completions.now }
        ensures fed { IsFed self.old moment completions.now result self.new }
        // It is taken exactly if the stream stays faithful, and then no strategy that controls the
        // network is ahead.
        ensures earliest { FeedsEarliest self.old moment completions.now result self.new }
    {
        law_feeds_are_earliest();
        self.feed_or_refuse(moment, completions)
    }

    /// Ends the execution, if each contingent point has completed: makes all acts that are left.
    /// Else it answers `Unfinished` with the lowest contingent point that has not, and nothing
    /// changes; after a refusal it answers `Ended` with its cause.
    ///
    /// If it was started on the dispatchable network of the closure, and each feed was taken, the
    /// end is complete exactly if the stream, said to be done, is faithful. Then the moments are
    /// the whole earliest schedule of every situation that the stream fits, and the acts all that
    /// remained of it.
    pub fn finish(&mut self) -> Finished
        ensures finished { IsFinished self.old result self.new }
        // It is complete exactly if the stream may be done, and then no strategy that controls the
        // network is ahead.
        ensures earliest { EndsEarliest self.old result self.new }
    {
        law_finishes_are_earliest();
        self.finish_or_refuse()
    }

    /// A feed.
    fn feed_or_refuse(&mut self, moment: u64, completions: &[PointId]) -> Fed
        requires { All (λ point. point.0 < length self.old.setting.dispatch) completions.now }
        ensures { IsFed self.old moment completions.now result self.new }
    {
        if let Some(why) = self.refused {
            return Fed::Ended(why);
        }
        match self.take(moment, completions) {
            Ok(()) => Fed::Acts,
            Err(why) => Fed::Refused(why),
        }
    }

    /// The end.
    fn finish_or_refuse(&mut self) -> Finished
        ensures { IsFinished self.old result self.new }
    {
        if let Some(why) = self.refused {
            return Finished::Ended(why);
        }
        if let Some(point) = self.state.first_open(&self.dispatched) {
            return Finished::Unfinished(point);
        }
        self.run_out();
        Finished::Complete
    }

    /// Makes all acts that are left, if no contingent point is open.
    fn run_out(&mut self)
        requires going { self.old.refused ≡ None }
        requires closed { first_open self.old ≡ None }
        ensures { IsWhole self.old self.new }
    {
        let from = self.next_moment();
        self.state.run_out(&self.dispatched, from);
        self.last = self.state.last_act(self.last);
        self.state.swap_acts(&mut self.acts);
    }

    /// Takes a feed, or keeps why it is refused.
    fn take(&mut self, moment: u64, completions: &[PointId]) -> Result<(), Why>
        requires going { self.old.refused ≡ None }
        requires listed { All (λ point. point.0 < length self.old.setting.dispatch)
            completions.now }
        ensures { IsTaken self.old moment completions.now result self.new }
    {
        if let Some(why) = self.refusal_of_moment(moment) {
            self.refused = Some(why);
            return Err(why);
        }
        let from = self.next_moment();
        let tried = self
            .state
            .try_feed(&self.dispatched, from, moment, completions);
        match tried {
            Ok(()) => {
                self.state.swap_acts(&mut self.acts);
                self.last = Some(moment);
            }
            Err(why) => self.refused = Some(why),
        }
        tried
    }

    /// Why a moment can't be fed, whatever completes.
    fn refusal_of_moment(&self, moment: u64) -> Option<Why>
        ensures { result ≡ refusal_of_moment self.now moment }
    {
        if let Some(last) = self.last {
            if moment <= last {
                return Some(Why::NotLater(last));
            }
        }
        if MOST_MOMENT < moment {
            return Some(Why::MomentLimit);
        }
        None
    }

    /// The first moment that has not passed.
    fn next_moment(&self) -> u64
        ensures { result ≡ next_moment self.now }
    {
        match self.last {
            Some(last) => last + 1,
            None => 0,
        }
    }
}
