//! A feed, which is taken back if it is refused.

ghost use Rattle.std.specs.Prelude.{◌≤◌};
ghost use Rattle.live_executor.specs.ExecutionStates.{StandsAt};
ghost use Rattle.live_executor.specs.Kept.{ExecutionGoesOn};
ghost use Rattle.live_executor.specs.FeedParts.{MayBeListed, Settles, Advances, Feeds};

use crate::dispatched_network::Dispatched;
use crate::execution_state::ExecutionState;
use execution_model::Why;
use net_model::PointId;

impl ExecutionState {
    /// Takes the completions of a moment, or gives the first refusal; then the lowest point that
    /// should have completed.
    fn settle(
        &mut self,
        dispatched: &Dispatched,
        moment: u64,
        listed: &[PointId],
    ) -> Result<(), Why>
        requires stands { StandsAt dispatched.now moment self.old }
        requires listed { MayBeListed dispatched.now moment listed.now }
        ensures { Settles dispatched.now moment listed.now result self.old self.new }
    {
        self.complete(dispatched, moment, listed)?;
        match self.first_overdue(dispatched, moment) {
            Some(why) => Err(why),
            None => Ok(()),
        }
    }

    /// Tries a feed: lets time run to the moment before, takes the completions of the moment, and
    /// makes its acts; or gives the first refusal, and the moments are what they were.
    pub(crate) fn try_feed(
        &mut self,
        dispatched: &Dispatched,
        from: u64,
        moment: u64,
        listed: &[PointId],
    ) -> Result<(), Why>
        requires goes_on { ExecutionGoesOn dispatched.now from self.old }
        requires listed { MayBeListed dispatched.now moment listed.now }
        requires range { from ≤ moment }
        ensures { Feeds dispatched.now from moment listed.now result self.old self.new }
    {
        if let Err(why) = self.advance(dispatched, from, moment, listed) {
            self.take_back();
            return Err(why);
        }
        Ok(())
    }

    /// Tries a feed as `try_feed` does, but takes nothing back.
    fn advance(
        &mut self,
        dispatched: &Dispatched,
        from: u64,
        moment: u64,
        listed: &[PointId],
    ) -> Result<(), Why>
        requires stands { StandsAt dispatched.now from self.old }
        requires listed { MayBeListed dispatched.now moment listed.now }
        requires range { from ≤ moment }
        ensures { Advances dispatched.now from moment listed.now result self.old self.new }
    {
        self.begin();
        self.run(dispatched, from, moment);
        self.settle(dispatched, moment, listed)?;
        self.act(dispatched, moment);
        Ok(())
    }
}
