//! The delay that is requested for a plan: its network gets it where the text of the plan ends.

ghost use Rattle.input_texts.specs.PlanInput.{delay_tests};

use crate::plan_network::PlanNetwork;
use command_engine::Test;
use common_answers::Fault;
use net_model::MOST_DELAY;
use std::alloc::{AllocError, Global};

/// The delay that is requested for a plan.
#[derive(Clone, Copy, Debug, PartialEq, Eq)]
pub enum Delay {
    /// The plan's own.
    Own,
    /// So many moments, whatever the plan says, of which 1,000,000 count at most.
    Moments(u32),
}

/// As a test of the network of a plan it refuses none, and gives it the requested delay.
impl Test<PlanNetwork, Fault> for Delay {
    type Value = PlanNetwork;

    ghost tests = { delay_tests };

    fn test(
        &self,
        _alloc: Global,
        value: PlanNetwork,
        _number: u32,
    ) -> Result<Result<PlanNetwork, Fault>, AllocError> {
        match *self {
            Delay::Own => Ok(Ok(value)),
            Delay::Moments(moments) => Ok(Ok(value.with_delay(moments.min(MOST_DELAY)))),
        }
    }
}
