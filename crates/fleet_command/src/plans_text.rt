//! The plans of a fleet in its text.

ghost use Rattle.std.specs.Prelude.{◌≡◌, ◌≤◌, length};
ghost use Rattle.text_sequence.specs.Series.{initial_series};
ghost use Rattle.plan_fleet.specs.Limits.{most_plans};
ghost use Rattle.fleet_command.specs.FleetText.{initial_fleet, fleet_reader, plans_reader};

use crate::header::FleetHeader;
use crate::plan_or_refusal::{PlanOrRefusal, PlanOrRefusalText};
use crate::plan_separators::PlanSeparators;
use command_engine::{Parse, Stop, Text, Then};
use common_answers::Fault;
use net_model::Name;
use std::alloc::{AllocError, Global};
use std::marker::Model;
use text_sequence::{Done, Series};

/// At most 64 plans, each under its name. Contracts see them as their list.
#[derive(Drop)]
pub struct Plans {
    done: Done<(Name, PlanOrRefusal)>,
}

impl Model for Plans {
    ghost use Rattle.std.specs.Prelude.{◌≤◌, length};
    ghost use Rattle.plan_fleet.specs.Limits.{most_plans};
    ghost use Rattle.fleet_command.specs.FleetText.{Plans};

    ghost Value = { Plans };

    ghost view = { λ plans. plans.done };

    ghost invariant = { λ plans. length plans.done ≤ most_plans };
}

impl Plans {
    /// The plans, in their order.
    pub(crate) fn into_vec(self) -> Vec<(Name, PlanOrRefusal)>
        ensures plans { result.items ≡ self }
        ensures few { length self ≤ most_plans }
    {
        let Plans { done } = self;
        done.into_vec()
    }
}

/// The plans of a fleet, each after a line `plan NAME`, up to the line `go`, and how far they were
/// read. Contracts see it as a series of texts; it has at most 64.
#[derive(Drop)]
pub struct PlansText {
    series: Series<PlanSeparators, Name, PlanOrRefusal, PlanOrRefusalText>,
}

impl Model for PlansText {
    ghost use Rattle.fleet_command.specs.FleetText.{PlansSoFar, AreFew};

    ghost Value = { PlansSoFar };

    ghost view = { λ text. text.series };

    ghost invariant = { λ text. AreFew text.series };
}

impl PlansText {
    /// Before the first line.
    pub fn new(alloc: Global) -> PlansText
        ensures { result ≡ initial_series (record {}) }
    {
        PlansText {
            series: Series::Between(PlanSeparators, Done::new(alloc)),
        }
    }
}

impl Text for PlansText {
    type Value = Plans;

    type Fault = Fault;

    ghost reader = { plans_reader };

    fn longest(&self) -> u32 {
        self.series.longest()
    }

    fn read_line(
        self,
        alloc: Global,
        number: u32,
        line: &[u8],
    ) -> Result<Parse<PlansText, Plans, Fault>, AllocError> {
        match self.series.read_line(alloc, number, line)? {
            Parse::Continue(series) => Ok(Parse::Continue(PlansText { series })),
            Parse::Parsed(done) => Ok(Parse::Parsed(Plans { done })),
            Parse::Refused(fault) => Ok(Parse::Refused(fault)),
        }
    }

    fn stop(&self, number: u32, stop: Stop) -> Fault {
        self.series.stop(number, stop)
    }
}

/// The text of a fleet, and how far it was read: its header, and then its plans.
pub type FleetText = Then<FleetHeader, (), PlansText>;

/// The text of a fleet before its first line.
pub(crate) fn initial(alloc: Global) -> FleetText
    ensures { result ≡ initial_fleet }
{
    Then::First(FleetHeader, PlansText::new(alloc))
}
