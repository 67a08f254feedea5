//! The text of a plan in a fleet.

ghost use Rattle.std.specs.Prelude.{◌≡◌, IfOk};
ghost use Rattle.fleet_command.specs.PlanOrRefusals.{kept_tests};

use command_engine::{Test, Tested};
use common_answers::Fault;
use input_texts::{Declarations, PlanNetwork, PlanText};
use net_model::BuildFault;
use std::alloc::{AllocError, Global};

/// What a plan of a fleet declares.
#[derive(Debug, Drop)]
pub enum PlanOrRefusal {
    /// Its parts build this network.
    Network(PlanNetwork),
    /// This is the first part that is refused, with its place, counted from 1.
    Refused(BuildFault),
}

/// As a test of what a plan text declares it refuses nothing: if its parts build no network, the
/// refusal is what the text says.
#[derive(Clone, Copy, Debug, PartialEq, Eq)]
pub struct KeepRefusal;

impl Test<Declarations, Fault> for KeepRefusal {
    type Value = PlanOrRefusal;

    ghost tests = { kept_tests };

    fn test(
        &self,
        alloc: Global,
        value: Declarations,
        _number: u32,
    ) -> Result<Result<PlanOrRefusal, Fault>, AllocError> {
        match value.build(alloc)? {
            Ok(net) => Ok(Ok(PlanOrRefusal::Network(net))),
            Err(Fault::Part(_, why)) => Ok(Ok(PlanOrRefusal::Refused(why))),
            Err(fault) => Ok(Err(fault)),
        }
    }
}

/// A plan text of either version, and how far it was read, of which a refused part is kept.
pub type PlanOrRefusalText = Tested<PlanText, KeepRefusal>;
