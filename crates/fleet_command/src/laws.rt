//! Laws about the command `fleet`, each the contract of a function without parameters.

ghost use Rattle.std.specs.Prelude.{◌≡◌, ◌↔◌, ℕ, List, Some, []};
ghost use Rattle.command_contracts.specs.Requests.{requested_by};
ghost use Rattle.fleet_command.specs.FleetCommand.{fleet_request, fleet_syntax};
ghost use Rattle.fleet_command.specs.declared.fleet_question.FleetQuestion.{FleetQuestion};
ghost use Rattle.command_contracts.specs.Programs.{EachDefinesOne, RunsEndByCause};
ghost use Rattle.command_contracts.specs.WorkerCounts.{WorkersDecideNothing};
ghost use Rattle.fleet_command.specs.FleetPromise.{fleet_program};

use crate::fleet_question::FleetQuestion;
use command_contracts::{OneRun, Request, Specified};

/// The words after `fleet` are its own exactly if there are none.
pub fn law_fleet_is_read_exactly()
    ensures { (words : List (List ℕ)) (query : FleetQuestion)
        → requested_by fleet_syntax fleet_request words ≡ Some query ↔ words ≡ [] }
{}

/// Whatever the words ask of `fleet`, an input has one run at most, each run ends by the causes in
/// its input, and the number of workers decides nothing of the request.
pub fn law_fleet_is_lawful()
    ensures one { EachDefinesOne fleet_program }
    ensures causes { (query : FleetQuestion) → RunsEndByCause (fleet_program query) }
    ensures workers { WorkersDecideNothing fleet_syntax fleet_request }
{
    FleetQuestion::defines_one();
    FleetQuestion::keeps_its_promise();
    FleetQuestion::ends_by_its_causes();
    FleetQuestion::workers_decide_nothing();
}
