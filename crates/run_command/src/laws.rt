//! Laws about the command `run`, each the contract of a function without parameters.

ghost use Rattle.std.specs.Prelude.{◌≡◌, ◌↔◌, ◌++◌, ℕ, List, Some};
ghost use Rattle.command_contracts.specs.Requests.{requested_by};
ghost use Rattle.run_command.specs.RunCommand.{RunForm, run_request, run_syntax};
ghost use Rattle.run_command.specs.NamedDays.{OrdersDecideNothing};
ghost use Rattle.run_command.specs.OrderedTexts.{FeedersPutTheLinesInOrder};
ghost use Rattle.run_command.specs.Words.{SayRun, SpellsFeeders};
ghost use Rattle.command_contracts.specs.Programs.{EachDefinesOne, RunsEndByCause};
ghost use Rattle.command_contracts.specs.WorkerCounts.{WorkersDecideNothing};
ghost use Rattle.run_command.specs.RunPromise.{run_program};

use crate::plan_execution::Run;
use command_contracts::{OneRun, Request, Specified};
use event_stream::laws::law_lines_have_one_reading;

/// The words after `run` are its own exactly if they spell its uses, and the number of workers, if
/// it is given, is one from 1 to 64, the number of feeders, if it is given, one from 1 to 64, and
/// the delay, if it is given, one of at most 1000000. The plan is a document exactly if `--json` is
/// given, its delay is its own if none is given, and there are feeders exactly if `--feeders` is
/// given.
pub fn law_run_is_read_exactly()
    ensures { (words : List (List ℕ)) (query : RunForm)
        → requested_by run_syntax run_request words ≡ Some query ↔ SayRun run_syntax query words }
{}

/// How many feeders there are decides nothing, in either spelling, and wherever it stands: with
/// another number words ask the same of `run`.
pub fn law_feeders_decide_nothing()
    ensures { (prefix spelled others back : List (List ℕ)) (count number : ℕ)
        → SpellsFeeders count spelled → SpellsFeeders number others
        → requested_by run_syntax run_request (prefix ++ (spelled ++ back)) ≡ requested_by
        run_syntax run_request (prefix ++ (others ++ back)) }
{}

/// With feeders, however many, `run` puts for an input what it puts without them for that input
/// with the names of each line of events in the order of the numbers of their points, and ends so.
/// What it promises of the lines as they name their points is `RunPromise` (`named`).
pub fn law_feeders_put_the_lines_in_order()
    ensures { FeedersPutTheLinesInOrder }
{
    law_lines_have_one_reading();
}

/// In which order listings name their points decides nothing of what a stream is: with another
/// order it fits the same situations, by the same schedules, and so it is faithful or not.
pub fn law_orders_decide_nothing()
    ensures { OrdersDecideNothing }
{}

/// Whatever the words ask of `run`, an input has one run at most, each run ends by the causes in
/// its input, and the number of workers decides nothing of the request.
pub fn law_run_is_lawful()
    ensures one { EachDefinesOne run_program }
    ensures causes { (query : RunForm) → RunsEndByCause (run_program query) }
    ensures workers { WorkersDecideNothing run_syntax run_request }
{
    Run::defines_one();
    Run::keeps_its_promise();
    Run::ends_by_its_causes();
    Run::workers_decide_nothing();
}
