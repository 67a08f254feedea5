//! Laws about the command `check`, each the contract of a function without parameters.

ghost use Rattle.std.specs.Prelude.{◌≡◌, ◌↔◌, ℕ, List, Some};
ghost use Rattle.check_command.specs.CheckAnswers.{check_request, check_syntax};
ghost use Rattle.check_command.specs.EngineLaw.{ChangesTheLimitAlone, check_of};
ghost use Rattle.command_contracts.specs.Requests.{requested_by};
ghost use Rattle.check_command.specs.Words.{SayCheckFlags};
ghost use Rattle.check_command.specs.declared.check_question.CheckFlags.{CheckFlags};
ghost use Rattle.command_contracts.specs.Programs.{EachDefinesOne, RunsEndByCause};
ghost use Rattle.command_contracts.specs.WorkerCounts.{WorkersDecideNothing};
ghost use Rattle.check_command.specs.CheckPromise.{check_program};

use crate::check_question::Check;
use command_contracts::{OneRun, Request, Specified};

/// The words after `check` are its own exactly if they spell its uses, and the number of workers,
/// if it is given, is one from 1 to 64, and the delay, if it is given, one of at most 1000000. The
/// plan is a document exactly if `--json` is given, its delay is its own if none is given, a proof
/// is wanted exactly if `--proof` is, and the engine is that of cells exactly if `--engine` says
/// `cells`; it may say `rounds` too.
pub fn law_check_is_read_exactly()
    ensures { (words : List (List ℕ)) (flags : CheckFlags)
        → requested_by check_syntax check_request words ≡ Some flags ↔ SayCheckFlags check_syntax
        flags words }
{}

/// The engine changes nothing but the limit of cells: words after `check` with the engine of cells
/// put what they put with the engine of rounds, which is what they put without one; but exactly if
/// the input declares a network with more keys than cells hold, just the line of that limit, with
/// status 4.
pub fn law_engine_changes_the_limit_alone()
    ensures { ChangesTheLimitAlone check_of }
{}

/// Whatever the words ask of `check`, an input has one run at most, each run ends by the causes in
/// its input, and the number of workers decides nothing of the request.
pub fn law_check_is_lawful()
    ensures one { EachDefinesOne check_program }
    ensures causes { (query : CheckFlags) → RunsEndByCause (check_program query) }
    ensures workers { WorkersDecideNothing check_syntax check_request }
{
    Check::defines_one();
    Check::keeps_its_promise();
    Check::ends_by_its_causes();
    Check::workers_decide_nothing();
}
