//! Laws about the words of `session`, each the contract of a function without parameters.

ghost use Rattle.std.specs.Prelude.{◌≡◌, ◌↔◌, ℕ, List, Some};
ghost use Rattle.command_contracts.specs.PlanWords.{SayFormAndWorkers};
ghost use Rattle.command_contracts.specs.Requests.{requested_by};
ghost use Rattle.session_command.specs.Sessions.{session_request, session_syntax};
ghost use Rattle.input_texts.specs.declared.plan_input.PlanForm.{PlanForm};
ghost use Rattle.command_contracts.specs.Programs.{EachDefinesOne, RunsEndByCause};
ghost use Rattle.command_contracts.specs.WorkerCounts.{WorkersDecideNothing};
ghost use Rattle.session_command.specs.SessionPromise.{session_program};

use crate::session::SessionCommand;
use command_contracts::{FormAndWorkers, OneRun, Request, Specified};

/// The words after `session` are its own exactly if they spell its uses, and the number of workers,
/// if it is given, is one from 1 to 64, and the delay, if it is given, one of at most 1000000. The
/// plan is a document exactly if `--json` is given, and its delay is its own if none is given.
pub fn law_session_is_read_exactly()
    ensures { (words : List (List ℕ)) (form : PlanForm)
        → requested_by session_syntax session_request words ≡ Some form ↔ SayFormAndWorkers
        session_syntax form words }
{}

/// Whatever the words ask of `session`, an input has one run at most, each run ends by the causes
/// in its input, and the number of workers decides nothing of the request.
pub fn law_session_is_lawful()
    ensures one { EachDefinesOne session_program }
    ensures causes { (query : PlanForm) → RunsEndByCause (session_program query) }
    ensures workers { WorkersDecideNothing session_syntax session_request }
{
    SessionCommand::defines_one();
    SessionCommand::keeps_its_promise();
    SessionCommand::ends_by_its_causes();
    FormAndWorkers::workers_decide_nothing();
}
