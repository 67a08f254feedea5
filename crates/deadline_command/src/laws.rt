//! Laws about the command `deadline`, each the contract of a function without parameters.

ghost use Rattle.std.specs.Prelude.{◌≡◌, ◌↔◌, ℕ, List, Some};
ghost use Rattle.command_contracts.specs.Requests.{requested_by};
ghost use Rattle.deadline_command.specs.DeadlineAnswers.{deadline_request, deadline_syntax};
ghost use Rattle.deadline_command.specs.Words.{SayDeadline};
ghost use Rattle.deadline_command.specs.declared.points.DeadlineWords.{DeadlineWords};
ghost use Rattle.command_contracts.specs.Programs.{EachDefinesOne, RunsEndByCause};
ghost use Rattle.command_contracts.specs.WorkerCounts.{WorkersDecideNothing};
ghost use Rattle.deadline_command.specs.DeadlinePromise.{deadline_program};

use crate::deadline_question::DeadlineQuestion;
use command_contracts::{OneRun, Request, Specified};

/// The words after `deadline` are its own exactly if they spell its uses, its two operands are
/// names, and the number of workers, if it is given, is one from 1 to 64. The plan is a document
/// exactly if `--json` is given.
pub fn law_deadline_is_read_exactly()
    ensures { (words : List (List ℕ)) (said : DeadlineWords)
        → requested_by deadline_syntax deadline_request words ≡ Some said ↔ SayDeadline
        deadline_syntax said words }
{}

/// Whatever the words ask of `deadline`, an input has one run at most, each run ends by the causes
/// in its input, and the number of workers decides nothing of the request.
pub fn law_deadline_is_lawful()
    ensures one { EachDefinesOne deadline_program }
    ensures causes { (query : DeadlineWords) → RunsEndByCause (deadline_program query) }
    ensures workers { WorkersDecideNothing deadline_syntax deadline_request }
{
    DeadlineQuestion::defines_one();
    DeadlineQuestion::keeps_its_promise();
    DeadlineQuestion::ends_by_its_causes();
    DeadlineQuestion::workers_decide_nothing();
}
