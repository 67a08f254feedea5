//! Laws about the command `strong`, each the contract of a function without parameters.

ghost use Rattle.std.specs.Prelude.{◌≡◌, ◌↔◌, ℕ, List, Some};
ghost use Rattle.command_contracts.specs.Requests.{requested_by};
ghost use Rattle.strong_command.specs.StrongAnswers.{SayStrong, strong_request, strong_syntax};
ghost use Rattle.strong_command.specs.StrongAnswers.{strong_program};
ghost use Rattle.strong_command.specs.declared.strong_question.StrongQuestion.{StrongQuestion};
ghost use Rattle.command_contracts.specs.Programs.{EachDefinesOne, RunsEndByCause};
ghost use Rattle.command_contracts.specs.WorkerCounts.{WorkersDecideNothing};

use crate::strong_question::StrongQuestion;
use command_contracts::{OneRun, Request, Specified};

/// The words after `strong` are its own exactly if they spell its uses. The plan is a document
/// exactly if `--json` is given.
pub fn law_strong_is_read_exactly()
    ensures { (words : List (List ℕ)) (query : StrongQuestion)
        → requested_by strong_syntax strong_request words ≡ Some query ↔ SayStrong query words }
{}

/// Whatever the words ask of `strong`, an input has one run at most, each run ends by the causes in
/// its input, and the number of workers decides nothing of the request.
pub fn law_strong_is_lawful()
    ensures one { EachDefinesOne strong_program }
    ensures causes { (query : StrongQuestion) → RunsEndByCause (strong_program query) }
    ensures workers { WorkersDecideNothing strong_syntax strong_request }
{
    StrongQuestion::defines_one();
    StrongQuestion::keeps_its_promise();
    StrongQuestion::ends_by_its_causes();
    StrongQuestion::workers_decide_nothing();
}
