//! Laws about the command `show`, each the contract of a function without parameters.

ghost use Rattle.std.specs.Prelude.{◌≡◌, ◌↔◌, ℕ, List, Some};
ghost use Rattle.command_contracts.specs.Requests.{requested_by};
ghost use Rattle.show_command.specs.ShowAnswers.{show_request, show_syntax, show_program};
ghost use Rattle.show_command.specs.Words.{SayForms};
ghost use Rattle.show_command.specs.declared.show_question.Show.{Show};
ghost use Rattle.command_contracts.specs.Programs.{EachDefinesOne, RunsEndByCause};
ghost use Rattle.command_contracts.specs.WorkerCounts.{WorkersDecideNothing};

use crate::show_question::Show;
use command_contracts::{OneRun, Request, Specified};

/// The words after `show` are its own exactly if they spell its uses. The plan, with its own delay,
/// is read as a document exactly if `--json` is given, and put as one exactly if `--print-json` is.
pub fn law_show_is_read_exactly()
    ensures { (words : List (List ℕ)) (show : Show)
        → requested_by show_syntax show_request words ≡ Some show ↔ SayForms show_syntax show
        words }
{}

/// Whatever the words ask of `show`, an input has one run at most, each run ends by the causes in
/// its input, and the number of workers decides nothing of the request.
pub fn law_show_is_lawful()
    ensures one { EachDefinesOne show_program }
    ensures causes { (query : Show) → RunsEndByCause (show_program query) }
    ensures workers { WorkersDecideNothing show_syntax show_request }
{
    Show::defines_one();
    Show::keeps_its_promise();
    Show::ends_by_its_causes();
    Show::workers_decide_nothing();
}
