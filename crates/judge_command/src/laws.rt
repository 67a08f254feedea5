//! Laws about the command `judge`, each the contract of a function without parameters.

ghost use Rattle.std.specs.Prelude.{◌≡◌, ◌↔◌, ℕ, List, Some};
ghost use Rattle.judge_command.specs.JudgeAnswers.{judge_request, judge_syntax};
ghost use Rattle.command_contracts.specs.Requests.{requested_by};
ghost use Rattle.judge_command.specs.Words.{SayJudge};
ghost use Rattle.judge_command.specs.declared.judge_question.Judge.{Judge};
ghost use Rattle.command_contracts.specs.Programs.{EachDefinesOne, RunsEndByCause};
ghost use Rattle.command_contracts.specs.WorkerCounts.{WorkersDecideNothing};
ghost use Rattle.judge_command.specs.JudgePromise.{judge_program};

use crate::judge_question::Judge;
use command_contracts::{OneRun, Request, Specified};

/// The words after `judge` are its own exactly if they spell its uses, and the delay, if it is
/// given, is a number of at most 1000000, and `--strong` is not given with it. The plan is a
/// document exactly if `--json` is given, its delay is its own if none is given, and the
/// certificate is one about strong schedules exactly if `--strong` is.
pub fn law_judge_is_read_exactly()
    ensures { (words : List (List ℕ)) (judge : Judge)
        → requested_by judge_syntax judge_request words ≡ Some judge ↔ SayJudge judge_syntax judge
        words }
{}

/// Whatever the words ask of `judge`, an input has one run at most, each run ends by the causes in
/// its input, and the number of workers decides nothing of the request.
pub fn law_judge_is_lawful()
    ensures one { EachDefinesOne judge_program }
    ensures causes { (query : Judge) → RunsEndByCause (judge_program query) }
    ensures workers { WorkersDecideNothing judge_syntax judge_request }
{
    Judge::defines_one();
    Judge::keeps_its_promise();
    Judge::ends_by_its_causes();
    Judge::workers_decide_nothing();
}
