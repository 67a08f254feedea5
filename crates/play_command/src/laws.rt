//! Laws about the commands `play` and `forge`, each the contract of a function without parameters.

ghost use Rattle.std.specs.Prelude.{◌≡◌, ◌↔◌, ℕ, List, Some};
ghost use Rattle.play_command.specs.ForgeCommand.{forge_request, forge_syntax, forge_program};
ghost use Rattle.play_command.specs.PlayCommand.{play_request, play_syntax};
ghost use Rattle.command_contracts.specs.Requests.{requested_by};
ghost use Rattle.play_command.specs.Words.{SayForge, SayPlay};
ghost use Rattle.play_command.specs.declared.forged_network.ForgeWords.{ForgeWords};
ghost use Rattle.play_command.specs.declared.plan_day.PlayWords.{PlayWords};
ghost use Rattle.command_contracts.specs.Programs.{EachDefinesOne, RunsEndByCause};
ghost use Rattle.command_contracts.specs.WorkerCounts.{WorkersDecideNothing};
ghost use Rattle.play_command.specs.PlayPromise.{play_program};

use crate::forged_network::Forge;
use crate::plan_day::Play;
use command_contracts::{NoInput, OneRun, Request, Specified};

/// The words after `play` are its own exactly if they spell its uses, and the operand names a
/// situation: `longest`, `shortest`, or a number of at most 18446744073709551615; and the number of
/// workers, if it is given, is one from 1 to 64, and the delay, if it is given, one of at most
/// 1000000. The plan is a document exactly if `--json` is given, and its delay is its own if none
/// is given.
pub fn law_play_is_read_exactly()
    ensures { (words : List (List ℕ)) (said : PlayWords)
        → requested_by play_syntax play_request words ≡ Some said ↔ SayPlay play_syntax said words }
{}

/// The words after `forge` are its own exactly if they spell its uses, and the operands are a
/// number of at most 2147483647 and a count of tasks from 1 to 333; and the number of workers, if
/// it is given, is one from 1 to 64.
pub fn law_forge_is_read_exactly()
    ensures { (words : List (List ℕ)) (said : ForgeWords)
        → requested_by forge_syntax forge_request words ≡ Some said ↔ SayForge forge_syntax said
        words }
{}

/// Whatever the words ask of `play`, an input has one run at most, each run ends by the causes in
/// its input, and the number of workers decides nothing of the request.
pub fn law_play_is_lawful()
    ensures one { EachDefinesOne play_program }
    ensures causes { (query : PlayWords) → RunsEndByCause (play_program query) }
    ensures workers { WorkersDecideNothing play_syntax play_request }
{
    Play::defines_one();
    Play::keeps_its_promise();
    Play::ends_by_its_causes();
    Play::workers_decide_nothing();
}

/// Whatever the words ask of `forge`, it defines one answer at most, and the number of workers
/// decides nothing of the request. It reads no input, so that no run has a cause in one.
pub fn law_forge_is_lawful()
    ensures one { EachDefinesOne forge_program }
    ensures workers { WorkersDecideNothing forge_syntax forge_request }
    ensures causes { (query : ForgeWords) → RunsEndByCause (forge_program query) }
{
    Forge::prints_one();
    Forge::workers_decide_nothing();
}
