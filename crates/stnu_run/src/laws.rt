//! Laws about the program, each the contract of a function without parameters.

ghost use Rattle.std.specs.Prelude.{◌≡◌, ℕ, List, ◌∷◌, ◌++◌, codes};
ghost use Rattle.stnu_run.specs.DefinedRuns.{DefinedRun, program_named, program_of};
ghost use Rattle.command_engine.specs.Single.{IsPrefix};
ghost use Rattle.command_contracts.specs.ExactBytes.{IsPrefixOfDefined};
ghost use Rattle.command_contracts.specs.Programs.{DefineSame, DefineSameWhereTaken, DefinesOne};
ghost use Rattle.command_contracts.specs.Programs.{HasOneReply, RunsEndByCause, PrintsOne};
ghost use Rattle.stnu_run.specs.WordLaws.{AreTaken, SameRuns};
ghost use Rattle.command_contracts.specs.WorkerCounts.{SpellsWorkers};
ghost use Rattle.run_command.specs.Words.{SpellsFeeders};
ghost use Rattle.command_contracts.specs.declared.status.Status.{Status};

use check_command::law_check_is_lawful;
use deadline_command::law_deadline_is_lawful;
use fleet_command::law_fleet_is_lawful;
use judge_command::law_judge_is_lawful;
use play_command::{law_forge_is_lawful, law_play_is_lawful};
use run_command::{law_feeders_decide_nothing, law_run_is_lawful};
use session_command::law_session_is_lawful;
use show_command::law_show_is_lawful;
use strong_command::law_strong_is_lawful;

/// For given words and a given input at most one pair of bytes and status stands in the defined
/// runs. What is a prefix of what is put is a prefix of all that is defined. To each line, and if
/// none comes, each command has at most one reply.
pub fn law_defined_run_is_one()
    ensures one { (words : List (List ℕ)) (input a b : List ℕ) (x y : Status)
        → DefinedRun words input a x → DefinedRun words input b y
        → (a ≡ b) × (x ≡ y) }
    ensures prefixes { (words : List (List ℕ)) (input put all : List ℕ) (status : Status)
        → IsPrefixOfDefined (program_of words) input put → DefinedRun words input all status
        → IsPrefix put all }
    ensures single { (words : List (List ℕ)) → HasOneReply (program_of words) }
{
    law_each_defines_one();
}

/// Whatever the words are, without an input their program defines at most one answer, and each run
/// of its command ends by the causes in its input.
pub(crate) fn law_words_are_lawful()
    ensures prints { (words : List (List ℕ)) → PrintsOne (program_of words) }
    ensures causes { (words : List (List ℕ)) → RunsEndByCause (program_of words) }
{
    law_each_is_lawful();
}

/// The number of workers changes nothing, in either spelling, and wherever it stands after the word
/// of a command: the defined run of words with it is that of the words with another number, and, if
/// words with it are not refused, that of the words without it.
pub fn law_workers_change_nothing()
    ensures other { (program command : List ℕ) (prefix spelled others back : List (List ℕ))
        (count number : ℕ)
        → SpellsWorkers count spelled → SpellsWorkers number others
        → SameRuns (program ∷ command ∷ (prefix ++ (spelled ++ back)))
        (program ∷ command ∷ (prefix ++ (others ++ back))) }
    ensures without { (program command : List ℕ) (prefix spelled back : List (List ℕ)) (count : ℕ)
        → SpellsWorkers count spelled → AreTaken (program ∷ command ∷ (prefix ++ (spelled ++ back)))
        → SameRuns (program ∷ command ∷ (prefix ++ (spelled ++ back)))
        (program ∷ command ∷ (prefix ++ back)) }
{
    law_each_is_lawful();
}

/// The number of feeders of `run` changes nothing, in either spelling, and wherever it stands: the
/// defined run of words with it is that of the words with another number.
pub fn law_feeders_change_nothing()
    ensures { (program : List ℕ) (prefix spelled others back : List (List ℕ)) (count number : ℕ)
        → SpellsFeeders count spelled → SpellsFeeders number others
        → SameRuns (program ∷ codes "run" ∷ (prefix ++ (spelled ++ back)))
        (program ∷ codes "run" ∷ (prefix ++ (others ++ back))) }
{
    law_feeders_decide_nothing();
}

/// Whatever the command is, for an input it defines at most one pair of bytes and status: one line
/// for each command of the program.
fn law_each_defines_one()
    ensures { (command : List ℕ) (words : List (List ℕ))
        → DefinesOne (program_named command words) }
{
    law_judge_is_lawful();
    law_check_is_lawful();
    law_run_is_lawful();
    law_session_is_lawful();
    law_show_is_lawful();
    law_play_is_lawful();
    law_strong_is_lawful();
    law_deadline_is_lawful();
    law_fleet_is_lawful();
    law_forge_is_lawful();
}

/// Whatever the command is, without an input it defines at most one answer, each run ends by the
/// causes in its input, and the number of workers changes nothing: one line for each command of the
/// program.
fn law_each_is_lawful()
    ensures prints { (command : List ℕ) (words : List (List ℕ))
        → PrintsOne (program_named command words) }
    ensures causes { (command : List ℕ) (words : List (List ℕ))
        → RunsEndByCause (program_named command words) }
    ensures other { (command : List ℕ) (prefix spelled others back : List (List ℕ))
        (count number : ℕ)
        → SpellsWorkers count spelled → SpellsWorkers number others
        → DefineSame (program_named command (prefix ++ (spelled ++ back)))
        (program_named command (prefix ++ (others ++ back))) }
    ensures without { (command : List ℕ) (prefix spelled back : List (List ℕ)) (count : ℕ)
        → SpellsWorkers count spelled
        → DefineSameWhereTaken (program_named command (prefix ++ (spelled ++ back)))
        (program_named command (prefix ++ back)) }
{
    law_judge_is_lawful();
    law_check_is_lawful();
    law_run_is_lawful();
    law_session_is_lawful();
    law_show_is_lawful();
    law_play_is_lawful();
    law_strong_is_lawful();
    law_deadline_is_lawful();
    law_fleet_is_lawful();
    law_forge_is_lawful();
}
