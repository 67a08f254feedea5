//! Laws of commands side by side, each the contract of a function without parameters.

ghost use Rattle.std.specs.Prelude.{◌≡◌, ◌∷◌, ℕ, List};
ghost use Rattle.command_engine.specs.Single.{IsSingle};
ghost use Rattle.multiplexed_commands.specs.Starts.{AnsweredAlone};
ghost use Rattle.multiplexed_commands.specs.Merged.{Around, Member, merged_machine};
ghost use Rattle.multiplexed_commands.specs.NamedLines.{after_first, named, of_name, IsNaming};
ghost use Rattle.texts.specs.Words.{words};
ghost use Rattle.multiplexed_commands.specs.Projection.{Projects, SaysWholeLines};
ghost use Rattle.multiplexed_commands.specs.Runs.{HasFixedLines, RunAlone};

use command_engine::Command;

/// Lines that were put after a name are those that begin with it.
pub fn law_named_lines_are_of_the_name()
    ensures { (name text : List ℕ) → IsNaming name
        → of_name name (named name text) ≡ named name text }
{}

/// Of what many put for their lines, what begins with the name of one is what it says alone to its
/// own lines. Each of these lines stands after its name, and the command stands as it does alone.
pub fn law_each_is_alone<C: Command>()
    ensures { SaysWholeLines C.machine → (around : Around) (spare_capacity : List (Member C) → ℕ)
        → Projects C.machine around spare_capacity }
{}

/// Of what many put for their lines, what begins with the name of one is what a run of its command
/// puts for its own lines alone, as a whole input with lines numbered from 1, until that run ends;
/// from then on it is idle, and says so. The lines of the command have at most 65,536 bytes.
pub fn law_each_runs_alone<C: Command>()
    ensures { HasFixedLines C.machine → SaysWholeLines C.machine
        → (around : Around) (spare_capacity : List (Member C) → ℕ)
        → RunAlone C.machine around spare_capacity }
{}

/// Many have at most one answer to each line if their command has.
pub fn law_many_are_single<C: Command>()
    ensures { IsSingle C.machine → (around : Around) (spare_capacity : List (Member C) → ℕ)
        → IsSingle (merged_machine C.machine around spare_capacity) }
{}

/// Of all that many put, what begins with the name of one is what is put of it at the beginning,
/// and then what it says alone. So what is put of one is a function of its own beginning and its
/// own lines, whatever stands between them.
pub fn law_many_are_alone<C: Command>()
    ensures { HasFixedLines C.machine → SaysWholeLines C.machine
        → (around : Around) (spare_capacity : List (Member C) → ℕ)
        → AnsweredAlone C.machine around spare_capacity }
{}

/// What stands after the first word of a line has its other words.
pub fn law_other_words_stand_after_the_first()
    ensures { (line first : List ℕ) (others : List (List ℕ)) → words line ≡ first ∷ others
        → words (after_first line) ≡ others }
{}
