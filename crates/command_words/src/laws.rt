//! Laws about what words mean, each the contract of a function without parameters.

ghost use Rattle.std.specs.Prelude.{◌≡◌, ◌↔◌, List, [], Some, true};
ghost use Rattle.clap.specs.Words.{fault_of};
ghost use Rattle.command_words.specs.Arguments.{Arguments, Means};
ghost use Rattle.command_words.specs.ClapRules.{app_for};
ghost use Rattle.command_words.specs.ArgumentReading.{arguments_of};
ghost use Rattle.command_words.specs.Syntax.{Syntax, Text, is_sound};

/// Words are read exactly if they spell uses of the command: each flag by its name, each option by
/// its name and its value in either spelling, each operand by its text, in any order, each at most
/// once and the operands all in their order.
pub fn law_arguments_are_those_meant()
    ensures { (command : Syntax) → is_sound command ≡ true
        → (words : List Text) (arguments : Arguments)
        → arguments_of command words ≡ Some arguments ↔ Means command words arguments }
{}

/// `clap` accepts all that is spelled so, by its own contract: if it refuses, memory was wanting.
pub fn law_spelled_words_are_accepted()
    ensures { (command : Syntax) → is_sound command ≡ true
        → (words : List Text) (arguments : Arguments) → Means command words arguments
        → fault_of (app_for command) words ≡ [] }
{}
