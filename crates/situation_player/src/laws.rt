//! Laws about situations, each the contract of a function without parameters.

ghost use Rattle.std.specs.Prelude.{◌≡◌};
ghost use Rattle.situation_player.specs.ForgedParts.{most_tasks};
ghost use Rattle.situation_player.specs.Laws.{SituationsHaveNumbers, NumbersAreSituations};

use crate::parts::MOST_TASKS;

/// Every situation of a network is that of some number.
pub fn law_situations_have_numbers()
    ensures { SituationsHaveNumbers }
{}

/// The situation of every number is one of the network.
pub fn law_numbers_are_situations()
    ensures { NumbersAreSituations }
{}

/// The greatest number of tasks of the code is that of the definitions.
pub fn law_most_tasks_are_defined()
    ensures { MOST_TASKS ≡ most_tasks }
{}
