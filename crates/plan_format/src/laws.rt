//! A law about plan texts, the contract of a function without parameters.

ghost use Rattle.plan_format.specs.PlanNetwork.{GiveOneReading};

/// The lines of a text declare one network at most, and then they have no first fault and no
/// refused part; they have one first fault, and one first refused part, at most.
pub fn law_lines_give_one_reading()
    ensures { GiveOneReading }
{}
