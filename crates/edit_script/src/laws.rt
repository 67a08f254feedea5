//! Laws about lines of a session, each the contract of a function without parameters.

ghost use Rattle.std.specs.Prelude.{ℕ, List};
ghost use Rattle.edit_script.specs.Laws.{OneReading, StatedEditsHaveNames};

/// The words of a line state one step, or have one first fault, and not both.
pub fn law_lines_have_one_reading()
    ensures { (line : List (List ℕ)) → OneReading line }
{}

/// The names of an edit that a line states are names.
pub fn law_stated_edits_have_names()
    ensures { StatedEditsHaveNames }
{}
