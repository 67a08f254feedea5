//! Laws about the lines of an input, each the contract of a function without parameters.

ghost use Rattle.std.specs.Prelude.{◌≡◌, ℕ, List, ◌++◌, map};
ghost use Rattle.texts.specs.Lines.{lines, input_lines, whole_lines, unfinished};

/// The lines of a text are the texts of the lines of an input of the same bytes.
pub fn law_lines_are_texts()
    ensures { (bytes : List ℕ) → lines bytes ≡ map (λ line. line.text) (input_lines bytes) }
{}

/// More bytes continue the unfinished line, and change no line whose end had come.
pub fn law_lines_go_on()
    ensures whole { (bytes more : List ℕ)
        → whole_lines (bytes ++ more) ≡ whole_lines bytes ++ whole_lines
        (unfinished bytes ++ more) }
    ensures unfinished { (bytes more : List ℕ)
        → unfinished (bytes ++ more) ≡ unfinished (unfinished bytes ++ more) }
{}
