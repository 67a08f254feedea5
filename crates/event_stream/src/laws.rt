//! A law about lines of events, the contract of a function without parameters.

ghost use Rattle.std.specs.Prelude.{ℕ, List};
ghost use Rattle.net_model.specs.Network.{Plan};
ghost use Rattle.event_stream.specs.Laws.{OneReading};

/// The words of a line state one event with its completions, or have one first fault, and not both.
pub fn law_lines_have_one_reading()
    ensures { (net : Plan) (line : List (List ℕ)) → OneReading net line }
{}
