//! The greatest sizes of a line of events.

ghost use Rattle.std.specs.Prelude.{◌≡◌};
ghost use Rattle.net_model.specs.Limits.{most_moment};
ghost use Rattle.texts.specs.Limits.{most_line};
ghost use Rattle.event_stream.specs.Limits.{most_completions};

use net_model::MOST_MOMENT;
use texts::MOST_LINE;

/// The number of points for which a reader has capacity: no line of 65,536 bytes names more.
pub const MOST_COMPLETIONS: usize = 32_768;

/// The limits of the code are those of the definitions.
pub fn law_limits_are_defined()
    ensures moment { MOST_MOMENT ≡ most_moment }
    ensures line { MOST_LINE ≡ most_line }
    ensures completions { MOST_COMPLETIONS ≡ most_completions }
{}
