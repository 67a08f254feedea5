//! The greatest sizes of what comes over a port.

ghost use Rattle.std.specs.Prelude.{◌≡◌};
ghost use Rattle.texts.specs.Limits.{most_line};
ghost use Rattle.plan_port.specs.Limits.{most_read};

use texts::MOST_LINE;

/// The greatest number of bytes that a reader may allow its input.
pub const MOST_READ: u64 = 2_147_483_647;

/// The limits of the code are those of the definitions.
pub fn law_limits_are_defined()
    ensures line { MOST_LINE ≡ most_line }
    ensures read { MOST_READ ≡ most_read }
{}
