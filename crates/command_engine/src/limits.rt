//! The sizes that every command keeps.

ghost use Rattle.std.specs.Prelude.{◌≡◌};
ghost use Rattle.command_engine.specs.Limits.{most_input, least_capacity};

/// How many bytes an input may have, line ends included.
pub const MOST_INPUT: u64 = 1_073_741_824;

/// How many bytes the buffer of an answer always has place for: no line that refuses an input is
/// longer.
pub const LEAST_CAPACITY: usize = 256;

/// The limits of the code are those of the definitions.
pub fn law_limits_are_defined()
    ensures input { MOST_INPUT ≡ most_input }
    ensures spare_capacity { LEAST_CAPACITY ≡ least_capacity }
{}
