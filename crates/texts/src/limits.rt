//! The greatest size of a line.

ghost use Rattle.std.specs.Prelude.{◌≡◌};
ghost use Rattle.texts.specs.Limits.{most_line};

/// The greatest number of bytes of a line, without its line end, for which a reader needs no
/// memory, and of a line of events at all.
pub const MOST_LINE: u32 = 65_536;

/// The limit of the code is that of the definitions.
pub fn law_limits_are_defined()
    ensures { MOST_LINE ≡ most_line }
{}
