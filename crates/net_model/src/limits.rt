//! The greatest counts and sizes of a network.

ghost use Rattle.std.specs.Prelude.{◌≡◌};
ghost use Rattle.net_model.specs.Limits.{most_points, most_links, most_bounds, most_number};
ghost use Rattle.net_model.specs.Limits.{most_weight, most_moment, most_delay, most_lines};

/// The greatest number of points of a network.
pub const MOST_POINTS: usize = 2_000;

/// The greatest number of links of a network.
pub const MOST_LINKS: usize = 800;

/// The greatest number of bounds of a network.
pub const MOST_BOUNDS: usize = 20_000;

/// The greatest size of a number of a plan, in whole moments.
pub const MOST_NUMBER: u64 = 1_000_000_000;

/// The greatest size of the weight of an edge that is derived, judged or kept in a table, in whole
/// moments.
pub const MOST_WEIGHT: u64 = 1_000_000_000_000;

/// The greatest moment of an event, and of an execution.
pub const MOST_MOMENT: u64 = 4_000_000_000_000;

/// The greatest delay of a network, in whole moments.
pub const MOST_DELAY: u32 = 1_000_000;

/// The greatest number of lines of one text.
pub const MOST_LINES: u32 = 2_147_483_648;

/// The limits of counts in the code are those of the definitions.
pub fn law_counts_are_defined()
    ensures points { MOST_POINTS ≡ most_points }
    ensures links { MOST_LINKS ≡ most_links }
    ensures bounds { MOST_BOUNDS ≡ most_bounds }
    ensures lines { MOST_LINES ≡ most_lines }
{}

/// The limits of numbers in the code are those of the definitions.
pub fn law_limits_are_defined()
    ensures number { MOST_NUMBER ≡ most_number }
    ensures weight { MOST_WEIGHT ≡ most_weight }
    ensures moment { MOST_MOMENT ≡ most_moment }
    ensures delay { MOST_DELAY ≡ most_delay }
{}
