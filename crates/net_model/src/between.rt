//! Two bounds that belong together.

ghost use Rattle.std.specs.Prelude.{◌≡◌, ◌≤◌, ◌∷◌, [], length, true};
ghost use Rattle.net_model.specs.Between.{between_parts};
ghost use Rattle.net_model.specs.Limits.{within_limit};
ghost use Rattle.net_model.specs.Names.{most_short};

use crate::ids::Weight;
use crate::name::Name;
use crate::part::Part;

/// The greatest number of bytes of the name under which two bounds are declared that belong
/// together.
pub const MOST_SHORT: usize = 28;

/// The two bounds of `low <= to - from <= high`, in whole moments: `NAME.max`, that `to - from` is
/// at most `high`, and `NAME.min`, that `from - to` is at most `-low`. The name has at most
/// `MOST_SHORT` bytes. It takes no memory.
pub fn between_parts(name: &Name, from: Name, low: Weight, high: Weight, to: Name) -> (Part, Part)
    requires short { length name.now ≤ most_short }
    requires within { within_limit low ≡ true }
    ensures { result.0 ∷ result.1 ∷ [] ≡ between_parts name.now from low high to }
{
    name.sound();
    (
        Part::Bound(name.with_end(b".max"), from, to, high),
        Part::Bound(name.with_end(b".min"), to, from, -low),
    )
}
