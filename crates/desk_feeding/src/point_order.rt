//! Points in the order of their numbers.

ghost use Rattle.std.specs.Prelude.{◌≡◌, length};
ghost use Rattle.std.specs.Vec.{vec_capacity};
ghost use Rattle.desk_feeding.specs.Ordered.{IsInOrder};

use net_model::PointId;

/// Puts points into the order of their numbers, in place.
pub(crate) fn put_in_order(points: &mut Vec<PointId>)
    ensures order { IsInOrder points.old.items points.new.items }
    ensures count { length points.new.items ≡ length points.old.items }
    ensures spare_capacity { vec_capacity points.new ≡ vec_capacity points.old }
{
    points.sort_unstable_by_key(|point| point.0);
}

/// The first of two lists if it may be used and equals the second, else the second.
pub(crate) fn first_where_same<'a>(
    one: &'a [PointId],
    other: &'a [PointId],
    may: bool,
) -> &'a [PointId]
    ensures { result.now ≡ other.now }
{
    if may && one == other { one } else { other }
}
