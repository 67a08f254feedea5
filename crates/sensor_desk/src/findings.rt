//! What was found so far of the links of open points.

ghost use Rattle.std.specs.Prelude.{◌≡◌, ◌<◌, ◌+◌, ◌++◌, length, Some, take};
ghost use Rattle.sensor_desk.specs.Follower.{late_after, listed_after};

use net_model::PointId;

/// What was found so far of the links of open points: the first point whose link stands at a moment
/// that has passed, and how many links stand at the moment.
#[derive(Clone, Copy)]
pub(crate) struct Findings {
    pub(crate) late: Option<(PointId, u64)>,
    pub(crate) count: usize,
}

/// Adds what was found of the link of a point.
pub(crate) fn take_in(
    before: Findings,
    room: &mut [PointId],
    point: PointId,
    found: Option<u64>,
    moment: u64,
) -> Findings
    requires room { found ≡ Some moment → before.count < length room.old }
    ensures late { result.late ≡ late_after moment before.late point found }
    ensures listed { take result.count room.new ≡ take before.count room.old ++ listed_after moment
        point found }
    ensures count { result.count ≡ before.count + length (listed_after moment point found) }
    ensures length { length room.new ≡ length room.old }
{
    let Findings { late, count } = before;
    match found {
        Some(posted) if posted == moment => {
            room[count] = point;
            Findings {
                late,
                count: count + 1,
            }
        }
        Some(posted) if posted < moment => Findings {
            late: late.or(Some((point, posted))),
            count,
        },
        _ => before,
    }
}
