//! Taking back what a refused feed did.

ghost use Rattle.std.specs.Prelude.{◌≡◌, ◌<◌, length};
ghost use Rattle.std.specs.List.{All};
ghost use Rattle.net_model.specs.declared.ids.PointId.{PointId};
ghost use Rattle.net_model.specs.Moments.{Moments};
ghost use Rattle.live_executor.specs.Trace.{HaveComeSince};

use crate::moments::Moments;
use net_model::PointId;

/// Removes the moments of the points that have come since some earlier moments, which are then
/// restored, whatever they were.
pub(crate) fn take_back(moments: &mut Moments, came: &[PointId])
    requires inside { All (λ (point : PointId). point.0 < length moments.old) came.now }
    ensures before { (before : Moments) → HaveComeSince before came.now moments.old
        → moments.new ≡ before }
    ensures count { length moments.new ≡ length moments.old }
{
    for point in came {
        moments.clear(*point);
    }
}
