//! A table whose weights only fall.

ghost use Rattle.std.specs.Prelude.{◌≡◌, ◌<◌, ◌≤◌, length, true, IfSome};
ghost use Rattle.closure_model.specs.Derivable.{IsDerivable, IsDerivableFor};
ghost use Rattle.closure_model.specs.Keys.{shape_of, IsLabelAt};
ghost use Rattle.network_closure.specs.Progress.{Progress, ProgressGoesOn};

use net_model::{Edge, LinkId, Network, PointId, Weight};

/// A table of derivable edges of a network whose weights only fall. `DepthFirst` relaxes it. Others
/// may lower it between two calls, so that a key has less than it had before.
pub trait Relaxable: Drop {
    /// What never changes of it, beside its network.
    type Place;

    /// Whether others may lower it at the same time. If none does, what follows with a negative
    /// edge before an edge is found without queueing it: it follows with the two edges one after
    /// another, too.
    const IS_SHARED: bool;

    /// Its network, what else never changes of it, and how far its weights can still be lowered.
    ghost progress: { Self → Progress Self.Place };

    /// Its network.
    fn net(&self) -> &Network
        ensures { result.now ≡ (progress self.now).net };

    /// The weight that it has at this step for the key of a source, a target and a label, or
    /// without one, if it has one.
    fn weight(&mut self, from: PointId, to: PointId, label: Option<LinkId>) -> Option<Weight>
        requires from_point { from.0 < length (progress self.old).net.points }
        requires to_point { to.0 < length (progress self.old).net.points }
        requires label { IsLabelAt (shape_of (progress self.old).net) to label }
        ensures goes_on { ProgressGoesOn (progress self.old) (progress self.new) }
        ensures derivable { IfSome result (IsDerivableFor (progress self.old).net (record {
          to = to;
          from = from;
          label = label;
        })) };

    /// Lowers it to a derivable edge, unless it has its key at most at its weight, and says whether
    /// the key improved: then less is left.
    fn lower_to(&mut self, edge: &Edge) -> bool
        requires { IsDerivable (progress self.old).net edge.now }
        ensures goes_on { ProgressGoesOn (progress self.old) (progress self.new) }
        ensures improved { result ≡ true → (progress self.new).left < (progress self.old).left };

    /// Whether a key may improve by what follows with an ordinary edge from a point of a range
    /// before an edge.
    fn may_improve(&self, edge: &Edge, from: u32, end: u32) -> bool
        requires edge { IsDerivable (progress self.now).net edge.now }
        requires range { end ≤ length (progress self.now).net.points };
}
