//! The two points of a plan between which a deadline is asked, by their names.

ghost use Rattle.std.specs.Prelude.{◌≡◌, IfSome};
ghost use Rattle.net_model.specs.Network.{IsPoint};
ghost use Rattle.deadline_command.specs.Points.{goal_number, bounds_limit_fault, point_tests};
ghost use Rattle.deadline_command.specs.Points.{points_by, unknown_point};

use command_engine::Test;
use common_answers::Fault;
use input_texts::{Notation, PlanNetwork};
use net_model::{BuildFault, Name, Network, PointId, Which};
use std::alloc::{AllocError, Global};
use std::marker::Model;

/// What the words of `deadline` say: the notation of the plan, and the names of the two points.
#[derive(Clone, Copy)]
pub struct DeadlineWords {
    pub(crate) notation: Notation,
    pub(crate) from: Name,
    pub(crate) to: Name,
}

impl DeadlineWords {
    ghost use Rattle.std.specs.Prelude.{◌≡◌};

    /// The same words once more.
    pub(crate) fn again(&self) -> DeadlineWords
        ensures { result ≡ self.now }
    {
        DeadlineWords {
            notation: self.notation,
            from: self.from,
            to: self.to,
        }
    }
}

/// A network that an input declares, and two points of it. Contracts see the network and the
/// points.
#[derive(Drop)]
pub struct PlanPoints {
    net: PlanNetwork,
    from: PointId,
    to: PointId,
}

impl Model for PlanPoints {
    ghost use Rattle.net_model.specs.Network.{IsPoint};
    ghost use Rattle.deadline_command.specs.Points.{PlanPoints};

    ghost Value = { PlanPoints };

    ghost view = { λ p. record { net = p.net; from = p.from; to = p.to } };

    ghost invariant = { λ p. IsPoint p.net p.from × IsPoint p.net p.to };
}

impl PlanPoints {
    ghost use Rattle.std.specs.Prelude.{◌≡◌};
    ghost use Rattle.net_model.specs.Network.{IsPoint};

    /// The network, and the two points.
    pub fn into_parts(self) -> (Network, PointId, PointId)
        ensures net { result.0 ≡ self.net }
        ensures from { (result.1 ≡ self.from) × IsPoint self.net self.from }
        ensures to { (result.2 ≡ self.to) × IsPoint self.net self.to }
    {
        let PlanPoints { net, from, to } = self;
        (net.into_network(), from, to)
    }
}

/// As a test of the network of a plan: that it has points of both names, of which the first is
/// sought first. A plan that has not is refused when it ends, before anything is decided.
impl Test<PlanNetwork, Fault> for DeadlineWords {
    type Value = PlanPoints;

    ghost tests = { point_tests };

    fn test(
        &self,
        _alloc: Global,
        value: PlanNetwork,
        number: u32,
    ) -> Result<Result<PlanPoints, Fault>, AllocError> {
        let reported = goal_number(self.notation, number);
        let from = value.network().point(self.from.bytes());
        let to = value.network().point(self.to.bytes());
        Ok(with_points(reported, value, from, to))
    }
}

/// A network and its two points, if it has both; else it is reported by this number that there is
/// none.
fn with_points(
    reported: u32,
    net: PlanNetwork,
    from: Option<PointId>,
    to: Option<PointId>,
) -> Result<PlanPoints, Fault>
    requires from { IfSome from (IsPoint net) }
    requires to { IfSome to (IsPoint net) }
    ensures { result ≡ points_by reported net from to }
{
    let Some(from) = from else {
        return Err(unknown_point(reported));
    };
    let Some(to) = to else {
        return Err(unknown_point(reported));
    };
    Ok(PlanPoints { net, from, to })
}

/// The number by which the bound of the goal is reported if it is refused: that of the line that
/// ends the plan, and 0 of a document.
pub(crate) fn goal_number(notation: Notation, number: u32) -> u32
    ensures { result ≡ goal_number notation number }
{
    match notation {
        Notation::Text => number,
        Notation::Json => 0,
    }
}

/// The plan has no point of one of its names.
fn unknown_point(reported: u32) -> Fault
    ensures { result ≡ unknown_point reported }
{
    Fault::Part(reported, BuildFault::UnknownName(0))
}

/// The plan has as many bounds as it may have.
pub(crate) fn bounds_limit_fault(reported: u32) -> Fault
    ensures { result ≡ bounds_limit_fault reported }
{
    Fault::Part(reported, BuildFault::Limit(Which::Bounds, 0))
}
