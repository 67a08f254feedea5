//! Bounds, links, labelled edges, and the parts that declare a network.

use crate::ids::{LinkId, PointId, Weight};
use crate::name::Name;

/// A bound `to - from <= most`, in whole moments.
#[derive(Clone, Copy, Debug)]
pub struct Bound {
    pub name: Name,
    pub from: PointId,
    pub to: PointId,
    pub most: Weight,
}

impl Bound {
    ghost use Rattle.std.specs.Prelude.{◌≡◌};

    /// The bound with another number.
    pub(crate) fn with_most(self, most: Weight) -> Bound
        ensures { result ≡ record self { most = most } }
    {
        Bound { most, ..self }
    }
}

/// A contingent link: nature picks `to - from`, a whole number from `low` to `high`. `from` is the
/// activation point and `to` the contingent point.
#[derive(Clone, Copy, Debug, PartialEq, Eq)]
pub struct Link {
    pub from: PointId,
    pub low: Weight,
    pub high: Weight,
    pub to: PointId,
}

impl Link {
    ghost use Rattle.std.specs.Prelude.{◌≡◌};

    /// The link with another interval.
    pub(crate) fn with_interval(self, low: Weight, high: Weight) -> Link
        ensures { result ≡ record self { low = low; high = high } }
    {
        Link { low, high, ..self }
    }
}

/// An edge of the labelled distance graph (Morris and Muscettola 2005): `to - from <= weight`, and
/// with a label only while that link takes its longest duration.
#[derive(Clone, Copy, Debug, PartialEq, Eq)]
pub struct Edge {
    pub from: PointId,
    pub to: PointId,
    pub label: Option<LinkId>,
    pub weight: Weight,
}

/// A declaration of a plan, by names, with numbers in whole moments.
#[derive(Clone, Copy, Debug)]
pub enum Part {
    /// A point of this name.
    Point(Name),
    /// A bound: its name, from, to, and the most that `to - from` may be.
    Bound(Name, Name, Name, Weight),
    /// A link: from, its shortest and its longest duration, to.
    Link(Name, Weight, Weight, Name),
}

/// A quantity that has a limit.
#[derive(Clone, Copy, Debug, PartialEq, Eq, Hash)]
pub enum Which {
    /// The number of points, at most 2,000.
    Points,
    /// The number of links, at most 800.
    Links,
    /// The number of bounds, at most 20,000.
    Bounds,
    /// The size of a number, at most 1,000,000,000.
    Number,
}

impl Which {
    ghost use Rattle.std.specs.Prelude.{◌≡◌};
    ghost use Rattle.net_model.specs.BuiltNetwork.{which_word};

    /// The word as which it is printed.
    pub fn word(self) -> &'static str
        ensures { result.now ≡ which_word self }
    {
        match self {
            Which::Points => "points",
            Which::Links => "links",
            Which::Bounds => "bounds",
            Which::Number => "number",
        }
    }
}
