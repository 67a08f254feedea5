//! The numbers of points, links and bounds, and the weight of a bound.

/// A number of a bound: a difference of two moments, in whole moments.
pub type Weight = i64;

/// The number of a point, from 0 in the order of declaration.
#[derive(Clone, Copy, Debug, PartialEq, Eq, Hash)]
pub struct PointId(pub u32);

/// The number of a link, from 0 in the order of declaration.
#[derive(Clone, Copy, Debug, PartialEq, Eq, Hash)]
pub struct LinkId(pub u32);

/// The number of a bound, from 0 in the order of declaration.
#[derive(Clone, Copy, Debug, PartialEq, Eq)]
pub struct BoundId(pub u32);
