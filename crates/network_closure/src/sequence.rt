//! The points in the order in which the edges of a row are tested.

use net_model::PointId;

/// Points, in the order in which the edges that begin in them are tested, and whether this is an
/// order of the table: each negative ordinary edge goes from a later point to an earlier one.
#[derive(Clone, Copy)]
pub(crate) struct Sequence<'a> {
    pub(crate) points: &'a [PointId],
    pub(crate) is_order: bool,
}
