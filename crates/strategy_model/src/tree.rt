//! Strategy trees, as data.

use net_model::{Items, PointId};

/// A strategy tree: what is done at each moment, by what was seen up to it. The node at depth `t`
/// is for moment `t`; the first case whose `seen` is what is shown then is taken. A completion is
/// shown the delay of the network after it happened.
#[cycle(tree)]
#[derive(Debug, Drop)]
pub enum Tree {
    /// Nothing more is done.
    Leaf,
    /// The cases of one moment.
    Node(Items<Case>),
}

/// One case of a moment: the contingent points that are shown to be completed at it, in order of
/// number, the executable points that are executed at it, and how it goes on.
#[cycle(tree)]
#[derive(Debug, Drop)]
pub struct Case {
    pub seen: Items<PointId>,
    pub acts: Items<PointId>,
    pub next: Tree,
}
