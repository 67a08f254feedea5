//! All nodes that a derivation list ever had, as only proofs read them.

ghost use Rattle.std.specs.Prelude.{◌≡◌, [], ◌∷◌, ◌++◌, List};
ghost use Rattle.std.specs.Borrow.{ftrue};
ghost use Rattle.closure_model.specs.declared.derivation.Node.{Node as OneNode};
ghost use Rattle.derivation_dag.specs.NodeCode.{nodes_code};

use crate::dag::Dag;
use closure_model::Node;
use std::marker::Model;

/// All nodes that a list ever had, in the order of making. It takes no memory: contracts and proofs
/// alone read them.
#[derive(Debug, Drop)]
pub(crate) struct Trail {
    pub(crate) ghost nodes: { List OneNode } by { nodes_code },
}

impl Model for Trail {
    ghost also_owns = { λ _. ftrue };
}

impl Trail {
    /// The nodes of a list.
    pub(crate) fn of(_list: &Dag) -> Trail
        ensures { result.nodes ≡ _list.now }
    {
        Trail {}
    }

    /// The same and one node more.
    pub(crate) fn with(&self, _node: &Node) -> Trail
        ensures { result.nodes ≡ self.now.nodes ++ _node.now ∷ [] }
    {
        Trail {}
    }
}
