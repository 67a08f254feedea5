//! What the nodes of a row are put into: a derivation list that finds the node of a key.

ghost use Rattle.std.specs.Prelude.{◌≡◌, ◌++◌, ◌∷◌, [], List, length, IfOk};
ghost use Rattle.closure_model.specs.Keys.{key_of};
ghost use Rattle.closure_model.specs.Derivations.{IsGiven, IsNewest};
ghost use Rattle.closure_model.specs.declared.derivation.Node.{Node as OneNode};
ghost use Rattle.derivation_dag.specs.Numbers.{IsBelowFirst};

use closure_model::{Node, NodeId};
use net_model::{Edge, Network};
use std::alloc::AllocError;

/// A derivation list that finds the node of a key: the first of least weight among its nodes.
pub(crate) trait NodeList {
    /// The nodes of the list.
    ghost nodes: { Self → List OneNode };

    /// How many nodes the list has.
    fn len(&self) -> u64
        ensures { result ≡ length (nodes self.now) };

    /// The node of the key of an edge, if it has one.
    fn newest(&self, edge: &Edge) -> Option<NodeId>
        ensures { IsNewest (nodes self.now) (key_of edge.now) result };

    /// Puts a node at the end of the list. It is below each node of its key among so many first
    /// ones.
    fn push_below(&mut self, net: &Network, node: Node, first: u64) -> Result<NodeId, AllocError>
        requires given { IsGiven net.now (nodes self.old) node }
        requires below { IsBelowFirst (nodes self.old) first node.edge }
        ensures { IfOk result (λ id. (id.0 ≡ length (nodes self.old))
            × (nodes self.new ≡ nodes self.old ++ node ∷ [])) };
}
