//! What a store of derivations answers, and how nodes are put into it.

ghost use Rattle.std.specs.Prelude.{◌≡◌, false, length, IfOk, OnOk};
ghost use Rattle.net_model.specs.Edges.{IsEdge};
ghost use Rattle.closure_model.specs.Keys.{key_of};
ghost use Rattle.closure_model.specs.Tables.{IsFor, has_at_most, weight_of};
ghost use Rattle.closure_model.specs.Derivations.{Support, IsGiven, IsNewest, weight_at, with_node};
ghost use Rattle.derivation_dag.specs.Rows.{CanTakeRow, with_row};

use closure_model::rows::Made;
use closure_model::{Node, NodeId};
use labelled_graph::Table;
use net_model::{Edge, Network, PointId};
use std::alloc::AllocError;

/// The edges that a row made for a target, and for each the node that its first premise had before
/// the round, if its rule takes two premises.
#[derive(Clone, Copy, Debug)]
pub struct MadeRow<'a> {
    pub target: PointId,
    pub made: &'a [Made],
    pub firsts: &'a [Option<NodeId>],
}

/// A store of derivations: a derivation list with the table of the least edges of its nodes.
pub trait Supports {
    /// The list and the table.
    ghost support: { Self → Support };

    /// The table.
    fn table(&self) -> &Table
        ensures { result.now ≡ (support self.now).table };

    /// The node of the key of an edge: the first of least weight among its nodes. That weight is
    /// the table's. `None` exactly if the key has no node, and then the table lacks it.
    fn newest(&self, edge: &Edge) -> Option<NodeId>
        ensures newest { IsNewest (support self.now).nodes (key_of edge.now) result }
        ensures weight { weight_at (support self.now).nodes result ≡ weight_of
            (support self.now).table (key_of edge.now) };

    /// Puts a node at the end of the list and its edge into the table. The table is for the points
    /// and links of the network, the edge is one of the network, the rule of the node gives it from
    /// nodes of the list, and it is below what the table has. `AllocError` comes only for want of
    /// memory; then the store is lost, and the caller drops it.
    fn accept(&mut self, net: &Network, node: Node) -> Result<NodeId, AllocError>
        requires for_network { IsFor net.now (support self.old).table }
        requires edge { IsEdge net.now node.edge }
        requires follows { IsGiven net.now (support self.old).nodes node }
        requires lowers { has_at_most (support self.old).table node.edge ≡ false }
        ensures { IfOk result (λ id. (id.0 ≡ length (support self.old).nodes)
            × (support self.new ≡ with_node (support self.old) node)) };

    /// Gives each edge that a row made its node, one after another, and puts the edges into the
    /// table. It goes over the row of the target once, which is no clause. The table is for the
    /// points and links of the network, the edges are edges of the network that end in the target
    /// and improve the table, and each has its rule from nodes of the list. `AllocError` comes only
    /// for want of memory; then the store is lost, and the caller drops it.
    fn accept_row(&mut self, net: &Network, row: &MadeRow<'_>) -> Result<(), AllocError>
        requires { CanTakeRow net.now (support self.old) row.now.target row.now.made.now
            row.now.firsts.now }
        ensures { OnOk result (support self.new ≡ with_row
            (support self.old) row.now.made.now row.now.firsts.now) };
}
