//! A derivation list with the table of the least edges of its nodes.

ghost use Rattle.std.specs.Prelude.{◌≡◌, ◌++◌, [], length, map, IfOk, OnOk, ◌≤◌, unsigned_abs};
ghost use Rattle.std.specs.List.{enumerate_from};
ghost use Rattle.net_model.specs.Edges.{IsEdge};
ghost use Rattle.net_model.specs.Limits.{most_size, IsWeight};
ghost use Rattle.closure_model.specs.Keys.{key_of, IsKey};
ghost use Rattle.closure_model.specs.Tables.{no_edges, IsFor};
ghost use Rattle.closure_model.specs.Derivations.{base_support, bound_node, link_node, with_node};
ghost use Rattle.closure_model.specs.Derivations.{IsGiven, StandsOn};
ghost use Rattle.labelled_graph.specs.MergedRows.{no_shape};
ghost use Rattle.derivation_dag.specs.Numbers.{IsBelowFirst};
ghost use Rattle.derivation_dag.specs.Rows.{CanTakeRow, with_row};
ghost use Rattle.derivation_dag.specs.SupportedTables.{no_support, IsSupported};

use crate::dag::Dag;
use crate::keyed_dag::KeyedDag;
use crate::made_nodes::push_row;
use crate::node_list::NodeList;
use crate::supports::{MadeRow, Supports};
use closure_model::{Node, NodeId, Rule};
use labelled_graph::Table;
use net_model::{Bound, BoundId, Edge, Link, LinkId, Network, bound_edge, link_edge};
use std::alloc::{AllocError, Global};
use std::marker::Model;

/// A derivation list with the table of the least edges of its nodes, and no more: nothing is ever
/// taken away from it. Contracts see it as the list and the table.
#[derive(Debug, Drop)]
pub struct Plain {
    list: KeyedDag,
    table: Table,
}

impl Model for Plain {
    ghost use Rattle.closure_model.specs.Derivations.{Support};
    ghost use Rattle.derivation_dag.specs.SupportCode.{support_code};

    ghost Value = { Support };

    ghost coded = { support_code };

    ghost use Rattle.derivation_dag.specs.SupportedTables.{IsSupported};

    ghost view = { λ plain. record { nodes = plain.list; table = plain.table } };

    ghost invariant = { λ plain. IsSupported (record { nodes = plain.list; table = plain.table }) };
}

impl Plain {
    /// The base nodes and the base table of a network: one node for each bound and then one for
    /// each link, each in order. They stand on the network. `AllocError` comes only for want of
    /// memory.
    pub fn of(alloc: Global, net: &Network) -> Result<Plain, AllocError>
        ensures base { IfOk result (λ plain. plain ≡ base_support net.now) }
        ensures stands { IfOk result (StandsOn net.now) }
    {
        net.sound();
        let table = Table::of(alloc, net)?;
        let mut list = KeyedDag::of(alloc, net.points().len() as u32)?;
        push_bounds(&mut list, net)?;
        push_links(&mut list, net)?;
        Ok(Plain { list, table })
    }

    /// The list without nodes, with the table of a network without edges. `AllocError` comes only
    /// for want of memory.
    pub fn without_nodes(alloc: Global, net: &Network) -> Result<Plain, AllocError>
        ensures { IfOk result (λ plain. plain ≡ no_support net.now) }
    {
        let table = Table::without_edges(alloc, net)?;
        let list = KeyedDag::of(alloc, net.points().len() as u32)?;
        Ok(Plain { list, table })
    }

    /// Puts a node at the end of the list and its edge into the table, as `accept` does, also if
    /// the table has as little for its key already. `AllocError` comes only for want of memory;
    /// then the store is lost, and the caller drops it.
    pub fn add(&mut self, net: &Network, node: Node) -> Result<NodeId, AllocError>
        requires for_network { IsFor net.now self.old.table }
        requires edge { IsEdge net.now node.edge }
        requires follows { IsGiven net.now self.old.nodes node }
        ensures { IfOk result (λ id. (id.0 ≡ length self.old.nodes)
            × (self.new ≡ with_node self.old node)) }
    {
        net.sound();
        match take_node(net, &mut self.list, &mut self.table, node, 0) {
            Ok(id) => Ok(id),
            Err(error) => {
                lose(&mut self.list, &mut self.table);
                Err(error)
            }
        }
    }

    /// The list.
    pub fn dag(&self) -> &Dag
        ensures { result.now ≡ self.now.nodes }
    {
        self.list.dag()
    }
}

impl Supports for Plain {
    ghost support = { λ plain. plain };

    fn table(&self) -> &Table {
        &self.table
    }

    fn newest(&self, edge: &Edge) -> Option<NodeId> {
        self.list.newest(edge)
    }

    fn accept(&mut self, net: &Network, node: Node) -> Result<NodeId, AllocError> {
        self.add(net, node)
    }

    fn accept_row(&mut self, net: &Network, row: &MadeRow<'_>) -> Result<(), AllocError> {
        net.sound();
        match take_row(net, &mut self.list, &mut self.table, row) {
            Ok(()) => Ok(()),
            Err(error) => {
                lose(&mut self.list, &mut self.table);
                Err(error)
            }
        }
    }
}

/// Puts a node at the end of a list, and its edge into a table. It is below the nodes of its key
/// among so many first ones.
pub(crate) fn take_node<L: NodeList>(
    net: &Network,
    list: &mut L,
    table: &mut Table,
    node: Node,
    first: u64,
) -> Result<NodeId, AllocError>
    requires follows { IsGiven net.now (L.nodes list.old) node }
    requires below { IsBelowFirst (L.nodes list.old) first node.edge }
    requires key { IsKey table.old.shape (key_of node.edge) }
    requires weight { IsWeight node.edge.weight }
    ensures { IfOk result (λ id. (id.0 ≡ length (L.nodes list.old))
        × (record { nodes = L.nodes list.new; table = table.new } ≡ with_node
        (record { nodes = L.nodes list.old; table = table.old }) node)) }
{
    let edge = node.edge;
    let id = list.push_below(net, node, first)?;
    table.lower_to(&edge)?;
    Ok(id)
}

/// Empties a list and a table: after a failure the list may have nodes whose edges are not in the
/// table.
fn lose(list: &mut KeyedDag, table: &mut Table)
    ensures list { list.new ≡ [] }
    ensures table { table.new ≡ no_edges no_shape }
{
    let alloc = list.allocator();
    *list = KeyedDag::new(alloc);
    *table = Table::empty(alloc);
}

/// Puts the nodes of what a row made into a list, and its edges into a table.
pub(crate) fn take_row<L: NodeList>(
    net: &Network,
    list: &mut L,
    table: &mut Table,
    row: &MadeRow<'_>,
) -> Result<(), AllocError>
    requires supported { IsSupported (record { nodes = L.nodes list.old; table = table.old }) }
    requires row { CanTakeRow net.now (record { nodes = L.nodes list.old; table = table.old })
        row.now.target row.now.made.now row.now.firsts.now }
    ensures { OnOk result (record { nodes = L.nodes list.new; table = table.new } ≡ with_row
        (record { nodes = L.nodes list.old; table = table.old }) row.now.made.now
        row.now.firsts.now) }
{
    net.sound();
    push_row(net, list, row)?;
    table.lower_all(row.target, row.made)
}

pub(crate) fn push_bounds<L: NodeList>(list: &mut L, net: &Network) -> Result<(), AllocError>
    ensures { OnOk result (L.nodes list.new ≡ L.nodes list.old ++ map bound_node
        (enumerate_from 0 net.now.bounds)) }
{
    for (place, bound) in net.bounds().iter().enumerate() {
        list.push_below(net, bound_node(BoundId(place as u32), bound), 0)?;
    }
    Ok(())
}

pub(crate) fn push_links<L: NodeList>(list: &mut L, net: &Network) -> Result<(), AllocError>
    ensures { OnOk result (L.nodes list.new ≡ L.nodes list.old ++ map link_node
        (enumerate_from 0 net.now.links)) }
{
    for (place, link) in net.links().iter().enumerate() {
        list.push_below(net, link_node(LinkId(place as u32), link), 0)?;
    }
    Ok(())
}

/// The base node of a bound, which has this number.
pub fn bound_node(id: BoundId, bound: &Bound) -> Node
    ensures { result ≡ bound_node (id.0, bound.now) }
{
    Node {
        rule: Rule::Bound(id),
        edge: bound_edge(bound),
    }
}

/// The base node of a link, which has this number. The link has a longest duration that a network
/// may have.
pub fn link_node(id: LinkId, link: &Link) -> Node
    requires { unsigned_abs link.now.high ≤ most_size }
    ensures { result ≡ link_node (id.0, link.now) }
{
    Node {
        rule: Rule::Link(id),
        edge: link_edge(id, link),
    }
}
