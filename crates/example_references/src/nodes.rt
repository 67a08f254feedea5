//! A list of nodes, and what the table of their least edges has.

ghost use Rattle.std.specs.Prelude.{◌≡◌, ◌<◌, length, List, IfSome, Some, None};
ghost use Rattle.std.specs.Option.{option_map};
ghost use Rattle.net_model.specs.Network.{Plan};
ghost use Rattle.closure_model.specs.Derivations.{weight_at};
ghost use Rattle.closure_model.specs.Keys.{key_of, ordinary_key};
ghost use Rattle.closure_model.specs.Least.{lesser, first_least};
ghost use Rattle.closure_model.specs.ReferenceRow.{same_label};
ghost use Rattle.closure_model.specs.ReferenceRound.{is_same_key, weight_for, node_for};
ghost use Rattle.closure_model.specs.Tables.{weight_of};
ghost use Rattle.closure_model.specs.declared.derivation.Node.{Node};
ghost use Rattle.example_references.specs.NodeTables.{table_in};

use closure_model::{Node, NodeId};
use net_model::{Edge, LinkId, Network, PointId, Weight};

/// The weight that the table of nodes has for the key of an edge, if it has one.
pub(crate) fn weight_in(nodes: &[Node], edge: &Edge) -> Option<Weight>
    ensures { (net : Plan) → result ≡ weight_of (table_in net nodes.now) (key_of edge.now) }
{
    weight_at(nodes, node_for(nodes, edge))
}

fn weight_at(nodes: &[Node], found: Option<NodeId>) -> Option<Weight>
    requires { IfSome found (λ id. id.0 < length nodes.now) }
    ensures { result ≡ weight_at nodes.now found }
{
    let id = found?;
    Some(nodes[id.0 as usize].edge.weight)
}

/// How many points a network has.
pub(crate) fn points(net: &Network) -> u32
    ensures { (nodes : List Node) → result ≡ (table_in net.now nodes).shape.points }
{
    net.points().len() as u32
}

/// The node of the key of an edge: the first of least weight among its nodes.
pub(crate) fn node_for(nodes: &[Node], edge: &Edge) -> Option<NodeId>
    ensures node { result ≡ node_for nodes.now edge.now }
    ensures inside { IfSome result (λ id. id.0 < length nodes.now) }
{
    let first = first_least(nodes, edge)?;
    Some(NodeId(first.0 as u64))
}

fn first_least(nodes: &[Node], edge: &Edge) -> Option<(usize, Weight)>
    ensures first { result ≡ first_least (weight_for edge.now) nodes.now }
    ensures inside { IfSome result (λ first. first.0 < length nodes.now) }
{
    let mut first = None;
    for (place, node) in nodes.iter().enumerate() {
        first = lesser(first, at_place(place, weight_for(edge, node)));
    }
    first
}

fn weight_for(edge: &Edge, node: &Node) -> Option<Weight>
    ensures { result ≡ weight_for edge.now node.now }
{
    if is_same_key(edge, &node.edge) {
        Some(node.edge.weight)
    } else {
        None
    }
}

fn is_same_key(one: &Edge, other: &Edge) -> bool
    ensures { result ≡ is_same_key one.now other.now }
{
    one.to == other.to && one.from == other.from && same_label(one.label, other.label)
}

pub(crate) fn same_label(one: Option<LinkId>, other: Option<LinkId>) -> bool
    ensures { result ≡ same_label one other }
{
    match (one, other) {
        (None, None) => true,
        (Some(one), Some(other)) => one == other,
        _ => false,
    }
}

pub(crate) fn at_place(place: usize, weight: Option<Weight>) -> Option<(usize, Weight)>
    ensures { result ≡ option_map (λ w. (place, w)) weight }
{
    match weight {
        Some(weight) => Some((place, weight)),
        None => None,
    }
}

/// The lesser of two weights with their places, the first if they are equal.
pub(crate) fn lesser(
    first: Option<(usize, Weight)>,
    second: Option<(usize, Weight)>,
) -> Option<(usize, Weight)>
    ensures { result ≡ lesser first second }
{
    match (first, second) {
        (None, second) => second,
        (first, None) => first,
        (Some(first), Some(second)) => Some(if first.1 <= second.1 { first } else { second }),
    }
}

/// The weight that the table of nodes has for the ordinary edge from one point to another, if it
/// has one.
pub(crate) fn ordinary_weight(nodes: &[Node], from: PointId, to: PointId) -> Option<Weight>
    ensures { (net : Plan) → result ≡ weight_of (table_in net nodes.now) (ordinary_key from to) }
{
    weight_in(
        nodes,
        &Edge {
            from,
            to,
            label: None,
            weight: 0,
        },
    )
}
