//! What nodes of a derivation list rest on.

ghost use Rattle.std.specs.Prelude.{◌≡◌, ◌↔◌, ◌<◌, length, slice_get, Some, IfSome, IsTrue};
ghost use Rattle.std.specs.Option.{option_map, option_and_then};
ghost use Rattle.net_model.specs.Rules.{bound_edge, link_edge, upper_case, lower_case, removal};
ghost use Rattle.closure_model.specs.Derivations.{edge_at, given_by};
ghost use Rattle.net_model.specs.Limits.{IsWeight};

use crate::networks::network;
use derivation_dag::{Dag, Item, Node, NodeId, Rule};
use net_model::{BoundId, Edge, LinkId, MOST_WEIGHT, Network};
use reduction_rules::{lower_case, removal, upper_case};
use std::alloc::Global;
use std::process::Abort;
use std::test::Fail;

const ONE_LINK: &str = "point A|point C|point D|bound b1 D C 1|bound b2 C D -1|link A 3 8 C";

/// The edge of a premise.
fn premise(dag: &Dag, id: NodeId) -> Option<Edge>
    ensures edge { IfSome result (λ edge. edge_at dag.now id ≡ Some edge) }
    ensures within { IfSome result (λ edge. IsWeight edge.weight) }
{
    if id.0 >= dag.len() {
        return None;
    }
    let edge = dag.node(id).edge;
    if edge.weight.unsigned_abs() > 1000 {
        return None;
    }
    Some(edge)
}

fn is_link(net: &Network, name: LinkId) -> bool
    ensures { IsTrue result ↔ (name.0 < length net.now.links) }
{
    (name.0 as usize) < net.links().len()
}

/// The edge of a bound.
fn bound_edge(net: &Network, name: BoundId) -> Option<Edge>
    ensures { IfSome result (λ edge. option_map bound_edge (slice_get net.now.bounds name.0) ≡ Some
        edge) }
{
    let bound = net.bounds().get(name.0 as usize).copied()?;
    Some(net_model::bound_edge(&bound))
}

/// The edge of a link.
fn link_edge(net: &Network, name: LinkId) -> Option<Edge>
    ensures { IfSome result (λ edge. option_map (link_edge name)
        (slice_get net.now.links name.0) ≡ Some edge) }
{
    let link = net.links().get(name.0 as usize).copied()?;
    if link.high.unsigned_abs() > MOST_WEIGHT {
        return None;
    }
    Some(net_model::link_edge(name, &link))
}

fn low(net: &Network, dag: &Dag, name: LinkId, second: NodeId) -> Option<Edge>
    ensures { IfSome result (λ edge. option_and_then (lower_case net.now name)
        (edge_at dag.now second) ≡ Some edge) }
{
    let second = premise(dag, second)?;
    if !is_link(net, name) {
        return None;
    }
    lower_case(net, name, &second)
}

fn up(dag: &Dag, first: NodeId, second: NodeId) -> Option<Edge>
    ensures { IfSome result (λ edge. option_and_then
        (λ one. option_and_then (upper_case one) (edge_at dag.now second))
        (edge_at dag.now first) ≡ Some edge) }
{
    let first = premise(dag, first)?;
    let second = premise(dag, second)?;
    upper_case(&first, &second)
}

fn without_label(net: &Network, dag: &Dag, premise_id: NodeId) -> Option<Edge>
    ensures { IfSome result (λ edge. option_and_then (removal net.now)
        (edge_at dag.now premise_id) ≡ Some edge) }
{
    let premise = premise(dag, premise_id)?;
    let label = premise.label?;
    if !is_link(net, label) {
        return None;
    }
    removal(net, &premise)
}

/// What a rule gives from the nodes of a list; of no-case and cross-case nothing, since the list
/// below has none.
pub(crate) fn made(net: &Network, dag: &Dag, rule: Rule) -> Option<Edge>
    ensures { IfSome result (λ edge. given_by net.now dag.now rule ≡ Some edge) }
{
    match rule {
        Rule::Bound(name) => bound_edge(net, name),
        Rule::Link(name) => link_edge(net, name),
        Rule::Low(name, second) => low(net, dag, name, second),
        Rule::Up(first, second) => up(dag, first, second),
        Rule::Drop(premise) => without_label(net, dag, premise),
        Rule::No(..) | Rule::Cross(..) => None,
    }
}

fn push(dag: &mut Dag, net: &Network, rule: Rule) -> Result<NodeId, Fail> {
    let edge = made(net, dag, rule).ok_or("the rule gives no edge")?;
    Ok(dag.push(net, Node { rule, edge })?)
}

/// A refutation over one link: two bounds, the link, and what follows from them.
const RULES: [Rule; 7] = [
    Rule::Bound(BoundId(0)),
    Rule::Bound(BoundId(1)),
    Rule::Link(LinkId(0)),
    Rule::Up(NodeId(0), NodeId(2)),
    Rule::Low(LinkId(0), NodeId(1)),
    Rule::Up(NodeId(4), NodeId(3)),
    Rule::Drop(NodeId(5)),
];

/// A node, an item, and whether it rests on it.
const RESTING: [(NodeId, Item, bool); 8] = [
    (NodeId(4), Item::Bound(BoundId(1)), true),
    (NodeId(4), Item::Bound(BoundId(0)), false),
    (NodeId(4), Item::Link(LinkId(0)), true),
    (NodeId(1), Item::Bound(BoundId(1)), true),
    (NodeId(1), Item::Link(LinkId(0)), false),
    (NodeId(3), Item::Bound(BoundId(1)), false),
    (NodeId(6), Item::Bound(BoundId(0)), true),
    (NodeId(6), Item::Bound(BoundId(1)), true),
];

fn rests(alloc: Global, dag: &Dag, id: NodeId, item: Item) -> Result<bool, Fail> {
    if id.0 >= dag.len() {
        return Err("no node has this number".into());
    }
    Ok(dag.rests_on(alloc, id, item)?)
}

/// The nodes under one, itself among them.
fn ancestors(alloc: Global, dag: &Dag, id: NodeId) -> Result<Vec<NodeId>, Fail> {
    if id.0 >= dag.len() {
        return Err("no node has this number".into());
    }
    Ok(dag.ancestors(alloc, [id].as_slice())?)
}

fn push_each(dag: &mut Dag, net: &Network) -> Result<(), Fail> {
    for rule in RULES {
        push(dag, net, rule)?;
    }
    Ok(())
}

fn push_all(alloc: Global, dag: &mut Dag) -> Result<(), Fail> {
    let net = network(alloc, ONE_LINK)?;
    push_each(dag, &net)
}

fn refutation(alloc: Global) -> Result<Dag, Fail> {
    let mut dag = Dag::new(alloc);
    push_all(alloc, &mut dag)?;
    Ok(dag)
}

fn try_resting<R: Abort>(rt: &R, alloc: Global, dag: &Dag) -> Result<(), Fail> {
    for (id, item, wanted) in RESTING {
        let found = rests(alloc, dag, id, item)?;
        assert!(rt; found == wanted, "{id:?} {item:?}");
    }
    Ok(())
}

fn try_ancestors<R: Abort>(
    rt: &R,
    alloc: Global,
    dag: &Dag,
    id: NodeId,
    wanted: &[NodeId],
) -> Result<(), Fail> {
    let found = ancestors(alloc, dag, id)?;
    assert!(rt; found.as_slice() == wanted, "{id:?}");
    Ok(())
}

fn try_each_of_ancestors<R: Abort>(rt: &R, alloc: Global, dag: &Dag) -> Result<(), Fail> {
    try_ancestors(rt, alloc, dag, NodeId(4), [NodeId(1), NodeId(4)].as_slice())?;
    try_ancestors(
        rt,
        alloc,
        dag,
        NodeId(3),
        [NodeId(0), NodeId(2), NodeId(3)].as_slice(),
    )?;
    try_ancestors(rt, alloc, dag, NodeId(0), [NodeId(0)].as_slice())
}

#[test]
fn nodes_rest_on_what_they_use(rt: HostRuntime) -> Result<(), Fail> {
    let dag = refutation(rt.alloc())?;
    try_resting(&rt, rt.alloc(), &dag)?;
    try_each_of_ancestors(&rt, rt.alloc(), &dag)
}
