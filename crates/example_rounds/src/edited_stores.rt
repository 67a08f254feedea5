//! Stores of derivations that follow edits of their network.

ghost use Rattle.std.specs.Prelude.{◌≡◌, ◌<◌, ◌↔◌, length, Some, false, IsTrue, OnOk, IfSome};
ghost use Rattle.net_model.specs.Edges.{IsEdge};
ghost use Rattle.closure_model.specs.Derivations.{StandsOn, given_by};
ghost use Rattle.closure_model.specs.Tables.{IsFor, has_at_most};

use crate::derivations::made;
use crate::networks::{edit, network};
use crate::rounds::push_nodes;
use derivation_dag::{Node, NodeId, Rule, Supports};
use net_model::{Edge, Edit, LinkId, Network, PointId};
use parallel_rounds::{NoGate, propagate};
use std::alloc::Global;
use std::process::Abort;
use std::test::Fail;
use std::thread::Threads;
use support_records::Store;

/// A network and an edit, the network after it, and then how many nodes are kept and withdrawn, and
/// the nodes of the store. First a number differs that the edit does not name. Then an entry
/// returns to an older version; entries that follow from each other are withdrawn with what both
/// rest on; bounds, links and points get other numbers; and a bound is set to the number that it
/// has.
const EDITS: [(&str, &str, &str, &str); 7] = [
    (
        "point A|point C|point D|bound b1 D C 4",
        "add link A 3 8 C",
        "point A|point C|point D|bound b1 D C 5|link A 3 8 C",
        "0 1|bound b1 D C 5|link C C A -8|",
    ),
    (
        "point A|point B|bound b1 A B 5|bound b2 A B 3|bound b3 B A -4",
        "drop bound b2",
        "point A|point B|bound b1 A B 5|bound b3 B A -4",
        "2 2|bound b1 A B 5|bound b3 B A -4|",
    ),
    (
        "point X|point Y|point Z|bound a X Y 0|bound b Y X 0|bound g X Z -5|bound c Z X 3",
        "drop bound g",
        "point X|point Y|point Z|bound a X Y 0|bound b Y X 0|bound c Z X 3",
        "3 3|bound a X Y 0|bound b Y X 0|bound c Z X 3|",
    ),
    (
        "point A|point C|point D|bound b1 D C 1|bound b2 C D -1|link A 3 8 C",
        "drop bound b1",
        "point A|point C|point D|bound b2 C D -1|link A 3 8 C",
        "5 6|bound b2 C D -1|link C C A -8|drop 2 C A -3|low C 3 A A 0|low C 1 A D 2|",
    ),
    (
        "point A1|point C1|point A2|point C2|link A1 1 10 C1|link A2 1 10 C2",
        "drop link C1",
        "point A1|point C1|point A2|point C2|link A2 1 10 C2",
        "3 3|link C2 C2 A2 -10|drop 1 C2 A2 -1|low C2 2 A2 A2 0|",
    ),
    (
        "point Z|point A|point C|point D|bound b1 D C 4|link A 3 8 C",
        "drop point Z",
        "point A|point C|point D|bound b1 D C 4|link A 3 8 C",
        "6 0|bound b1 D C 4|link C C A -8|up 1 2 D A C -4|drop 2 C A -3|drop 3 D A -3|low C 4 A A 0|",
    ),
    (
        "point A|point C|point D|bound b1 D C 1|bound b2 C D -1|link A 3 8 C",
        "set bound b2 -1",
        "point A|point C|point D|bound b1 D C 1|bound b2 C D -1|link A 3 8 C",
        "6 5|bound b1 D C 1|link C C A -8|up 1 2 D A C -7|drop 2 C A -3|drop 3 D A -3|low C 4 A A 0|bound b2 C D -1|",
    ),
];

/// How many nodes a store keeps and withdraws when it follows an edit after the rounds of a
/// network, and its nodes then.
fn push_followed<R: Threads + Sync>(
    rt: &R,
    alloc: Global,
    plan: &str,
    edit: &Edit,
    after: &str,
    text: &mut String,
) -> Result<(), Fail> {
    let old = network(alloc, plan)?;
    push_followed_from(rt, alloc, &old, edit, after, text)
}

fn push_followed_from<R: Threads + Sync>(
    rt: &R,
    alloc: Global,
    old: &Network,
    edit: &Edit,
    after: &str,
    text: &mut String,
) -> Result<(), Fail> {
    let mut store = Store::of(alloc, old)?;
    make_rounds(rt, alloc, old, &mut store)?;
    follow(alloc, old, edit, after, &mut store, text)
}

fn follow(
    alloc: Global,
    old: &Network,
    edit: &Edit,
    after: &str,
    store: &mut Store,
    text: &mut String,
) -> Result<(), Fail>
    requires { StandsOn old.now store.old }
{
    let new = network(alloc, after)?;
    let answer = store.follow(alloc, old, edit, &new)?;
    write!(text, "{} {}|", answer.kept, answer.withdrawn)?;
    push_nodes(alloc, &new, store.dag(), text)
}

fn make_rounds<R: Threads + Sync>(
    rt: &R,
    alloc: Global,
    net: &Network,
    store: &mut Store,
) -> Result<(), Fail>
    requires { StandsOn net.now store.old }
    ensures { OnOk result (StandsOn net.now store.new) }
{
    propagate(rt, alloc, net, store, 1, &NoGate)?;
    Ok(())
}

fn try_edits<R: Threads + Sync + Abort>(rt: &R, alloc: Global) -> Result<(), Fail> {
    for (plan, words, after, shown) in EDITS {
        let found = followed(rt, alloc, plan, words, after)?;
        see_followed(rt, found.as_str(), shown, plan, words);
    }
    Ok(())
}

fn followed<R: Threads + Sync>(
    rt: &R,
    alloc: Global,
    plan: &str,
    words: &str,
    after: &str,
) -> Result<String, Fail> {
    let edit = edit(words).ok_or("no edit")?;
    let mut text = String::new(alloc);
    push_followed(rt, alloc, plan, &edit, after, &mut text)?;
    Ok(text)
}

fn see_followed(rt: &impl Abort, found: &str, shown: &str, plan: &str, words: &str) {
    assert!(rt; found == shown, "{plan}: {words}: {found}, not {shown}");
}

/// The plan of the third row of nodes above.
const ONE_LINK: &str = "point A|point C|point D|bound b1 D C 1|bound b2 C D -1|link A 3 8 C";

/// The edge of a rule from the nodes of a store, if it has no label and the store has none of its
/// key that is as small.
fn improving_edge(net: &Network, store: &Store, rule: Rule) -> Option<Edge>
    requires { IsFor net.now store.now.table }
    ensures edge { IfSome result (IsEdge net.now) }
    ensures follows { IfSome result (λ edge. given_by net.now store.now.nodes rule ≡ Some edge) }
    ensures lowers { IfSome result (λ edge. has_at_most store.now.table edge ≡ false) }
{
    let edge = made(net, store.dag(), rule)?;
    if edge.label.is_some() || !is_point(net, edge.from) || !is_point(net, edge.to) {
        return None;
    }
    if store.table().has_at_most(&edge) {
        return None;
    }
    Some(edge)
}

fn is_point(net: &Network, point: PointId) -> bool
    ensures { IsTrue result ↔ (point.0 < length net.now.points) }
{
    (point.0 as usize) < net.points().len()
}

/// Accepts the node of a rule.
fn accept(net: &Network, store: &mut Store, rule: Rule) -> Result<NodeId, Fail>
    requires { StandsOn net.now store.old }
{
    let edge = improving_edge(net, store, rule).ok_or("no edge below")?;
    Ok(store.accept(net, Node { rule, edge })?)
}

/// The newest node of the edges from A to D, and of those from D to C.
fn newest(store: &Store) -> (Option<NodeId>, Option<NodeId>) {
    (newest_between(store, 0, 2), newest_between(store, 2, 1))
}

fn newest_between(store: &Store, from: u32, to: u32) -> Option<NodeId> {
    store.newest(&Edge {
        from: PointId(from),
        to: PointId(to),
        label: None,
        weight: 0,
    })
}

#[test]
fn stores_accept_nodes(rt: HostRuntime) -> Result<(), Fail> {
    let net = network(rt.alloc(), ONE_LINK)?;
    try_store(&rt, rt.alloc(), &net)
}

fn try_store<R: Abort>(rt: &R, alloc: Global, net: &Network) -> Result<(), Fail> {
    let mut store = Store::of(alloc, net)?;
    try_accepting(rt, net, &mut store)
}

fn try_accepting<R: Abort>(rt: &R, net: &Network, store: &mut Store) -> Result<(), Fail>
    requires { StandsOn net.now store.old }
{
    assert!(rt; newest(store) == (None, Some(NodeId(0))));
    let id = accept(net, store, Rule::Low(LinkId(0), NodeId(1)))?;
    assert_eq!(rt; id, NodeId(3));
    assert!(rt; newest(store) == (Some(NodeId(3)), Some(NodeId(0))));
    Ok(())
}

#[test]
fn stores_follow_edits(rt: HostRuntime) -> Result<(), Fail> {
    try_edits(&rt, rt.alloc())
}
