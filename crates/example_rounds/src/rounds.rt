//! Rounds of small networks, node by node, and the refutations in which they end.

ghost use Rattle.std.specs.Prelude.{◌<◌, ◌≤◌, length, IfSome, IfOk};
ghost use Rattle.std.specs.List.{All};

use crate::networks::network;
use derivation_dag::{Dag, Node, NodeId, Plain, Rule, Supports};
use net_model::{BoundId, Edge, LinkId, Name, Network, PointId};
use parallel_rounds::{NoGate, Outcome, propagate};
use std::alloc::Global;
use std::process::Abort;
use std::test::Fail;
use std::thread::Threads;

/// The name of a point.
fn point_name(net: &Network, point: PointId) -> Option<Name> {
    net.points().get(point.0 as usize).copied()
}

/// The name of a link: that of the point in which it ends.
fn link_name(net: &Network, link: LinkId) -> Option<Name> {
    let link = net.links().get(link.0 as usize).copied()?;
    point_name(net, link.to)
}

fn bound_name(net: &Network, bound: BoundId) -> Option<Name> {
    let bound = net.bounds().get(bound.0 as usize).copied()?;
    Some(bound.name)
}

/// The number of the line of a node, from 1.
fn line_of(lines: &[NodeId], id: NodeId) -> Option<usize> {
    for (place, line) in lines.iter().enumerate() {
        if *line == id {
            return Some(place + 1);
        }
    }
    None
}

/// What stands in a line after the word of its rule.
#[derive(Clone, Copy)]
enum Piece {
    Nothing,
    Name(Option<Name>),
    Premise(NodeId),
}

/// The word of a rule, the name that it states, and its premises.
fn pieces(net: &Network, rule: Rule) -> (&'static str, Piece, Piece) {
    match rule {
        Rule::Bound(bound) => ("bound", Piece::Name(bound_name(net, bound)), Piece::Nothing),
        Rule::Link(link) => ("link", Piece::Name(link_name(net, link)), Piece::Nothing),
        Rule::No(first, second) => ("no", Piece::Premise(first), Piece::Premise(second)),
        Rule::Up(first, second) => ("up", Piece::Premise(first), Piece::Premise(second)),
        Rule::Low(link, second) => {
            (
                "low",
                Piece::Name(link_name(net, link)),
                Piece::Premise(second),
            )
        }
        Rule::Cross(link, second) => {
            (
                "cross",
                Piece::Name(link_name(net, link)),
                Piece::Premise(second),
            )
        }
        Rule::Drop(premise) => ("drop", Piece::Premise(premise), Piece::Nothing),
    }
}

/// A blank and a name.
fn push_name(name: Option<Name>, text: &mut String) -> Result<(), Fail> {
    match name {
        Some(name) => Ok(write!(text, " {name}")?),
        None => Err(Fail::from("no name")),
    }
}

/// A blank and a number.
fn push_number(number: Option<usize>, text: &mut String) -> Result<(), Fail> {
    match number {
        Some(number) => Ok(write!(text, " {number}")?),
        None => Err(Fail::from("no line")),
    }
}

fn push_piece(
    alloc: Global,
    lines: &[NodeId],
    piece: Piece,
    text: &mut String,
) -> Result<(), Fail> {
    match piece {
        Piece::Nothing => Ok(()),
        Piece::Name(name) => push_name(name, text),
        Piece::Premise(id) => push_number(line_of(lines, id), text),
    }
}

/// The first words of a line: the rule and its premises.
fn push_rule(
    alloc: Global,
    net: &Network,
    lines: &[NodeId],
    rule: Rule,
    text: &mut String,
) -> Result<(), Fail> {
    let (word, first, second) = pieces(net, rule);
    text.push_str(word)?;
    push_piece(alloc, lines, first, text)?;
    push_piece(alloc, lines, second, text)
}

/// The label as a line has it: a link's own edge has none.
fn label_of(node: &Node) -> Option<LinkId> {
    match node.rule {
        Rule::Link(_) => None,
        _ => node.edge.label,
    }
}

fn push_label(alloc: Global, net: &Network, node: &Node, text: &mut String) -> Result<(), Fail> {
    match label_of(node) {
        Some(label) => push_name(link_name(net, label), text),
        None => Ok(()),
    }
}

fn push_weight(weight: i64, text: &mut String) -> Result<(), Fail> {
    Ok(write!(text, " {weight}|")?)
}

/// A node as the line of a refutation.
fn push_line(
    alloc: Global,
    net: &Network,
    lines: &[NodeId],
    node: &Node,
    text: &mut String,
) -> Result<(), Fail> {
    push_rule(alloc, net, lines, node.rule, text)?;
    push_name(point_name(net, node.edge.from), text)?;
    push_name(point_name(net, node.edge.to), text)?;
    push_label(alloc, net, node, text)?;
    push_weight(node.edge.weight, text)
}

/// The lines of nodes of a list.
fn push_lines(
    alloc: Global,
    net: &Network,
    dag: &Dag,
    lines: &[NodeId],
    text: &mut String,
) -> Result<(), Fail> {
    for id in lines {
        if id.0 < dag.len() {
            push_line(alloc, net, lines, dag.node(*id), text)?;
        }
    }
    Ok(())
}

/// The lines of all nodes of a list.
pub(crate) fn push_nodes(
    alloc: Global,
    net: &Network,
    dag: &Dag,
    text: &mut String,
) -> Result<(), Fail> {
    let ids = all_ids(alloc, dag)?;
    push_lines(alloc, net, dag, ids.as_slice(), text)
}

fn all_ids(alloc: Global, dag: &Dag) -> Result<Vec<NodeId>, Fail> {
    let mut ids = Vec::new(alloc);
    for id in 0..dag.len() {
        ids.push(NodeId(id))?;
    }
    Ok(ids)
}

/// The nodes of the edges of a cycle, in its order.
fn steps(alloc: Global, store: &Plain, cycle: &[PointId]) -> Result<Vec<NodeId>, Fail>
    ensures { IfOk result (λ ids. All (λ id. id.0 < length store.now.nodes) ids.items) }
{
    let mut ids = Vec::new(alloc);
    for (place, from) in cycle.iter().enumerate() {
        match step(store, cycle, place, *from) {
            Some(id) => ids.push(id)?,
            None => return Err(Fail::from("no edge")),
        }
    }
    Ok(ids)
}

/// The node of the edge from the point of a cycle at a place to the next.
fn step(store: &Plain, cycle: &[PointId], place: usize, from: PointId) -> Option<NodeId>
    ensures { IfSome result (λ id. id.0 < length store.now.nodes) }
{
    let to = cycle.get(place.saturating_add(1)).or(cycle.first())?;
    node_of(store, from, *to)
}

fn node_of(store: &Plain, from: PointId, to: PointId) -> Option<NodeId>
    ensures { IfSome result (λ id. id.0 < length store.now.nodes) }
{
    let id = store.newest(&Edge {
        from,
        to,
        label: None,
        weight: 0,
    })?;
    if id.0 >= store.dag().len() {
        return None;
    }
    Some(id)
}

/// The rounds of a network: all nodes; and the count of rounds, with the order or the refutation in
/// which they end.
#[derive(Drop)]
struct RoundTexts {
    nodes: String,
    end: String,
}

fn shown<R: Threads + Sync>(
    rt: &R,
    alloc: Global,
    parts: &str,
    workers: u32,
) -> Result<RoundTexts, Fail>
    requires { (1 ≤ workers) × (workers ≤ 64) }
{
    let mut shown = RoundTexts {
        nodes: String::new(alloc),
        end: String::new(alloc),
    };
    show(rt, alloc, parts, workers, &mut shown)?;
    Ok(shown)
}

fn show<R: Threads + Sync>(
    rt: &R,
    alloc: Global,
    parts: &str,
    workers: u32,
    shown: &mut RoundTexts,
) -> Result<(), Fail>
    requires { (1 ≤ workers) × (workers ≤ 64) }
{
    let net = network(alloc, parts)?;
    show_rounds(rt, alloc, &net, workers, shown)
}

fn show_rounds<R: Threads + Sync>(
    rt: &R,
    alloc: Global,
    net: &Network,
    workers: u32,
    shown: &mut RoundTexts,
) -> Result<(), Fail>
    requires { (1 ≤ workers) × (workers ≤ 64) }
{
    let mut store = Plain::of(alloc, net)?;
    let outcome = propagate(rt, alloc, net, &mut store, workers, &NoGate)?;
    show_outcome(alloc, net, &store, &outcome, shown)
}

fn show_outcome(
    alloc: Global,
    net: &Network,
    store: &Plain,
    outcome: &Outcome,
    shown: &mut RoundTexts,
) -> Result<(), Fail> {
    push_nodes(alloc, net, store.dag(), &mut shown.nodes)?;
    show_end(alloc, net, store, outcome, &mut shown.end)
}

fn show_end(
    alloc: Global,
    net: &Network,
    store: &Plain,
    outcome: &Outcome,
    end: &mut String,
) -> Result<(), Fail> {
    match outcome {
        Outcome::Closed { rounds, order } => {
            write!(end, "closed {rounds}")?;
            push_order(alloc, net, order.as_slice(), end)
        }
        Outcome::Looped { rounds, cycle } => {
            write!(end, "looped {rounds}|")?;
            push_refutation(alloc, net, store, cycle.as_slice(), end)
        }
    }
}

fn push_order(
    alloc: Global,
    net: &Network,
    order: &[PointId],
    end: &mut String,
) -> Result<(), Fail> {
    for point in order {
        push_name(point_name(net, *point), end)?;
    }
    Ok(())
}

fn push_refutation(
    alloc: Global,
    net: &Network,
    store: &Plain,
    cycle: &[PointId],
    end: &mut String,
) -> Result<(), Fail> {
    let steps = steps(alloc, store, cycle)?;
    let lines = store.dag().ancestors(alloc, steps.as_slice())?;
    push_lines(alloc, net, store.dag(), lines.as_slice(), end)?;
    push_walk(alloc, lines.as_slice(), steps.as_slice(), end)
}

fn push_walk(
    alloc: Global,
    lines: &[NodeId],
    steps: &[NodeId],
    end: &mut String,
) -> Result<(), Fail> {
    for step in steps {
        end.push_str("walk")?;
        push_number(line_of(lines, *step), end)?;
        end.push_str("|")?;
    }
    Ok(())
}

/// How the rounds of each plan end, with so many workers.
fn try_ends<R: Threads + Sync + Abort>(rt: &R, alloc: Global, workers: u32) -> Result<(), Fail>
    requires { (1 ≤ workers) × (workers ≤ 64) }
{
    for (parts, end) in ENDS {
        try_end(rt, alloc, parts, end, workers)?;
    }
    Ok(())
}

fn try_end<R: Threads + Sync + Abort>(
    rt: &R,
    alloc: Global,
    parts: &str,
    end: &str,
    workers: u32,
) -> Result<(), Fail>
    requires { (1 ≤ workers) × (workers ≤ 64) }
{
    let shown = shown(rt, alloc, parts, workers)?;
    see_text_by(rt, shown.end.as_str(), end, parts, workers);
    Ok(())
}

/// A text is the expected one, of an input.
pub(crate) fn see_text(rt: &impl Abort, text: &str, expected: &str, input: &str) {
    assert_eq!(rt; text, expected, "{input}");
}

/// The same, with so many workers.
fn see_text_by(rt: &impl Abort, text: &str, expected: &str, input: &str, workers: u32) {
    assert!(rt;
        text == expected,
        "{input} by {workers}: {text}, not {expected}"
    );
}

/// The nodes of the rounds that are listed one by one, with so many workers.
fn try_nodes<R: Threads + Sync + Abort>(rt: &R, alloc: Global, workers: u32) -> Result<(), Fail>
    requires { (1 ≤ workers) × (workers ≤ 64) }
{
    let shown = shown(rt, alloc, ONE_LINK, workers)?;
    see_text_by(rt, shown.nodes.as_str(), ONE_LINK_NODES, ONE_LINK, workers);
    Ok(())
}

/// The plan whose rounds are listed one by one.
const ONE_LINK: &str = "point A|point C|point D|bound b1 D C 1|bound b2 C D -1|link A 3 8 C";

/// Its nodes: those of the bounds and the link, six of round 1, two of round 2.
const ONE_LINK_NODES: &str =
    "bound b1 D C 1|bound b2 C D -1|link C C A -8|up 1 3 D A C -7|drop 3 C A -3|drop 4 D A -3|low C 5 A A 0|no 1 2 D D 0|low C 2 A D 2|up 9 4 A A C -5|drop 10 A A -3|";

/// Plans, and how their rounds end.
const ENDS: [(&str, &str); 7] = [
    (
        ONE_LINK,
        "looped 2|bound b1 D C 1|bound b2 C D -1|link C C A -8|up 1 3 D A C -7|low C 2 A D 2|up 5 4 A A C -5|drop 6 A A -3|walk 7|",
    ),
    (
        "point A|point B|bound b1 A B 3|bound b2 B A -5",
        "looped 1|bound b1 A B 3|bound b2 B A -5|no 1 2 A A -2|walk 3|",
    ),
    (
        "point A|point B|link A 1 2 B|link B 1 2 A",
        "looped 1|link B B A -2|link A A B -2|drop 1 B A -1|drop 2 A B -1|walk 4|walk 3|",
    ),
    (
        "point A1|point C1|point A2|point C2|bound p A1 C2 2|bound q A2 C1 2|link A1 1 10 C1|link A2 1 10 C2",
        "looped 1|bound p A1 C2 2|bound q A2 C1 2|link C1 C1 A1 -10|link C2 C2 A2 -10|up 2 3 A2 A1 C1 -8|drop 5 A2 A1 -1|up 1 4 A1 A2 C2 -8|drop 7 A1 A2 -1|walk 8|walk 6|",
    ),
    (
        "point X|point Y|point Z|bound a X Y 0|bound b Y X 0|bound g X Z -5|bound c Z X 3",
        "looped 1|bound g X Z -5|bound c Z X 3|no 2 1 Z Z -2|walk 3|",
    ),
    (
        "point A|point B|bound b1 A B 5|bound b2 B A -2",
        "closed 2 A B",
    ),
    ("point A", "closed 1 A"),
];

#[test]
fn nodes_of_rounds(rt: HostRuntime) -> Result<(), Fail> {
    try_nodes(&rt, rt.alloc(), 1)?;
    try_nodes(&rt, rt.alloc(), 2)?;
    try_nodes(&rt, rt.alloc(), 7)?;
    try_nodes(&rt, rt.alloc(), 64)
}

#[test]
fn ends_of_rounds(rt: HostRuntime) -> Result<(), Fail> {
    try_ends(&rt, rt.alloc(), 1)?;
    try_ends(&rt, rt.alloc(), 2)?;
    try_ends(&rt, rt.alloc(), 7)?;
    try_ends(&rt, rt.alloc(), 64)
}
