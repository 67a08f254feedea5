//! Networks, points and nodes by the words of a text.

use closure_model::{Node, NodeId, Rule};
pub(crate) use example_plans::network;
use net_model::{Edge, LinkId, Network, PointId};
use std::str::SplitWhitespace;

fn point(net: &Network, word: Option<&str>) -> Option<PointId> {
    net.point(word?.as_bytes())
}

/// The link that ends in the point of a name.
fn link(net: &Network, word: Option<&str>) -> Option<LinkId> {
    let to = point(net, word)?;
    let place = net.links().iter().position(|link| link.to == to)?;
    Some(LinkId(place as u32))
}

/// The points of a text, in their order.
pub(crate) fn are_points(net: &Network, points: &[PointId], text: &str) -> bool {
    let mut words = text.split_whitespace();
    for expected in points {
        if point(net, words.next()) != Some(*expected) {
            return false;
        }
    }
    words.next().is_none()
}

/// A node by the number of its line, from 1.
fn premise(word: Option<&str>) -> Option<NodeId> {
    let number: u64 = word?.parse().ok()?;
    Some(NodeId(number.checked_sub(1)?))
}

/// The rule of a line: its word, and what it names.
fn rule(net: &Network, words: &mut SplitWhitespace<'_>) -> Option<Rule> {
    match words.next()? {
        "bound" => bound_rule(net, words.next()),
        "link" => Some(Rule::Link(link(net, words.next())?)),
        "drop" => Some(Rule::Drop(premise(words.next())?)),
        "low" => low_rule(net, words),
        "cross" => cross_rule(net, words),
        "no" => no_rule(words),
        "up" => up_rule(words),
        _ => None,
    }
}

fn bound_rule(net: &Network, word: Option<&str>) -> Option<Rule> {
    let bound = net.bound(word?.as_bytes())?;
    Some(Rule::Bound(bound))
}

fn low_rule(net: &Network, words: &mut SplitWhitespace<'_>) -> Option<Rule> {
    let link = link(net, words.next())?;
    Some(Rule::Low(link, premise(words.next())?))
}

fn cross_rule(net: &Network, words: &mut SplitWhitespace<'_>) -> Option<Rule> {
    let link = link(net, words.next())?;
    Some(Rule::Cross(link, premise(words.next())?))
}

fn no_rule(words: &mut SplitWhitespace<'_>) -> Option<Rule> {
    let first = premise(words.next())?;
    Some(Rule::No(first, premise(words.next())?))
}

fn up_rule(words: &mut SplitWhitespace<'_>) -> Option<Rule> {
    let first = premise(words.next())?;
    Some(Rule::Up(first, premise(words.next())?))
}

/// The label of the edge of a line: the line of a link has it as its link, that of an upper-case or
/// cross-case edge names it.
fn label(net: &Network, rule: Rule, words: &mut SplitWhitespace<'_>) -> Option<Option<LinkId>> {
    match rule {
        Rule::Link(link) => Some(Some(link)),
        Rule::Up(_, _) | Rule::Cross(_, _) => Some(Some(link(net, words.next())?)),
        _ => Some(None),
    }
}

/// The node of a line, whose premises have the numbers of earlier lines.
pub(crate) fn node(net: &Network, text: &str) -> Option<Node> {
    let mut words = text.split_whitespace();
    let rule = rule(net, &mut words)?;
    let edge = edge(net, rule, &mut words)?;
    Some(Node { rule, edge })
}

fn edge(net: &Network, rule: Rule, words: &mut SplitWhitespace<'_>) -> Option<Edge> {
    let from = point(net, words.next())?;
    let to = point(net, words.next())?;
    let label = label(net, rule, words)?;
    let weight = words.next()?.parse().ok()?;
    Some(Edge {
        from,
        to,
        label,
        weight,
    })
}

/// Whether nodes are those of the lines of a text, with `|` between them.
pub(crate) fn are_nodes(net: &Network, nodes: &[Node], text: &str) -> bool {
    let mut lines = text.split('|');
    for expected in nodes {
        if lines.next().and_then(|line| node(net, line)) != Some(*expected) {
            return false;
        }
    }
    lines.next().is_none()
}

/// Whether nodes have the numbers of a text, counted from 1.
pub(crate) fn are_lines(ids: &[NodeId], text: &str) -> bool {
    let mut words = text.split_whitespace();
    for id in ids {
        if premise(words.next()) != Some(*id) {
            return false;
        }
    }
    words.next().is_none()
}

pub(crate) fn are_numbers(numbers: &[u64], text: &str) -> bool {
    let mut words = text.split_whitespace();
    for number in numbers {
        if words.next().and_then(|word| word.parse().ok()) != Some(*number) {
            return false;
        }
    }
    words.next().is_none()
}
