//! The refutation of a network by a cycle: which nodes are its lines, and which lines its walk
//! follows.

ghost use Rattle.std.specs.Prelude.{◌≡◌, ◌+◌, ◌<◌, ◌≤◌, ◌==◌, length, map, Some, IfOk, OnOk};
ghost use Rattle.std.specs.Prelude.{IsTrue};
ghost use Rattle.std.specs.List.{AllByRecursion, AllZip, Contains, list_any, position_or_len};
ghost use Rattle.closure_model.specs.Derivations.{node_at, premises_of, AreAncestors, IsNodeOf};
ghost use Rattle.closure_model.specs.Keys.{ordinary_key};
ghost use Rattle.closure_model.specs.ReferenceRounds.{cycle_keys, line_of, IsRefutationBy};
ghost use Rattle.example_references.specs.LinesFrom.{contains_node_id, is_premise, is_wanted};
ghost use Rattle.example_references.specs.LinesFrom.{AreLinesFrom};

use crate::nodes::node_for;
use closure_model::{Node, NodeId, Rule};
use net_model::{Edge, PointId};
use std::alloc::Global;
use std::test::Fail;

/// The nodes that are lines, in order of making, and the numbers of the lines of the walk, from 1.
#[derive(Drop)]
pub(crate) struct Refutation {
    pub(crate) lines: Vec<NodeId>,
    pub(crate) walk: Vec<u64>,
}

/// The lines are the nodes of the edges of the cycle and all on which they rest, the walk are the
/// edges of the cycle. It fails if a node has a premise that is not earlier, or an edge of the
/// cycle has no node.
pub(crate) fn refute(alloc: Global, nodes: &[Node], cycle: &[PointId]) -> Result<Refutation, Fail>
    ensures { IfOk result (λ made. IsRefutationBy nodes.now cycle.now made.lines.items
        made.walk.items) }
{
    let steps = steps_of(alloc, nodes, cycle)?;
    let lines = lines_of(alloc, nodes, steps.as_slice())?;
    let walk = walk_along(alloc, lines.as_slice(), steps.as_slice())?;
    Ok(Refutation { lines, walk })
}

/// The nodes of the edges of a cycle, in order.
fn steps_of(alloc: Global, nodes: &[Node], cycle: &[PointId]) -> Result<Vec<NodeId>, Fail>
    ensures { IfOk result (λ steps. AllZip (IsNodeOf nodes.now)
        (cycle_keys cycle.now) steps.items) }
{
    let mut steps = Vec::new(alloc);
    let Some((first, points)) = cycle.split_first() else {
        return Ok(steps);
    };
    let mut last = *first;
    for point in points {
        let id = step(nodes, last, *point)?;
        steps.push(id)?;
        last = *point;
    }
    let closing = step(nodes, last, *first)?;
    steps.push(closing)?;
    Ok(steps)
}

/// The node of the ordinary edge from one point to another.
fn step(nodes: &[Node], from: PointId, to: PointId) -> Result<NodeId, Fail>
    ensures { IfOk result (IsNodeOf nodes.now (ordinary_key from to)) }
{
    let edge = Edge {
        from,
        to,
        label: None,
        weight: 0,
    };
    match node_for(nodes, &edge) {
        Some(id) => Ok(id),
        None => Err(Fail::from("an edge of the cycle has no node")),
    }
}

/// The nodes of the steps and all on which they rest: from the last node to the first, each that is
/// a step or a premise of a line.
fn lines_of(alloc: Global, nodes: &[Node], steps: &[NodeId]) -> Result<Vec<NodeId>, Fail>
    requires { (id : NodeId) → Contains steps.now id → id.0 < length nodes.now }
    ensures { IfOk result (λ lines. AreAncestors nodes.now steps.now lines.items) }
{
    let mut lines = Vec::new(alloc);
    for passed in 0..nodes.len() {
        let place = nodes.len() - 1 - passed;
        put_line(nodes, steps, NodeId(place as u64), &mut lines)?;
    }
    Ok(lines)
}

/// Puts a node before the lines after it, if it is a step or a premise of one of them.
fn put_line(
    nodes: &[Node],
    steps: &[NodeId],
    id: NodeId,
    lines: &mut Vec<NodeId>,
) -> Result<(), Fail>
    requires { AreLinesFrom nodes.now steps.now (id.0 + 1) lines.old.items }
    ensures { OnOk result (AreLinesFrom nodes.now steps.now id.0 lines.new.items) }
{
    if is_wanted(nodes, steps, lines.as_slice(), id) {
        if !has_earlier_premises(nodes, id) {
            return Err(Fail::from("a premise that is not earlier"));
        }
        lines.insert(0, id)?;
    }
    Ok(())
}

fn is_wanted(nodes: &[Node], steps: &[NodeId], lines: &[NodeId], id: NodeId) -> bool
    ensures { result ≡ is_wanted nodes.now steps.now lines.now id }
{
    contains_node_id(steps, id) || has_premise(nodes, lines, id)
}

fn contains_node_id(ids: &[NodeId], id: NodeId) -> bool
    ensures { result ≡ contains_node_id ids.now id }
{
    ids.iter().any(|other| other.0 == id.0)
}

/// Whether a node is a premise of one of the lines.
fn has_premise(nodes: &[Node], lines: &[NodeId], id: NodeId) -> bool
    ensures { result ≡ list_any (λ (line : NodeId). is_premise nodes.now line id) lines.now }
{
    for line in lines {
        if is_premise(nodes, *line, id) {
            return true;
        }
    }
    false
}

fn is_premise(nodes: &[Node], id: NodeId, premise: NodeId) -> bool
    ensures { result ≡ is_premise nodes.now id premise }
{
    match nodes.get(id.0 as usize) {
        Some(node) => has_as_premise(&node.rule, premise),
        None => false,
    }
}

fn has_as_premise(rule: &Rule, premise: NodeId) -> bool
    ensures { result ≡ contains_node_id (premises_of rule.now) premise }
{
    match rule {
        Rule::Bound(_) => false,
        Rule::Link(_) => false,
        Rule::No(first, second) => first.0 == premise.0 || second.0 == premise.0,
        Rule::Up(first, second) => first.0 == premise.0 || second.0 == premise.0,
        Rule::Low(_, second) => second.0 == premise.0,
        Rule::Cross(_, second) => second.0 == premise.0,
        Rule::Drop(only) => only.0 == premise.0,
    }
}

/// Whether the premises of a node are all earlier.
fn has_earlier_premises(nodes: &[Node], id: NodeId) -> bool
    ensures { IsTrue result → (node : Node) → node_at nodes.now id ≡ Some node
        → AllByRecursion (λ (premise : NodeId). premise.0 < id.0) (premises_of node.rule) }
{
    match nodes.get(id.0 as usize) {
        Some(node) => is_all_before(&node.rule, id),
        None => false,
    }
}

fn is_all_before(rule: &Rule, id: NodeId) -> bool
    ensures { IsTrue result → AllByRecursion (λ (premise : NodeId). premise.0 < id.0)
        (premises_of rule.now) }
{
    match rule {
        Rule::Bound(_) => true,
        Rule::Link(_) => true,
        Rule::No(first, second) => first.0 < id.0 && second.0 < id.0,
        Rule::Up(first, second) => first.0 < id.0 && second.0 < id.0,
        Rule::Low(_, second) => second.0 < id.0,
        Rule::Cross(_, second) => second.0 < id.0,
        Rule::Drop(premise) => premise.0 < id.0,
    }
}

/// The numbers of the lines of the steps, in their order.
fn walk_along(alloc: Global, lines: &[NodeId], steps: &[NodeId]) -> Result<Vec<u64>, Fail>
    ensures { IfOk result (λ walk. walk.items ≡ map (line_of lines.now) steps.now) }
{
    let mut walk = Vec::new(alloc);
    for step in steps {
        walk.push(line_of(lines, *step))?;
    }
    Ok(walk)
}

/// The number of the line of a node, from 1.
fn line_of(lines: &[NodeId], id: NodeId) -> u64
    ensures { result ≡ line_of lines.now id }
{
    place_in(lines, id) as u64 + 1
}

fn place_in(lines: &[NodeId], id: NodeId) -> usize
    ensures inside { result ≤ length lines.now }
    ensures place { result ≡ position_or_len (λ (line : NodeId). line.0 == id.0) lines.now }
{
    for (place, line) in lines.iter().enumerate() {
        if *line == id {
            return place;
        }
    }
    lines.len()
}
