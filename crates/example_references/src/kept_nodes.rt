//! What is kept of a derivation list when its network is edited, by marks.

ghost use Rattle.std.specs.Prelude.{◌≡◌, ◌++◌, ◌∷◌, [], filter, take, not, IfOk, OnOk};
ghost use Rattle.std.specs.List.{count_by};
ghost use Rattle.edit_laws.specs.KeptLists.{followed};
ghost use Rattle.edit_laws.specs.EditNumbers.{new_base_nodes};
ghost use Rattle.example_references.specs.Marks.{numbers, mark_at, kept_place, rule_after};
ghost use Rattle.example_references.specs.Marks.{node_after, is_new_base, with_some};

use crate::edited_network::Edited;
use crate::rounds::base_nodes;
use closure_model::{Node, NodeId, Rule};
use std::alloc::Global;
use std::test::Fail;

/// What is kept of a derivation list. Node after node, one is marked if it has no new numbers, and
/// else kept with these.
pub(crate) fn followed(alloc: Global, edited: &Edited, nodes: &[Node]) -> Result<Vec<Node>, Fail>
    ensures { IfOk result (λ kept. kept.items ≡ (followed (numbers edited.now) nodes.now).kept) }
{
    let mut marks = Vec::new(alloc);
    let mut kept = Vec::new(alloc);
    for node in nodes {
        let made = node_after(edited, marks.as_slice(), node);
        marks.push(made.is_none())?;
        push_some(&mut kept, made)?;
    }
    Ok(kept)
}

/// The base nodes of what is new after an edit: those of bounds and then those of links, each in
/// order.
pub(crate) fn new_base_nodes(alloc: Global, edited: &Edited) -> Result<Vec<Node>, Fail>
    ensures { IfOk result (λ nodes. nodes.items ≡ new_base_nodes edited.now.before.now
        edited.now.edit.now edited.now.after.now) }
{
    let base = base_nodes(alloc, edited.after)?;
    new_among(alloc, edited, base.as_slice())
}

/// Those base nodes that are new.
fn new_among(alloc: Global, edited: &Edited, base: &[Node]) -> Result<Vec<Node>, Fail>
    ensures { IfOk result (λ nodes. nodes.items ≡ filter (λ node. is_new_base edited.now node.rule)
        base.now) }
{
    let nodes = base
        .iter()
        .filter(|node| edited.is_new_base(&node.rule))
        .copied()
        .collect(alloc)?;
    Ok(nodes)
}

fn push_some(nodes: &mut Vec<Node>, node: Option<Node>) -> Result<(), Fail>
    ensures { OnOk result (nodes.new.items ≡ with_some nodes.old.items node) }
{
    if let Some(node) = node {
        nodes.push(node)?;
    }
    Ok(())
}

/// A node with its new numbers, if it rests on nothing taken away. `marks` are those of the nodes
/// before it.
fn node_after(edited: &Edited, marks: &[bool], node: &Node) -> Option<Node>
    ensures { result ≡ node_after (numbers edited.now) marks.now node.now }
{
    Some(Node {
        rule: rule_after(edited, marks, &node.rule)?,
        edge: edited.edge(&node.edge),
    })
}

fn rule_after(edited: &Edited, marks: &[bool], rule: &Rule) -> Option<Rule>
    ensures { result ≡ rule_after (numbers edited.now) marks.now rule.now }
{
    match rule {
        Rule::Bound(bound) => Some(Rule::Bound(edited.bound(*bound)?)),
        Rule::Link(link) => Some(Rule::Link(edited.link(*link)?)),
        Rule::No(first, second) => Some(Rule::No(
            place_of(marks, *first)?,
            place_of(marks, *second)?,
        )),
        Rule::Up(first, second) => Some(Rule::Up(
            place_of(marks, *first)?,
            place_of(marks, *second)?,
        )),
        Rule::Low(link, second) => {
            Some(Rule::Low(edited.link(*link)?, place_of(marks, *second)?))
        }
        Rule::Cross(link, second) => {
            Some(Rule::Cross(edited.link(*link)?, place_of(marks, *second)?))
        }
        Rule::Drop(premise) => Some(Rule::Drop(place_of(marks, *premise)?)),
    }
}

/// The number of a node among the kept ones, if it is kept: how many before it are.
fn place_of(marks: &[bool], id: NodeId) -> Option<NodeId>
    ensures { result ≡ kept_place marks.now id }
{
    if mark_at(marks, id) {
        None
    } else {
        Some(NodeId(kept_before(marks, id.0 as usize) as u64))
    }
}

fn mark_at(marks: &[bool], id: NodeId) -> bool
    ensures { result ≡ mark_at marks.now id }
{
    match marks.get(id.0 as usize) {
        Some(mark) => *mark,
        None => true,
    }
}

fn kept_before(marks: &[bool], place: usize) -> usize
    ensures { result ≡ count_by (λ mark. not mark) (take place marks.now) }
{
    marks.iter().take(place).filter(|mark| !**mark).count()
}
