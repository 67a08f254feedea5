//! Rule lines, made of nodes.

ghost use Rattle.std.specs.Prelude.{◌≡◌, ◌<◌, ◌++◌, ◌∷◌, [], true, length, IfOk, OnOk, IfSome};
ghost use Rattle.std.specs.Prelude.{IsSome};
ghost use Rattle.std.specs.List.{AllByRecursion, Contains};
ghost use Rattle.closure_model.specs.Derivations.{item_of, premises_of};
ghost use Rattle.closure_model.specs.ReferenceRounds.{line_of};
ghost use Rattle.cert_format.specs.Kind.{has_label};
ghost use Rattle.derivation_dag.specs.Pruned.{AreNumbered, numbers_in};
ghost use Rattle.refutation_certificates.specs.Certificates.{kind_of, label_name, only_if};
ghost use Rattle.refutation_certificates.specs.Certificates.{rule_line_of_node, lines_by};
ghost use Rattle.refutation_certificates.specs.RuleLines.{IsItemOf, AreInOrderOfMaking, CanBeLine};
ghost use Rattle.refutation_certificates.specs.RuleLines.{CanBeLines};

use crate::names::{bound_name, link_name};
use cert_format::{CertLine, LineKind};
use derivation_dag::{Dag, Node, NodeId, Numbered, Pruned, Rule};
use net_model::{LinkId, Name, Network};
use std::alloc::{AllocError, Global};

/// Nodes as rule lines, in their order.
pub(crate) fn lines_by(
    alloc: Global,
    net: &Network,
    dag: &Dag,
    lines: &[NodeId],
) -> Result<Vec<CertLine>, AllocError>
    requires { CanBeLines net.now dag.now lines.now }
    ensures { IfOk result (λ made. made.items ≡ lines_by net.now dag.now lines.now) }
{
    let mut made = Vec::new(alloc);
    for id in lines {
        push_line(&mut made, net, lines, dag.node(*id))?;
    }
    Ok(made)
}

/// Nodes of a list, which have these numbers there, as rule lines, in their order.
pub(crate) fn lines_of(
    alloc: Global,
    net: &Network,
    store: &Pruned,
    lines: &[NodeId],
    nodes: &[Numbered],
) -> Result<Vec<CertLine>, AllocError>
    requires can { CanBeLines net.now store.now.nodes lines.now }
    requires numbers { lines.now ≡ numbers_in nodes.now }
    requires numbered { AreNumbered store.now.nodes nodes.now }
    ensures { IfOk result (λ made. made.items ≡ lines_by net.now store.now.nodes lines.now) }
{
    let _ = store;
    let mut made = Vec::new(alloc);
    for numbered in nodes {
        push_line(&mut made, net, lines, &numbered.node)?;
    }
    Ok(made)
}

/// One node more as a rule line.
fn push_line(
    made: &mut Vec<CertLine>,
    net: &Network,
    lines: &[NodeId],
    node: &Node,
) -> Result<(), AllocError>
    requires in_order { AreInOrderOfMaking lines.now }
    requires can { CanBeLine net.now lines.now node.now }
    ensures { OnOk result (made.new.items ≡ made.old.items ++ rule_line_of_node net.now lines.now
        node.now ∷ []) }
{
    let kind = kind_of(net, lines, &node.rule);
    let label = label_of(net, &kind, node.edge.label);
    made.push(CertLine {
        kind,
        from: *net.point_name(node.edge.from),
        to: *net.point_name(node.edge.to),
        label,
        weight: node.edge.weight,
    })?;
    Ok(())
}

/// What the line of a rule names.
fn kind_of(net: &Network, lines: &[NodeId], rule: &Rule) -> LineKind
    requires in_order { AreInOrderOfMaking lines.now }
    requires item { IfSome (item_of rule.now) (IsItemOf net.now) }
    requires premises { AllByRecursion (Contains lines.now) (premises_of rule.now) }
    ensures { result ≡ kind_of net.now lines.now rule.now }
{
    match rule {
        Rule::Bound(bound) => LineKind::Bound(bound_name(net, *bound)),
        Rule::Link(link) => LineKind::Link(link_name(net, *link)),
        Rule::No(first, second) => LineKind::No(line_of(lines, *first), line_of(lines, *second)),
        Rule::Up(first, second) => LineKind::Up(line_of(lines, *first), line_of(lines, *second)),
        Rule::Low(link, second) => LineKind::Low(link_name(net, *link), line_of(lines, *second)),
        Rule::Cross(link, second) => {
            LineKind::Cross(link_name(net, *link), line_of(lines, *second))
        }
        Rule::Drop(premise) => LineKind::Drop(line_of(lines, *premise)),
    }
}

/// The label that a line of a kind names.
fn label_of(net: &Network, kind: &LineKind, label: Option<LinkId>) -> Option<Name>
    requires within { IfSome label (λ label. label.0 < length net.now.links) }
    requires labelled { has_label kind.now ≡ true → IsSome label }
    ensures { result ≡ only_if (has_label kind.now) (label_name net.now label) }
{
    match kind {
        LineKind::Up(..) | LineKind::Cross(..) => Some(link_name(net, label?)),
        _ => None,
    }
}

/// The number of the line of a node.
pub(crate) fn line_of(lines: &[NodeId], id: NodeId) -> u64
    requires in_order { AreInOrderOfMaking lines.now }
    requires there { Contains lines.now id }
    ensures { result ≡ line_of lines.now id }
{
    lines.partition_point(|line| line.0 < id.0) as u64 + 1
}
