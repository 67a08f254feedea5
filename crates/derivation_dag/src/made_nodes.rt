//! The nodes of the edges that a row made.

ghost use Rattle.std.specs.Prelude.{◌≡◌, OnOk};
ghost use Rattle.std.specs.List.{All};
ghost use Rattle.closure_model.specs.ReferenceRound.{node_for};
ghost use Rattle.derivation_dag.specs.Rows.{nodes_with, nodes_with_all, rule_with, HasRule};
ghost use Rattle.derivation_dag.specs.Rows.{HaveRules};
ghost use Rattle.derivation_dag.specs.Numbers.{IsBelowAll, IsBelowFirst};

use crate::node_list::NodeList;
use crate::supports::MadeRow;
use closure_model::rows::{Made, Why};
use closure_model::{Node, NodeId, Rule};
use net_model::{Edge, Network};
use std::alloc::AllocError;

/// Puts the nodes of the edges that a row made at the end of a list, one after another. Each is
/// below the nodes of its key that the list has.
pub(crate) fn push_row<L: NodeList>(
    net: &Network,
    list: &mut L,
    row: &MadeRow<'_>,
) -> Result<(), AllocError>
    requires rules { HaveRules net.now (L.nodes list.old) row.now.made.now row.now.firsts.now }
    requires below { All (λ one. IsBelowAll (L.nodes list.old) one.edge) row.now.made.now }
    ensures { OnOk result (L.nodes list.new ≡ nodes_with_all (L.nodes list.old) row.now.made.now
        row.now.firsts.now) }
{
    let first = list.len();
    let mut firsts = row.firsts;
    for one in row.made {
        let Some((premise, rest)) = firsts.split_first() else {
            return Ok(());
        };
        push_made(net, list, one, *premise, first)?;
        firsts = rest;
    }
    Ok(())
}

/// Puts the node of an edge that a row made at the end of a list. It is below those of its key
/// among so many first ones.
fn push_made<L: NodeList>(
    net: &Network,
    list: &mut L,
    one: &Made,
    premise: Option<NodeId>,
    first: u64,
) -> Result<(), AllocError>
    requires rule { HasRule net.now (L.nodes list.old) one.now premise }
    requires below { IsBelowFirst (L.nodes list.old) first one.now.edge }
    ensures { OnOk result (L.nodes list.new ≡ nodes_with (L.nodes list.old) one.now premise) }
{
    let edge = one.edge;
    if let Some(rule) = rule_of(list, &one.why, premise) {
        list.push_below(net, Node { rule, edge }, first)?;
    }
    Ok(())
}

/// The rule of the node of an improved edge: its premise in the row is the node that the key now
/// has.
fn rule_of<L: NodeList>(list: &L, why: &Why, first: Option<NodeId>) -> Option<Rule>
    ensures { result ≡ rule_with (L.nodes list.now) first why.now }
{
    match why {
        Why::No(_, second) => Some(Rule::No(first?, node_of(list, second)?)),
        Why::Up(_, second) => Some(Rule::Up(first?, node_of(list, second)?)),
        Why::Low(link, second) => Some(Rule::Low(*link, node_of(list, second)?)),
        Why::Cross(link, second) => Some(Rule::Cross(*link, node_of(list, second)?)),
        Why::Drop(premise) => Some(Rule::Drop(node_of(list, premise)?)),
    }
}

/// The node of the key of an edge.
fn node_of<L: NodeList>(list: &L, edge: &Edge) -> Option<NodeId>
    ensures { result ≡ node_for (L.nodes list.now) edge.now }
{
    list.newest(edge)
}
