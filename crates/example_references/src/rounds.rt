//! The rounds of a network, from its base nodes to a closed table or to a cycle.

ghost use Rattle.std.specs.Prelude.{◌≡◌, ◌++◌, ◌==◌, fold, map, length, not, IfOk, OnOk};
ghost use Rattle.std.specs.List.{enumerate_from};
ghost use Rattle.net_model.specs.Network.{Plan};
ghost use Rattle.closure_model.specs.Derivations.{base_nodes, base_support, bound_node, link_node};
ghost use Rattle.closure_model.specs.ReferenceRound.{rule_for, with_one, round_made, after_round};
ghost use Rattle.closure_model.specs.ReferenceRounds.{RoundsEnd};
ghost use Rattle.example_references.specs.Ends.{rounds_ending_of};
ghost use Rattle.example_references.specs.NodeTables.{table_in, support_in};

use crate::ending::Ending;
use crate::nodes::{node_for, points};
use crate::orders::sought;
use crate::rows::row;
use closure_model::rows::{Made, Why};
use closure_model::{Node, Rule};
use net_model::{BoundId, LinkId, Network, PointId, bound_edge, link_edge};
use std::alloc::Global;
use std::test::Fail;

/// Makes the rounds from nodes, and says how many were made and how they end. The nodes are then
/// those of the rounds too.
pub(crate) fn rounds(
    alloc: Global,
    net: &Network,
    nodes: &mut Vec<Node>,
) -> Result<(u64, Ending), Fail>
    ensures { IfOk result (λ end. RoundsEnd net.now (support_in net.now nodes.old.items) end.0
        (support_in net.now nodes.new.items) (rounds_ending_of end.1)) }
{
    for count in 0..u64::MAX {
        match sought(alloc, net, nodes.as_slice())? {
            Ending::Looped(cycle) => return Ok((count, Ending::Looped(cycle))),
            Ending::Closed(order) => {
                if !round(alloc, net, nodes)? {
                    return Ok((count + 1, Ending::Closed(order)));
                }
            }
        }
    }
    Err(Fail::from("the rounds do not end"))
}

/// Makes one round, and says whether anything improved in it.
pub(crate) fn round(alloc: Global, net: &Network, nodes: &mut Vec<Node>) -> Result<bool, Fail>
    ensures after { OnOk result (support_in net.now nodes.new.items ≡ after_round net.now
        (support_in net.now nodes.old.items)) }
    ensures improved { IfOk result
        (λ improved. improved ≡ not (length
        (round_made net.now (table_in net.now nodes.old.items)) == 0)) }
{
    let made = round_made(alloc, net, nodes.as_slice())?;
    push_made(alloc, made.as_slice(), nodes)?;
    Ok(!made.is_empty())
}

/// The edges that improve in a round: the rows of all targets, each against the same table.
fn round_made(alloc: Global, net: &Network, nodes: &[Node]) -> Result<Vec<Made>, Fail>
    ensures { IfOk result (λ made. made.items ≡ round_made net.now (table_in net.now nodes.now)) }
{
    let count = points(net);
    let mut made = Vec::new(alloc);
    for target in 0..count {
        let row = row(alloc, net, nodes, PointId(target))?;
        made.extend_from_slice(row.as_slice())?;
    }
    Ok(made)
}

/// Gives each edge that improved its node, in their order.
fn push_made(alloc: Global, made: &[Made], nodes: &mut Vec<Node>) -> Result<(), Fail>
    ensures { OnOk result ((net : Plan)
        → support_in net nodes.new.items ≡ fold (with_one nodes.old.items)
        (support_in net nodes.old.items) made.now) }
{
    let mut before = Vec::new(alloc);
    before.extend_from_slice(nodes.as_slice())?;
    for one in made {
        push_node(before.as_slice(), one, nodes)?;
    }
    Ok(())
}

/// Gives an edge that improved its node.
fn push_node(before: &[Node], made: &Made, nodes: &mut Vec<Node>) -> Result<(), Fail>
    ensures { OnOk result ((net : Plan)
        → support_in net nodes.new.items ≡ with_one before.now
        (support_in net nodes.old.items) made.now) }
{
    if let Some(rule) = rule_for(before, nodes.as_slice(), &made.why) {
        nodes.push(Node {
            rule,
            edge: made.edge,
        })?;
    }
    Ok(())
}

/// The rule of a new node: its premise in the row is the node that the key now has, a first premise
/// the one that its key had before the round.
fn rule_for(before: &[Node], now: &[Node], why: &Why) -> Option<Rule>
    ensures { result ≡ rule_for before.now now.now why.now }
{
    match why {
        Why::No(first, second) => Some(Rule::No(node_for(before, first)?, node_for(now, second)?)),
        Why::Up(first, second) => Some(Rule::Up(node_for(before, first)?, node_for(now, second)?)),
        Why::Low(link, second) => Some(Rule::Low(*link, node_for(now, second)?)),
        Why::Cross(link, second) => Some(Rule::Cross(*link, node_for(now, second)?)),
        Why::Drop(premise) => Some(Rule::Drop(node_for(now, premise)?)),
    }
}

/// One node for each bound and then one for each link, each in order.
pub(crate) fn base_nodes(alloc: Global, net: &Network) -> Result<Vec<Node>, Fail>
    ensures nodes { IfOk result (λ nodes. nodes.items ≡ base_nodes net.now) }
    ensures support { IfOk result (λ nodes. support_in net.now nodes.items ≡ base_support net.now) }
{
    let mut nodes = Vec::new(alloc);
    push_bounds(net, &mut nodes)?;
    push_links(net, &mut nodes)?;
    Ok(nodes)
}

fn push_bounds(net: &Network, nodes: &mut Vec<Node>) -> Result<(), Fail>
    ensures { OnOk result (nodes.new.items ≡ nodes.old.items ++ map bound_node
        (enumerate_from 0 net.now.bounds)) }
{
    for (place, bound) in net.bounds().iter().enumerate() {
        let rule = Rule::Bound(BoundId(place as u32));
        let edge = bound_edge(bound);
        nodes.push(Node { rule, edge })?;
    }
    Ok(())
}

fn push_links(net: &Network, nodes: &mut Vec<Node>) -> Result<(), Fail>
    ensures { OnOk result (nodes.new.items ≡ nodes.old.items ++ map link_node
        (enumerate_from 0 net.now.links)) }
{
    for (place, link) in net.links().iter().enumerate() {
        let name = LinkId(place as u32);
        let rule = Rule::Link(name);
        let edge = link_edge(name, link);
        nodes.push(Node { rule, edge })?;
    }
    Ok(())
}
