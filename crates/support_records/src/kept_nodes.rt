//! What is kept of a derivation list when the network is edited, and the nodes that come after it.

ghost use Rattle.std.specs.Prelude.{◌≡◌, ◌∷◌, ◌++◌, [], length, IfOk, OnOk, List, Option, Some};
ghost use Rattle.std.specs.List.{All, Contains};
ghost use Rattle.closure_model.specs.Derivations.{IsGiven, base_nodes};
ghost use Rattle.closure_model.specs.declared.derivation.Node.{Node};
ghost use Rattle.closure_model.specs.declared.derivation.NodeId.{NodeId};
ghost use Rattle.derivation_dag.specs.SupportedTables.{no_support};
ghost use Rattle.edit_laws.specs.KeptLists.{followed, placed};
ghost use Rattle.support_records.specs.FollowedStores.{IsDerivedOn, HasFollowed};
ghost use Rattle.support_records.specs.Moves.{moves_of, CanFollow};

use crate::moves::Moves;
use crate::new_base::new_nodes;
use closure_model::{Node, NodeId};
use derivation_dag::{Dag, Plain};
use net_model::Network;
use std::alloc::{AllocError, Global};

/// Puts what is kept of a list into a store without nodes, and then the base nodes of what is new;
/// says how many are kept.
pub(crate) fn follow_into(
    alloc: Global,
    moves: &Moves,
    before: &Dag,
    after: &mut Plain,
) -> Result<u64, AllocError>
    requires can { CanFollow moves.now.points.old.now moves.now.points.new.now
        (moves_of moves.now) before.now }
    requires empty { after.old ≡ no_support moves.now.points.new.now }
    ensures { IfOk result (HasFollowed moves.now.points.old.now moves.now.points.new.now
        (moves_of moves.now) before.now after.new) }
{
    keep_all(alloc, moves, before, after)?;
    let kept = after.dag().len();
    let nodes = new_nodes(alloc, moves)?;
    add_all(moves.points.new, after, nodes.as_slice())?;
    Ok(kept)
}

/// Puts what is kept of a list into a store, node by node.
fn keep_all(alloc: Global, moves: &Moves, before: &Dag, after: &mut Plain) -> Result<(), AllocError>
    requires can { CanFollow moves.now.points.old.now moves.now.points.new.now
        (moves_of moves.now) before.now }
    requires empty { after.old ≡ no_support moves.now.points.new.now }
    ensures kept { OnOk result (after.new.nodes ≡ (followed (moves_of moves.now) before.now).kept) }
    ensures derived { OnOk result (IsDerivedOn moves.now.points.new.now after.new) }
{
    let mut places = Vec::new(alloc);
    for place in 0..before.len() {
        let moved = moves.node(places.as_slice(), before.node(NodeId(place)));
        places.push(keep(moves.points.new, after, moved)?)?;
    }
    Ok(())
}

/// Puts a node that is kept into a store, and gives its number there.
fn keep(new: &Network, after: &mut Plain, moved: Option<Node>) -> Result<Option<NodeId>, AllocError>
    requires derived { IsDerivedOn new.now after.old }
    requires follows { (node : Node) → moved ≡ Some node → IsGiven new.now after.old.nodes node }
    ensures kept { IfOk result (λ place. (places : List (Option NodeId))
        → placed (record { places = places; kept = after.old.nodes }) moved ≡ record {
          places =
              places ++ place ∷ [];
          kept = after.new.nodes;
        }) }
    ensures derived { OnOk result (IsDerivedOn new.now after.new) }
{
    match moved {
        Some(node) => Ok(Some(add(new, after, node)?)),
        None => Ok(None),
    }
}

/// Puts base nodes of a network into a store.
fn add_all(new: &Network, after: &mut Plain, nodes: &[Node]) -> Result<(), AllocError>
    requires derived { IsDerivedOn new.now after.old }
    requires base { All (Contains (base_nodes new.now)) nodes.now }
    ensures added { OnOk result (after.new.nodes ≡ after.old.nodes ++ nodes.now) }
    ensures derived { OnOk result (IsDerivedOn new.now after.new) }
{
    for node in nodes {
        add(new, after, *node)?;
    }
    Ok(())
}

/// Puts a node into a store, and gives its number there.
fn add(new: &Network, after: &mut Plain, node: Node) -> Result<NodeId, AllocError>
    requires derived { IsDerivedOn new.now after.old }
    requires follows { IsGiven new.now after.old.nodes node }
    ensures added { IfOk result (λ id. (id ≡ record { 0 = length after.old.nodes })
        × (after.new.nodes ≡ after.old.nodes ++ node ∷ [])) }
    ensures derived { OnOk result (IsDerivedOn new.now after.new) }
{
    new.sound();
    Ok(after.add(new, node)?)
}
