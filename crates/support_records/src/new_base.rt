//! The base nodes of what is new in an edited network.

ghost use Rattle.std.specs.Prelude.{◌≡◌, ◌++◌, ◌∷◌, [], OnOk, IfOk, if◌then◌else◌};
ghost use Rattle.support_records.specs.Moves.{moves_of};
ghost use Rattle.support_records.specs.NewNodes.{link_before, is_bound_new, is_link_new};
ghost use Rattle.support_records.specs.NewNodes.{new_bound_nodes, new_link_nodes, new_nodes};

use crate::moves::Moves;
use closure_model::Node;
use derivation_dag::{bound_node, link_node};
use net_model::{Bound, BoundId, Link, LinkId};
use std::alloc::{AllocError, Global};

/// The base nodes of new bounds and then of new links, each in order.
pub(crate) fn new_nodes(alloc: Global, moves: &Moves) -> Result<Vec<Node>, AllocError>
    ensures { IfOk result (λ nodes. nodes.items ≡ new_nodes
        (moves_of moves.now) moves.now.points.old.now moves.now.points.new.now) }
{
    let mut nodes = Vec::new(alloc);
    push_new_bounds(moves, &mut nodes)?;
    push_new_links(moves, &mut nodes)?;
    Ok(nodes)
}

fn push_new_bounds(moves: &Moves, nodes: &mut Vec<Node>) -> Result<(), AllocError>
    ensures { OnOk result (nodes.new.items ≡ nodes.old.items ++ new_bound_nodes
        (moves_of moves.now) moves.now.points.old.now moves.now.points.new.now) }
{
    for (place, bound) in moves.points.new.bounds().iter().enumerate() {
        let node = bound_node(BoundId(place as u32), bound);
        push_if(nodes, is_bound_new(moves, bound), node)?;
    }
    Ok(())
}

fn push_new_links(moves: &Moves, nodes: &mut Vec<Node>) -> Result<(), AllocError>
    ensures { OnOk result (nodes.new.items ≡ nodes.old.items ++ new_link_nodes
        (moves_of moves.now) moves.now.points.old.now moves.now.points.new.now) }
{
    for (place, link) in moves.points.new.links().iter().enumerate() {
        let node = link_node(LinkId(place as u32), link);
        push_if(nodes, is_link_new(moves, link), node)?;
    }
    Ok(())
}

fn push_if(nodes: &mut Vec<Node>, wanted: bool, node: Node) -> Result<(), AllocError>
    ensures { OnOk result (nodes.new.items ≡ nodes.old.items ++ (if wanted then node ∷ []
        else [])) }
{
    if wanted {
        nodes.push(node)?;
    }
    Ok(())
}

/// Whether no bound that the edited network keeps has the name of this one.
fn is_bound_new(moves: &Moves, bound: &Bound) -> bool
    ensures { result ≡ is_bound_new (moves_of moves.now) moves.now.points.old.now bound.now }
{
    match moves.points.old.bound(bound.name.bytes()) {
        Some(id) => moves.bound(id).is_none(),
        None => true,
    }
}

/// Whether no link that the edited network keeps ends in the point of the same name.
fn is_link_new(moves: &Moves, link: &Link) -> bool
    ensures { result ≡ is_link_new (moves_of moves.now) moves.now.points.old.now
        moves.now.points.new.now link.now }
{
    link_before(moves, link).is_none()
}

/// The number of the link that the edited network keeps and that ends in the point of the same
/// name.
fn link_before(moves: &Moves, link: &Link) -> Option<LinkId>
    ensures { result ≡ link_before (moves_of moves.now) moves.now.points.old.now
        moves.now.points.new.now link.now }
{
    let name = moves.points.new.points().get(link.to.0 as usize)?;
    let point = moves.points.old.point(name.bytes())?;
    let id = moves.points.old.activation(point)?;
    moves.link(id)
}
