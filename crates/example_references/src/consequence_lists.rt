//! The consequences of an edge of a row, in their order.

ghost use Rattle.std.specs.Prelude.{◌≡◌, ◌++◌, ◌<◌, ◌==◌, length, IfOk, IfSome, OnOk};
ghost use Rattle.std.specs.List.{flat_map, position};
ghost use Rattle.std.specs.Option.{option_to_list};
ghost use Rattle.net_model.specs.Network.{Plan, activation};
ghost use Rattle.closure_model.specs.ReferenceRow.{consequences, from_removal, from_link};
ghost use Rattle.closure_model.specs.ReferenceRow.{from_first, ordinary_into, given};
ghost use Rattle.example_references.specs.NodeTables.{table_in};
ghost use Rattle.example_references.specs.RowParts.{ordinary_at};

use crate::nodes::{ordinary_weight, points};
use crate::reductions::{cross_case, lower_case, no_case, removal, upper_case};
use closure_model::Node;
use closure_model::rows::{Made, Why};
use net_model::{Edge, Link, LinkId, Network, PointId};
use std::alloc::Global;
use std::test::Fail;

/// The removal of the label; what follows over a link; and what follows with an ordinary edge of
/// the table before the edge.
pub(crate) fn consequences(
    alloc: Global,
    net: &Network,
    nodes: &[Node],
    edge: &Edge,
) -> Result<Vec<Made>, Fail>
    ensures { IfOk result (λ made. made.items ≡ consequences net.now
        (table_in net.now nodes.now) edge.now) }
{
    let mut made = Vec::new(alloc);
    push_removal(net, edge, &mut made)?;
    push_over_link(net, edge, &mut made)?;
    let firsts = ordinary_into(alloc, net, nodes, edge.from)?;
    push_after(firsts.as_slice(), edge, &mut made)?;
    Ok(made)
}

fn push_removal(net: &Network, edge: &Edge, made: &mut Vec<Made>) -> Result<(), Fail>
    ensures { OnOk result (made.new.items ≡ made.old.items ++ from_removal net.now edge.now) }
{
    push_given(Why::Drop(*edge), removal(net, edge)?, made)
}

/// What follows over the link that ends in the source of the edge, if one does.
fn push_over_link(net: &Network, edge: &Edge, made: &mut Vec<Made>) -> Result<(), Fail>
    ensures { OnOk result (made.new.items ≡ made.old.items ++ from_link net.now edge.now) }
{
    let Some(link) = link_into(net, edge.from) else {
        return Ok(());
    };
    push_given(Why::Low(link, *edge), lower_case(net, link, edge)?, made)?;
    push_given(Why::Cross(link, *edge), cross_case(net, link, edge)?, made)
}

/// The link that ends in a point, if one does.
fn link_into(net: &Network, point: PointId) -> Option<LinkId>
    ensures { result ≡ activation net.now point }
{
    let place = place_into(net.links(), point)?;
    Some(LinkId(place as u32))
}

/// The place of the first link that ends in a point.
fn place_into(links: &[Link], point: PointId) -> Option<usize>
    ensures place { result ≡ position (λ (l : Link). l.to.0 == point.0) links.now }
    ensures inside { IfSome result (λ place. place < length links.now) }
{
    for (place, link) in links.iter().enumerate() {
        if link.to == point {
            return Some(place);
        }
    }
    None
}

/// The ordinary edges of the table that end in a point, in the order of their sources.
fn ordinary_into(
    alloc: Global,
    net: &Network,
    nodes: &[Node],
    to: PointId,
) -> Result<Vec<Edge>, Fail>
    ensures { IfOk result (λ edges. edges.items ≡ ordinary_into (table_in net.now nodes.now) to) }
{
    let count = points(net);
    let mut edges = Vec::new(alloc);
    for from in 0..count {
        push_ordinary(nodes, PointId(from), to, &mut edges)?;
    }
    Ok(edges)
}

fn push_ordinary(
    nodes: &[Node],
    from: PointId,
    to: PointId,
    edges: &mut Vec<Edge>,
) -> Result<(), Fail>
    ensures { OnOk result ((net : Plan)
        → edges.new.items ≡ edges.old.items ++ option_to_list
        (ordinary_at (table_in net nodes.now) to from)) }
{
    if let Some(weight) = ordinary_weight(nodes, from, to) {
        edges.push(Edge {
            from,
            to,
            label: None,
            weight,
        })?;
    }
    Ok(())
}

/// What follows with each of these edges before the edge.
fn push_after(firsts: &[Edge], edge: &Edge, made: &mut Vec<Made>) -> Result<(), Fail>
    ensures { OnOk result (made.new.items ≡ made.old.items ++ flat_map
        (from_first edge.now) firsts.now) }
{
    for first in firsts {
        push_after_first(first, edge, made)?;
    }
    Ok(())
}

fn push_after_first(first: &Edge, edge: &Edge, made: &mut Vec<Made>) -> Result<(), Fail>
    ensures { OnOk result (made.new.items ≡ made.old.items ++ from_first edge.now first.now) }
{
    push_given(Why::No(*first, *edge), no_case(first, edge)?, made)?;
    push_given(Why::Up(*first, *edge), upper_case(first, edge)?, made)
}

/// Pushes what a rule gave, if it gave an edge.
fn push_given(why: Why, edge: Option<Edge>, made: &mut Vec<Made>) -> Result<(), Fail>
    ensures { OnOk result (made.new.items ≡ made.old.items ++ given why edge) }
{
    if let Some(edge) = edge {
        made.push(Made { edge, why })?;
    }
    Ok(())
}
