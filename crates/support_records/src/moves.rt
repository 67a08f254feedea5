//! The numbers that points, bounds and links of a network have in the edited one.

ghost use Rattle.std.specs.Prelude.{◌≡◌, map, IfOk};
ghost use Rattle.edit_laws.specs.EditNumbers.{bound_in, link_in};
ghost use Rattle.edit_laws.specs.KeptLists.{place_at, moved_rule, moved_edge, moved_node};
ghost use Rattle.edit_laws.specs.KeptLists.{moved_label};
ghost use Rattle.support_records.specs.Moves.{moves_of, AreMoves};

use crate::names::{bound_in, link_in};
use crate::points::Points;
use closure_model::{Node, NodeId, Rule};
use net_model::{BoundId, Edge, Edit, LinkId, Network, PointId};
use std::alloc::{AllocError, Global};

/// The numbers that points, bounds and links of a network have in the edited one, by the numbers
/// that they had. A bound or a link that is taken away has none.
#[derive(Drop)]
pub(crate) struct Moves<'a> {
    pub(crate) points: Points<'a>,
    bounds: Vec<Option<BoundId>>,
    links: Vec<Option<LinkId>>,
}

impl<'a> Moves<'a> {
    /// The numbers by names. `AllocError` comes only for want of memory.
    pub(crate) fn of(
        alloc: Global,
        old: &'a Network,
        edit: &Edit,
        new: &'a Network,
    ) -> Result<Moves<'a>, AllocError>
        ensures { IfOk result (AreMoves old.now edit.now new.now) }
    {
        let points = Points::of(alloc, old, new)?;
        let bounds = bounds_in(alloc, &points, edit)?;
        let links = links_in(alloc, &points, edit)?;
        Ok(Moves {
            points,
            bounds,
            links,
        })
    }

    fn point(&self, point: PointId) -> PointId
        ensures { result ≡ (moves_of self.now).points point }
    {
        self.points.point_in(point).unwrap_or(point)
    }

    pub(crate) fn bound(&self, bound: BoundId) -> Option<BoundId>
        ensures { result ≡ (moves_of self.now).bounds bound }
    {
        *self.bounds.get(bound.0 as usize)?
    }

    pub(crate) fn link(&self, link: LinkId) -> Option<LinkId>
        ensures { result ≡ (moves_of self.now).links link }
    {
        *self.links.get(link.0 as usize)?
    }

    fn label(&self, label: LinkId) -> LinkId
        ensures { result ≡ moved_label (moves_of self.now) label }
    {
        self.link(label).unwrap_or(label)
    }

    fn edge(&self, edge: &Edge) -> Edge
        ensures { result ≡ moved_edge (moves_of self.now) edge.now }
    {
        let label = match edge.label {
            Some(label) => Some(self.label(label)),
            None => None,
        };
        Edge {
            from: self.point(edge.from),
            to: self.point(edge.to),
            label,
            weight: edge.weight,
        }
    }

    fn rule(&self, places: &[Option<NodeId>], rule: &Rule) -> Option<Rule>
        ensures { result ≡ moved_rule (moves_of self.now) places.now rule.now }
    {
        match rule {
            Rule::Bound(bound) => Some(Rule::Bound(self.bound(*bound)?)),
            Rule::Link(link) => Some(Rule::Link(self.link(*link)?)),
            Rule::No(first, second) => Some(Rule::No(
                place_at(places, *first)?,
                place_at(places, *second)?,
            )),
            Rule::Up(first, second) => Some(Rule::Up(
                place_at(places, *first)?,
                place_at(places, *second)?,
            )),
            Rule::Low(link, second) => {
                Some(Rule::Low(self.link(*link)?, place_at(places, *second)?))
            }
            Rule::Cross(link, second) => {
                Some(Rule::Cross(self.link(*link)?, place_at(places, *second)?))
            }
            Rule::Drop(premise) => Some(Rule::Drop(place_at(places, *premise)?)),
        }
    }

    /// A node with its new numbers, if it rests on nothing taken away. `places` are the numbers
    /// among the kept nodes of those before it.
    pub(crate) fn node(&self, places: &[Option<NodeId>], node: &Node) -> Option<Node>
        ensures { result ≡ moved_node (moves_of self.now) places.now node.now }
    {
        Some(Node {
            rule: self.rule(places, &node.rule)?,
            edge: self.edge(&node.edge),
        })
    }
}

/// The number that a node has among the kept ones, if it is kept.
fn place_at(places: &[Option<NodeId>], id: NodeId) -> Option<NodeId>
    ensures { result ≡ place_at places.now id }
{
    *places.get(id.0 as usize)?
}

fn bounds_in(
    alloc: Global,
    points: &Points,
    edit: &Edit,
) -> Result<Vec<Option<BoundId>>, AllocError>
    ensures { IfOk result (λ bounds. bounds.items ≡ map
        (bound_in points.now.old.now edit.now points.now.new.now) points.now.old.now.bounds) }
{
    let mut bounds = Vec::new(alloc);
    for bound in points.old.bounds() {
        bounds.push(bound_in(points, edit, bound))?;
    }
    Ok(bounds)
}

fn links_in(alloc: Global, points: &Points, edit: &Edit) -> Result<Vec<Option<LinkId>>, AllocError>
    ensures { IfOk result (λ links. links.items ≡ map
        (link_in points.now.old.now edit.now points.now.new.now) points.now.old.now.links) }
{
    let mut links = Vec::new(alloc);
    for link in points.old.links() {
        links.push(link_in(points, edit, link))?;
    }
    Ok(links)
}
