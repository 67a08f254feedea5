//! What the rules give from edges, and the edges that a dense table has.

ghost use Rattle.std.specs.Prelude.{◌≡◌, ◌<◌, None, Some, IfSome, MatchOption, slice_get};
ghost use Rattle.net_model.specs.Network.{activation};
ghost use Rattle.net_model.specs.Rules.{removal};
ghost use Rattle.closure_model.specs.Derivable.{IsDerivable};
ghost use Rattle.closure_model.specs.Keys.{ordinary_key, labelled_key, IsLabelAt};
ghost use Rattle.closure_model.specs.Tables.{weight_of, HasEdge};
ghost use Rattle.network_closure.specs.Saturation.{IsOverLinks, IsAfter, IsEdgeBetween};

use crate::dense::DenseTable;
use net_model::{Edge, LinkId, Network, PointId};
use reduction_rules::{cross_case, lower_case, no_case, removal, upper_case};

/// What the removal of its label gives from an edge, if it has one. The edge is derivable, and what
/// is given is.
pub fn without_label(net: &Network, edge: &Edge) -> Option<Edge>
    requires { IsDerivable net.now edge.now }
    ensures exact { result ≡ removal net.now edge.now }
    ensures derivable { IfSome result (IsDerivable net.now) }
{
    net.sound();
    removal(net, edge)
}

/// What the lower-case or the cross-case rule gives from an edge over the link that ends where it
/// begins, if there is one. The edge is derivable, and what is given is. At most one of the two
/// rules gives something.
pub fn over_link(net: &Network, edge: &Edge) -> Option<Edge>
    requires { IsDerivable net.now edge.now }
    ensures { IsOverLinks net.now edge.now result }
{
    net.sound();
    match net.activation(edge.from) {
        None => None,
        Some(link) => over_this_link(net, link, edge),
    }
}

fn over_this_link(net: &Network, link: LinkId, edge: &Edge) -> Option<Edge>
    requires edge { IsDerivable net.now edge.now }
    requires link { activation net.now edge.now.from ≡ Some link }
    ensures { IsOverLinks net.now edge.now result }
{
    net.sound();
    match edge.label {
        None => lower_case(net, link, edge),
        Some(_) => cross_case(net, link, edge),
    }
}

/// What the no-case or the upper-case rule gives from two edges, the first of which ends where the
/// other begins. Both are derivable, and what is given is. At most one of the two rules gives
/// something.
pub fn after(net: &Network, first: &Edge, edge: &Edge) -> Option<Edge>
    requires first { IsDerivable net.now first.now }
    requires edge { IsDerivable net.now edge.now }
    ensures { IsAfter net.now first.now edge.now result }
{
    net.sound();
    match edge.label {
        None => no_case(first, edge),
        Some(_) => upper_case(first, edge),
    }
}

/// The ordinary edge of a table from one point to another, if there is one.
pub(crate) fn ordinary(table: &DenseTable, from: PointId, to: PointId) -> Option<Edge>
    requires from_point { from.0 < table.now.shape.points }
    requires to_point { to.0 < table.now.shape.points }
    ensures { MatchOption result (weight_of table.now (ordinary_key from to) ≡ None)
        (IsEdgeBetween table.now from to None) }
{
    let weight = table.weight(from, to)?;
    Some(Edge {
        from,
        to,
        label: None,
        weight,
    })
}

/// The edge of a table of a source, a target and a label, or without one, if there is one.
pub(crate) fn edge_between(
    table: &DenseTable,
    from: PointId,
    to: PointId,
    label: Option<LinkId>,
) -> Option<Edge>
    requires from_point { from.0 < table.now.shape.points }
    requires to_point { to.0 < table.now.shape.points }
    requires label { IsLabelAt table.now.shape to label }
    ensures { MatchOption result (weight_of table.now (record {
      to = to;
      from = from;
      label = label;
    }) ≡ None) (IsEdgeBetween table.now from to label) }
{
    match label {
        None => ordinary(table, from, to),
        Some(link) => labelled(table, from, to, link),
    }
}

/// The edge of a table from a point that is labelled by a link that begins in another, if there is
/// one.
pub(crate) fn labelled(table: &DenseTable, from: PointId, to: PointId, link: LinkId) -> Option<Edge>
    requires from_point { from.0 < table.now.shape.points }
    requires link { slice_get table.now.shape.activations link.0 ≡ Some to }
    ensures { MatchOption result (weight_of table.now (labelled_key from to link) ≡ None)
        (IsEdgeBetween table.now from to (Some link)) }
{
    let weight = table.upper(from, link)?;
    Some(Edge {
        from,
        to,
        label: Some(link),
        weight,
    })
}
