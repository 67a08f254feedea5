//! The search for an unsaturated edge, by all rules and row by row, in a share of a dense table.

ghost use Rattle.std.specs.Prelude.{◌≡◌, ◌<◌, ◌+◌, ◌<ℤ◌, ◌≤◌, pos, length, None, Some, IfOk, IfSome};
ghost use Rattle.std.specs.Prelude.{◌&&◌, MatchOption, false, replicate, slice_index_or, true};
ghost use Rattle.closure_model.specs.Derivable.{IsDerivable};
ghost use Rattle.closure_model.specs.Keys.{IsKey, IsLabelAt, key_of};
ghost use Rattle.closure_model.specs.Tables.{HasEdge, HasAtMost, weight_of, has_at_most};
ghost use Rattle.network_closure.specs.Saturation.{IsPartialClosure, IsUnsaturated};
ghost use Rattle.network_closure.specs.Saturation.{SaturatesAfter, SaturatesFirsts};
ghost use Rattle.network_closure.specs.RowTest.{AreCovered, GoesByFrom, IsSequence};
ghost use Rattle.network_closure.specs.RowTest.{SaturatesAt, SaturatesBefore, SaturatesInto};
ghost use Rattle.network_closure.specs.RowTest.{SaturatesRow, SaturatesShare, SaturatesUnlessBy};

use crate::consequences::{after, edge_between, ordinary, over_link, without_label};
use crate::dense::DenseTable;
use crate::sequence::Sequence;
use net_model::{Edge, LinkId, Network, PointId};
use std::alloc::{AllocError, Global};

/// An unsaturated edge that follows from an edge of one share of a table, if there is one. The
/// shares take the rows by turns: that of a number has the rows whose numbers leave it as their
/// remainder.
pub(crate) fn unsaturated_in_share(
    alloc: Global,
    table: &DenseTable,
    net: &Network,
    sequence: Sequence,
    share: usize,
    shares: usize,
) -> Result<Option<Edge>, AllocError>
    requires partial_closure { IsPartialClosure net.now table.now }
    requires sequence { IsSequence table.now sequence.points.now sequence.is_order }
    requires shares { 0 < shares }
    ensures { IfOk result (λ found. MatchOption found
        (SaturatesShare net.now sequence.entry.is_order table.now share shares)
        (IsUnsaturated net.now table.now)) }
{
    for row in 0..row_count(net) {
        if row as usize % shares != share {
            continue;
        }
        if let Some(edge) = unsaturated_in_row(alloc, table, net, sequence, row)? {
            return Ok(Some(edge));
        }
    }
    Ok(None)
}

/// How many rows a table of a network has: one of the ordinary edges into each point, and after
/// them one of the edges labelled by each link.
pub(crate) fn row_count(net: &Network) -> u32
    ensures { result ≡ length net.now.points + length net.now.links }
{
    net.points().len() as u32 + net.links().len() as u32
}

/// An unsaturated edge that follows from an edge of a row, if there is one.
fn unsaturated_in_row(
    alloc: Global,
    table: &DenseTable,
    net: &Network,
    sequence: Sequence,
    row: u32,
) -> Result<Option<Edge>, AllocError>
    requires partial_closure { IsPartialClosure net.now table.now }
    requires sequence { IsSequence table.now sequence.points.now sequence.is_order }
    requires row { row < length net.now.points + length net.now.links }
    ensures { IfOk result (λ found. MatchOption found
        (SaturatesRow net.now sequence.entry.is_order table.now row)
        (IsUnsaturated net.now table.now)) }
{
    let points = net.points().len() as u32;
    if row < points {
        unsaturated_into(alloc, table, net, sequence, PointId(row), None)
    } else {
        unsaturated_labelled(alloc, table, net, sequence, LinkId(row - points))
    }
}

/// An unsaturated edge that follows from an edge labelled by a link, if there is one.
fn unsaturated_labelled(
    alloc: Global,
    table: &DenseTable,
    net: &Network,
    sequence: Sequence,
    link: LinkId,
) -> Result<Option<Edge>, AllocError>
    requires partial_closure { IsPartialClosure net.now table.now }
    requires sequence { IsSequence table.now sequence.points.now sequence.is_order }
    requires link { link.0 < length net.now.links }
    ensures { IfOk result (λ found. MatchOption found ((edge : Edge) → HasEdge table.now edge
        → edge.label ≡ Some link
        → SaturatesUnlessBy net.now sequence.entry.is_order table.now edge)
        (IsUnsaturated net.now table.now)) }
{
    let to = net.links()[link.0 as usize].from;
    unsaturated_into(alloc, table, net, sequence, to, Some(link))
}

/// An unsaturated edge that follows from an edge into a point with a label, or without one, if
/// there is one.
fn unsaturated_into(
    alloc: Global,
    table: &DenseTable,
    net: &Network,
    sequence: Sequence,
    to: PointId,
    label: Option<LinkId>,
) -> Result<Option<Edge>, AllocError>
    requires partial_closure { IsPartialClosure net.now table.now }
    requires sequence { IsSequence table.now sequence.points.now sequence.is_order }
    requires to_point { to.0 < table.now.shape.points }
    requires label { IsLabelAt table.now.shape to label }
    ensures { IfOk result (λ found. MatchOption found
        (SaturatesInto net.now sequence.entry.is_order table.now to label)
        (IsUnsaturated net.now table.now)) }
{
    let mut covered = none_covered(alloc, net)?;
    for from in sequence.points {
        let is_order = sequence.is_order;
        if let Some(edge) = unsaturated_at(table, net, is_order, *from, to, label, &mut covered) {
            return Ok(Some(edge));
        }
    }
    Ok(None)
}

/// A mark for each point of a network, none of which is set.
fn none_covered(alloc: Global, net: &Network) -> Result<Vec<bool>, AllocError>
    ensures { IfOk result (λ covered. covered.items ≡ replicate (length net.now.points) false) }
{
    vec![in alloc; false; net.points().len()]
}

/// An unsaturated edge that follows from the edge of the table of a source, a target and a label,
/// or without one, if there is one. The marks tell from which points an edge of its row goes by a
/// negative one, as far as that is known.
fn unsaturated_at(
    table: &DenseTable,
    net: &Network,
    is_order: bool,
    from: PointId,
    to: PointId,
    label: Option<LinkId>,
    covered: &mut Vec<bool>,
) -> Option<Edge>
    requires partial_closure { IsPartialClosure net.now table.now }
    requires from_point { from.0 < table.now.shape.points }
    requires to_point { to.0 < table.now.shape.points }
    requires label { IsLabelAt table.now.shape to label }
    requires covered { AreCovered net.now table.now to label covered.old.items }
    ensures saturates { MatchOption result (SaturatesAt net.now is_order table.now from to label)
        (IsUnsaturated net.now table.now) }
    ensures covered { AreCovered net.now table.now to label covered.new.items }
{
    match edge_between(table, from, to, label) {
        None => None,
        Some(edge) => unsaturated_by(table, net, is_order, &edge, covered),
    }
}

/// An unsaturated edge that follows from an edge of the table, if there is one. The marks tell from
/// which points an edge of its row goes by a negative one, as far as that is known.
fn unsaturated_by(
    table: &DenseTable,
    net: &Network,
    is_order: bool,
    edge: &Edge,
    covered: &mut Vec<bool>,
) -> Option<Edge>
    requires partial_closure { IsPartialClosure net.now table.now }
    requires edge { HasEdge table.now edge.now }
    requires covered { AreCovered net.now table.now edge.now.to edge.now.label covered.old.items }
    ensures saturates { MatchOption result
        (SaturatesUnlessBy net.now is_order table.now edge.now) (IsUnsaturated net.now table.now) }
    ensures covered { AreCovered net.now table.now edge.now.to edge.now.label covered.new.items }
{
    if let Some(unsaturated) = unsaturated_given(table, net, without_label(net, edge)) {
        return Some(unsaturated);
    }
    if let Some(unsaturated) = unsaturated_given(table, net, over_link(net, edge)) {
        return Some(unsaturated);
    }
    unsaturated_before(table, net, is_order, edge, covered)
}

/// An unsaturated edge that follows from an edge of the table with another before it, if there is
/// one. If the points have an order and the edge goes by a negative one there is none, once the two
/// edges one after another are tested.
fn unsaturated_before(
    table: &DenseTable,
    net: &Network,
    is_order: bool,
    edge: &Edge,
    covered: &mut Vec<bool>,
) -> Option<Edge>
    requires partial_closure { IsPartialClosure net.now table.now }
    requires edge { HasEdge table.now edge.now }
    requires covered { AreCovered net.now table.now edge.now.to edge.now.label covered.old.items }
    ensures saturates { MatchOption result (SaturatesBefore is_order table.now edge.now)
        (IsUnsaturated net.now table.now) }
    ensures covered { AreCovered net.now table.now edge.now.to edge.now.label covered.new.items }
{
    if edge.weight >= 0 {
        return None;
    }
    if is_covered(is_order, covered.as_slice(), edge.from) {
        return None;
    }
    cover(table, net, is_order, edge, covered);
    unsaturated_firsts(table, net, edge)
}

/// Whether the points have an order, and a point is marked.
fn is_covered(is_order: bool, covered: &[bool], from: PointId) -> bool
    requires { from.0 < length covered.now }
    ensures { result ≡ (is_order && slice_index_or covered.now from.0 false) }
{
    is_order && covered[from.0 as usize]
}

/// Marks the points from which an edge of the row of an edge goes by a negative one to where this
/// edge begins, if the points have an order.
fn cover(table: &DenseTable, net: &Network, is_order: bool, edge: &Edge, covered: &mut Vec<bool>)
    requires partial_closure { IsPartialClosure net.now table.now }
    requires edge { HasEdge table.now edge.now }
    requires covered { AreCovered net.now table.now edge.now.to edge.now.label covered.old.items }
    ensures { AreCovered net.now table.now edge.now.to edge.now.label covered.new.items }
{
    if !is_order {
        return;
    }
    for from in 0..net.points().len() as u32 {
        if goes_by(table, PointId(from), edge) {
            covered[from as usize] = true;
        }
    }
}

/// Whether a negative edge leads from a point to where an edge begins, and the table has no edge
/// from that point in the row of the edge of a lesser weight.
fn goes_by(table: &DenseTable, from: PointId, edge: &Edge) -> bool
    requires from_point { from.0 < table.now.shape.points }
    requires key { IsKey table.now.shape (key_of edge.now) }
    requires edge { HasEdge table.now edge.now }
    ensures { result ≡ true → GoesByFrom table.now from edge.now.to edge.now.label }
{
    let is_negative = table.weight(from, edge.from).is_some_and(|first| first < 0);
    is_negative
        && table
            .weight_at(&Edge { from, ..*edge })
            .is_some_and(|weight| weight >= edge.weight)
}

fn unsaturated_firsts(table: &DenseTable, net: &Network, edge: &Edge) -> Option<Edge>
    requires partial_closure { IsPartialClosure net.now table.now }
    requires edge { IsDerivable net.now edge.now }
    requires negative { edge.now.weight <ℤ pos 0 }
    ensures { MatchOption result (SaturatesFirsts table.now edge.now)
        (IsUnsaturated net.now table.now) }
{
    let improves = table.improves_before(edge, 0, net.points().len() as u32);
    if !improves {
        return None;
    }
    for from in 0..net.points().len() as u32 {
        if let Some(unsaturated) = unsaturated_after(table, net, PointId(from), edge) {
            return Some(unsaturated);
        }
    }
    None
}

fn unsaturated_after(table: &DenseTable, net: &Network, from: PointId, edge: &Edge) -> Option<Edge>
    requires partial_closure { IsPartialClosure net.now table.now }
    requires from { from.0 < length net.now.points }
    requires edge { IsDerivable net.now edge.now }
    ensures { MatchOption result ((first : Edge) → HasEdge table.now first → first.from ≡ from
        → SaturatesAfter table.now first edge.now) (IsUnsaturated net.now table.now) }
{
    match ordinary(table, from, edge.from) {
        None => None,
        Some(first) => unsaturated_given(table, net, after(net, &first, edge)),
    }
}

/// The edge that a rule gave, if it gave one that is unsaturated.
fn unsaturated_given(table: &DenseTable, net: &Network, edge: Option<Edge>) -> Option<Edge>
    requires partial_closure { IsPartialClosure net.now table.now }
    requires edge { IfSome edge (IsDerivable net.now) }
    ensures { MatchOption result (IfSome edge (HasAtMost table.now))
        (IsUnsaturated net.now table.now) }
{
    let edge = edge?;
    if is_saturated(table, net, &edge) {
        None
    } else {
        Some(edge)
    }
}

/// Whether a table has the key of a derivable edge at a weight that is no greater.
fn is_saturated(table: &DenseTable, net: &Network, edge: &Edge) -> bool
    requires partial_closure { IsPartialClosure net.now table.now }
    requires edge { IsDerivable net.now edge.now }
    ensures { result ≡ has_at_most table.now edge.now }
{
    net.sound();
    table
        .weight_at(edge)
        .is_some_and(|weight| weight <= edge.weight)
}
