//! The copy of a table into a dense one, and back.

ghost use Rattle.std.specs.Prelude.{◌≡◌, ◌<◌, length, IfOk, IfSome, OnOk};
ghost use Rattle.std.specs.List.{All, fold};
ghost use Rattle.net_model.specs.Network.{links_from};
ghost use Rattle.closure_model.specs.Keys.{IsLabelAt};
ghost use Rattle.closure_model.specs.Tables.{HasEdge, lowered};
ghost use Rattle.network_closure.specs.Saturation.{IsPartialClosure, IsOfDerivable, IsDenseOf};
ghost use Rattle.network_closure.specs.Saturation.{IsLoweredTo, IsEdgeTo, IsEdgeFromTo};
ghost use Rattle.network_closure.specs.Saturation.{IsEdgeBetween, IsStorable, lowered_if};

use crate::consequences::edge_between;
use crate::dense::DenseTable;
use labelled_graph::Table;
use net_model::{Edge, LinkId, Network, PointId};
use std::alloc::{AllocError, Global};

/// The dense table of the edges of a table.
pub(crate) fn dense_of(
    alloc: Global,
    net: &Network,
    table: &Table,
) -> Result<DenseTable, AllocError>
    requires { IsPartialClosure net.now table.now }
    ensures { IfOk result (IsDenseOf net.now table.now) }
{
    let mut dense = DenseTable::without_edges(alloc, net)?;
    for to in 0..net.points().len() as u32 {
        let row = table.row_into(alloc, PointId(to))?;
        lower_to_row(&mut dense, row.as_slice());
    }
    Ok(dense)
}

/// Lowers a dense table to each of some edges.
fn lower_to_row(dense: &mut DenseTable, row: &[Edge])
    requires { All (IsStorable dense.old.shape) row.now }
    ensures { dense.new ≡ fold lowered dense.old row.now }
{
    for edge in row {
        dense.lower_to(edge);
    }
}

/// Lowers a table to each edge of a dense one, in the order of their keys: so an edge that is new
/// comes to the end of its row.
pub(crate) fn lower_to_dense(
    alloc: Global,
    table: &mut Table,
    net: &Network,
    dense: &DenseTable,
) -> Result<(), AllocError>
    requires table { IsPartialClosure net.now table.old }
    requires dense { IsPartialClosure net.now dense.now }
    ensures { OnOk result (IsLoweredTo net.now (HasEdge dense.now) table.old table.new) }
{
    for to in 0..net.points().len() as u32 {
        let links = net.links_from(alloc, PointId(to))?;
        lower_into(table, net, dense, PointId(to), links.as_slice())?;
    }
    Ok(())
}

/// Lowers a table to each edge of a dense one into a point, from which these links go out.
fn lower_into(
    table: &mut Table,
    net: &Network,
    dense: &DenseTable,
    to: PointId,
    links: &[LinkId],
) -> Result<(), AllocError>
    requires table { IsOfDerivable net.now table.old }
    requires dense { IsPartialClosure net.now dense.now }
    requires to_point { to.0 < length net.now.points }
    requires links { links.now ≡ links_from net.now to }
    ensures { OnOk result (IsLoweredTo net.now (IsEdgeTo dense.now to) table.old table.new) }
{
    for from in 0..net.points().len() as u32 {
        lower_between(table, net, dense, PointId(from), to, links)?;
    }
    Ok(())
}

/// Lowers a table to each edge of a dense one from a point to another, from which these links go
/// out.
fn lower_between(
    table: &mut Table,
    net: &Network,
    dense: &DenseTable,
    from: PointId,
    to: PointId,
    links: &[LinkId],
) -> Result<(), AllocError>
    requires table { IsOfDerivable net.now table.old }
    requires dense { IsPartialClosure net.now dense.now }
    requires from_point { from.0 < dense.now.shape.points }
    requires to_point { to.0 < dense.now.shape.points }
    requires links { links.now ≡ links_from net.now to }
    ensures { OnOk result (IsLoweredTo net.now (IsEdgeFromTo dense.now from to) table.old
        table.new) }
{
    lower_at(table, net, dense, from, to, None)?;
    for link in links {
        lower_at(table, net, dense, from, to, Some(*link))?;
    }
    Ok(())
}

/// Lowers a table to the edge of a dense one of a source, a target and a label, or without one, if
/// there is one.
fn lower_at(
    table: &mut Table,
    net: &Network,
    dense: &DenseTable,
    from: PointId,
    to: PointId,
    label: Option<LinkId>,
) -> Result<(), AllocError>
    requires table { IsOfDerivable net.now table.old }
    requires dense { IsPartialClosure net.now dense.now }
    requires from_point { from.0 < dense.now.shape.points }
    requires to_point { to.0 < dense.now.shape.points }
    requires label { IsLabelAt dense.now.shape to label }
    ensures { OnOk result (IsLoweredTo net.now (IsEdgeBetween dense.now from to label) table.old
        table.new) }
{
    let found = edge_between(dense, from, to, label);
    lower_to_found(table, found)?;
    Ok(())
}

/// Lowers a table to an edge, if there is one.
fn lower_to_found(table: &mut Table, found: Option<Edge>) -> Result<(), AllocError>
    requires { IfSome found (IsStorable table.old.shape) }
    ensures { OnOk result (table.new ≡ lowered_if table.old found) }
{
    match found {
        None => Ok(()),
        Some(edge) => {
            table.lower_to(&edge)?;
            Ok(())
        }
    }
}
