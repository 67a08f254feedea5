//! The entries of a table proof, made from the edges of a table.

ghost use Rattle.std.specs.Prelude.{◌≡◌, ◌++◌, ◌∷◌, [], map, IfOk, OnOk};
ghost use Rattle.std.specs.List.{All};
ghost use Rattle.net_model.specs.Edges.{IsEdge};
ghost use Rattle.net_model.specs.Network.{IsPoint};
ghost use Rattle.closure_model.specs.Closure.{IsClosure};
ghost use Rattle.closure_model.specs.Tables.{IsFor, edges_of, row_of};
ghost use Rattle.closure_certificates.specs.TableProofs.{entry_of};

use cert_format::Entry;
use labelled_graph::Table;
use net_model::{Edge, Network, PointId};
use refutation_certificates::link_name;
use std::alloc::{AllocError, Global};

/// The edges of a closure as entries, in the order of their keys.
pub(crate) fn entries_of(
    alloc: Global,
    net: &Network,
    table: &Table,
) -> Result<Vec<Entry>, AllocError>
    requires { IsClosure net.now table.now }
    ensures { IfOk result (λ entries. entries.items ≡ map (entry_of net.now) (edges_of table.now)) }
{
    let mut entries = Vec::new(alloc);
    for point in 0..net.points().len() as u32 {
        push_row(&mut entries, net, table, PointId(point))?;
    }
    Ok(entries)
}

/// Those of the edges that end in a point, after the entries so far.
fn push_row(
    entries: &mut Vec<Entry>,
    net: &Network,
    table: &Table,
    to: PointId,
) -> Result<(), AllocError>
    requires fits { IsFor net.now table.now }
    requires point { IsPoint net.now to }
    requires edges { All (IsEdge net.now) (row_of table.now to) }
    ensures { OnOk result (entries.new.items ≡ entries.old.items ++ map (entry_of net.now)
        (row_of table.now to)) }
{
    let row = table.entries(to);
    for entry in row {
        push_edge(entries, net, &entry.edge_into(to))?;
    }
    Ok(())
}

/// One edge more as an entry.
fn push_edge(entries: &mut Vec<Entry>, net: &Network, edge: &Edge) -> Result<(), AllocError>
    requires { IsEdge net.now edge.now }
    ensures { OnOk result (entries.new.items ≡ entries.old.items ++ entry_of net.now edge.now ∷
        []) }
{
    let from = *net.point_name(edge.from);
    match edge.label {
        None => entries.push(Entry {
            from,
            to: Some(*net.point_name(edge.to)),
            label: None,
            weight: edge.weight,
        })?,
        Some(label) => entries.push(Entry {
            from,
            to: None,
            label: Some(link_name(net, label)),
            weight: edge.weight,
        })?,
    }
    Ok(())
}
