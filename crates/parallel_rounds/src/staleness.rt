//! The targets that are stale after changed points.

ghost use Rattle.std.specs.Prelude.{◌≡◌, ◌<◌, ◌++◌, ◌∷◌, [], false, length, filter, IfOk, OnOk};
ghost use Rattle.std.specs.List.{All, list_any, slice_index_or};
ghost use Rattle.net_model.specs.Network.{IsPoint};
ghost use Rattle.closure_model.specs.Tables.{IsFor};
ghost use Rattle.labelled_graph.specs.Entries.{edge_into};
ghost use Rattle.loop_finder.specs.Marks.{AreMarks};
ghost use Rattle.parallel_rounds.specs.Targets.{AreRisingPoints, AreStale, is_reached, reaches};

use labelled_graph::{Entry, Table};
use net_model::{Edge, Network, PointId};
use std::alloc::{AllocError, Global};

/// The targets that are stale after some points, in the order of their numbers: exactly those to
/// which a negative edge of the table, labelled or not, goes from one of the points. The points are
/// of the network, and each has a lower number than those after it. `AllocError` comes only for
/// want of memory. A row that is not stale after the points in whose rows something improved makes
/// nothing in the next round (`law_unstale_rows_stay` of closure_model).
pub fn stale(
    alloc: Global,
    table: &Table,
    net: &Network,
    changed: &[PointId],
) -> Result<Vec<PointId>, AllocError>
    requires fits { IsFor net.now table.now }
    requires points { All (IsPoint net.now) changed.now }
    requires rise { AreRisingPoints changed.now }
    ensures { IfOk result (λ targets. AreStale table.now changed.now targets.items) }
{
    let points = net.points().len() as u32;
    let marks = marks_of(alloc, points, changed)?;
    let mut targets = Vec::new(alloc);
    for point in 0..points {
        push_stale(table, PointId(point), marks.as_slice(), &mut targets)?;
    }
    Ok(targets)
}

/// Puts a target at the end of others if a negative edge goes to it from a marked point.
fn push_stale(
    table: &Table,
    target: PointId,
    marks: &[bool],
    targets: &mut Vec<PointId>,
) -> Result<(), AllocError>
    requires { target.0 < table.now.shape.points }
    ensures { OnOk result (targets.new.items ≡ targets.old.items ++ filter
        (is_reached table.now marks.now) (target ∷ [])) }
{
    if is_reached(table, target, marks) {
        targets.push(target)?;
    }
    Ok(())
}

/// A mark for each point that says whether it stands in a list.
fn marks_of(alloc: Global, points: u32, listed: &[PointId]) -> Result<Vec<bool>, AllocError>
    requires { All (λ point. point.0 < points) listed.now }
    ensures count { IfOk result (λ marks. length marks.items ≡ points) }
    ensures marks { IfOk result (λ marks. AreMarks listed.now marks.items) }
{
    let mut marks = vec![in alloc; false; points as usize]?;
    for point in listed {
        marks[point.0 as usize] = true;
    }
    Ok(marks)
}

/// Whether a negative edge goes to a target from a marked point.
fn is_reached(table: &Table, target: PointId, marks: &[bool]) -> bool
    requires { target.0 < table.now.shape.points }
    ensures { result ≡ is_reached table.now marks.now target }
{
    has_reaching(table.entries(target), target, marks)
}

fn has_reaching(row: &[Entry], target: PointId, marks: &[bool]) -> bool
    ensures { result ≡ list_any (λ entry. reaches marks.now (edge_into target entry)) row.now }
{
    row.iter()
        .any(|entry| reaches(marks, &entry.edge_into(target)))
}

/// Whether an edge is negative and begins in a marked point.
fn reaches(marks: &[bool], edge: &Edge) -> bool
    ensures { result ≡ reaches marks.now edge.now }
{
    edge.weight < 0 && is_marked(marks, edge.from)
}

fn is_marked(marks: &[bool], point: PointId) -> bool
    ensures { result ≡ slice_index_or marks.now point.0 false }
{
    marks.get(point.0 as usize).copied().unwrap_or(false)
}
