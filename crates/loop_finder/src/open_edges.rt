//! How many negative ordinary edges go from each point to points that are not placed, and which
//! points are free: not placed, and without such an edge.

ghost use Rattle.std.specs.Prelude.{◌≡◌, ◌<◌, ◌≤◌, ◌+◌, ◌^◌, [], ℕ, length, IfOk};
ghost use Rattle.std.specs.Prelude.{slice_index_or};
ghost use Rattle.loop_finder.specs.OpenEdges.{counted, closed, freed, AreCountsTo, AreDue};
ghost use Rattle.loop_finder.specs.OpenEdges.{DifferByEdges, HaveOpenEdges, AreFreed, CanClose};

use crate::successors::is_negative_entry;
use labelled_graph::{Entry, Table};
use net_model::PointId;
use std::alloc::{AllocError, Global};
use tournament_queue::DueQueue;

/// From when on a free point is due: of points that are due at one moment the lowest comes first.
const FREE: u64 = 0;

/// How many negative ordinary edges go from each point.
pub(crate) fn edge_counts(
    alloc: Global,
    table: &Table,
    points: u32,
) -> Result<Vec<usize>, AllocError>
    requires { points ≡ table.now.shape.points }
    ensures { IfOk result (λ counts. AreCountsTo table.now points counts.items) }
{
    let mut counts = vec![in alloc; 0usize; points as usize]?;
    for to in 0..points {
        count_edges(table, PointId(to), &mut counts);
    }
    Ok(counts)
}

/// Counts the negative ordinary edges that go to a point, each for the point in which it begins.
fn count_edges(table: &Table, to: PointId, counts: &mut Vec<usize>)
    requires to_point { to.0 < table.now.shape.points }
    requires count { length counts.old.items ≡ table.now.shape.points }
    requires low { (k : ℕ) → slice_index_or counts.old.items k 0 ≤ to.0 }
    ensures { DifferByEdges table.now to counts.old.items counts.new.items }
{
    let entries = table.entries(to);
    for entry in entries {
        count_entry(entry, counts);
    }
}

/// Counts the edge of an entry, if it is a negative ordinary one.
fn count_entry(entry: &Entry, counts: &mut Vec<usize>)
    requires from { entry.now.from.0 < length counts.old.items }
    requires low { slice_index_or counts.old.items entry.now.from.0 0 ≤ 2 ^ 32 }
    ensures { counts.new.items ≡ counted counts.old.items entry.now }
{
    if is_negative_entry(entry) {
        counts[entry.from.0 as usize] += 1;
    }
}

/// The free points, while none is placed: those of no negative ordinary edge.
pub(crate) fn free_points(alloc: Global, left: &[usize]) -> Result<DueQueue, AllocError>
    requires { length left.now < 2 ^ 32 }
    ensures { IfOk result (λ free. AreDue [] left.now free) }
{
    let mut free = DueQueue::new(alloc, left.len() as u32)?;
    for (number, edges) in left.iter().enumerate() {
        if *edges == 0 {
            free.set(PointId(number as u32), Some(FREE));
        }
    }
    Ok(free)
}

/// Takes the negative ordinary edges that go to a point as edges to a placed one: where they begin,
/// one edge fewer is left, and a point with none left is free.
pub(crate) fn close_edges(table: &Table, to: PointId, left: &mut Vec<usize>, free: &mut DueQueue)
    requires to_point { to.0 < table.now.shape.points }
    requires open_count { length left.old.items ≡ table.now.shape.points }
    requires free_count { length free.old ≡ table.now.shape.points }
    requires left { HaveOpenEdges table.now to left.old.items }
    ensures left { DifferByEdges table.now to left.new.items left.old.items }
    ensures free { AreFreed table.now to left.new.items free.old free.new }
{
    let entries = table.entries(to);
    for entry in entries {
        close_entry(entry, left, free);
    }
}

/// The same for the edge of an entry, if it is a negative ordinary one.
fn close_entry(entry: &Entry, left: &mut Vec<usize>, free: &mut DueQueue)
    requires { CanClose entry.now left.old.items free.old }
    ensures left { left.new.items ≡ closed left.old.items entry.now }
    ensures free { free.new ≡ freed free.old left.new.items entry.now }
{
    if is_negative_entry(entry) {
        let edges = left[entry.from.0 as usize] - 1;
        left[entry.from.0 as usize] = edges;
        if edges == 0 {
            free.set(entry.from, Some(FREE));
        }
    }
}
