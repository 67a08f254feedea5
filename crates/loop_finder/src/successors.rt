//! Where negative ordinary edges of a table go, by the points in which they begin.

ghost use Rattle.std.specs.Prelude.{◌≡◌, ◌<◌, ◌++◌, ◌∷◌, [], ℕ, length, IfOk, OnOk, replicate};
ghost use Rattle.std.specs.Prelude.{if◌then◌else◌, slice_index_or};
ghost use Rattle.closure_model.specs.Orders.{goes};
ghost use Rattle.loop_finder.specs.NegativeSuccessors.{AreNegativeSuccessors, is_negative_entry};
ghost use Rattle.loop_finder.specs.NegativeSuccessors.{with_target, point};

use labelled_graph::{Entry, Table};
use net_model::PointId;
use std::alloc::{AllocError, Global};
use std::marker::Model;

/// Points, seen as the list of them.
#[derive(Debug, Drop)]
pub(crate) struct Targets {
    points: Vec<PointId>,
}

impl Model for Targets {
    ghost use Rattle.std.specs.Prelude.{List};
    ghost use Rattle.std.specs.Coded.{coded_list};
    ghost use Rattle.net_model.specs.declared.ids.PointId.{PointId};
    ghost use Rattle.closure_model.specs.Codes.{point_code};

    ghost Value = { List PointId };

    ghost coded = { coded_list point_code };

    ghost view = { λ targets. targets.points.items };
}

impl Targets {
    fn none(alloc: Global) -> Targets
        ensures { result ≡ [] }
    {
        Targets {
            points: Vec::new(alloc),
        }
    }

    /// One point more, at the end.
    fn push(&mut self, point: PointId) -> Result<(), AllocError>
        ensures { OnOk result (self.new ≡ self.old ++ point ∷ []) }
    {
        Ok(self.points.push(point)?)
    }

    pub(crate) fn as_slice(&self) -> &[PointId]
        ensures { result.now ≡ self.now }
    {
        self.points.as_slice()
    }
}

/// For each point the points to which a negative ordinary edge goes from it, in order. It reads
/// each entry of the table once.
pub(crate) fn negative_successors(
    alloc: Global,
    table: &Table,
    points: u32,
) -> Result<Vec<Targets>, AllocError>
    requires { points ≡ table.now.shape.points }
    ensures { IfOk result (λ lists. AreNegativeSuccessors table.now lists.items) }
{
    let mut lists = no_targets(alloc, points)?;
    for to in 0..points {
        push_target(lists.as_mut_slice(), table, PointId(to))?;
    }
    Ok(lists)
}

/// Empty lists for so many points.
fn no_targets(alloc: Global, points: u32) -> Result<Vec<Targets>, AllocError>
    ensures { IfOk result (λ lists. lists.items ≡ replicate points []) }
{
    let mut lists = Vec::new(alloc);
    for _point in 0..points {
        lists.push(Targets::none(alloc))?;
    }
    Ok(lists)
}

/// Adds a point to the list of each point from which a negative ordinary edge goes to it.
fn push_target(lists: &mut [Targets], table: &Table, to: PointId) -> Result<(), AllocError>
    requires to_point { to.0 < table.now.shape.points }
    requires count { length lists.old ≡ table.now.shape.points }
    ensures count { OnOk result (length lists.new ≡ length lists.old) }
    ensures pushed { OnOk result ((from : ℕ) → from < length lists.old
        → slice_index_or lists.new from [] ≡ slice_index_or lists.old from [] ++
        (if goes table.now (point from) to then to ∷ [] else [])) }
{
    let entries = table.entries(to);
    for entry in entries {
        push_entry(lists, entry, to)?;
    }
    Ok(())
}

/// Adds the point to the list of the point in which an entry of a negative ordinary edge begins.
fn push_entry(lists: &mut [Targets], entry: &Entry, to: PointId) -> Result<(), AllocError>
    requires { entry.now.from.0 < length lists.old }
    ensures { OnOk result (lists.new ≡ with_target lists.old entry.now to) }
{
    if is_negative_entry(entry) {
        let targets = &mut lists[entry.from.0 as usize];
        targets.push(to)?;
    }
    Ok(())
}

/// Whether an entry is of an ordinary edge of negative weight.
pub(crate) fn is_negative_entry(entry: &Entry) -> bool
    ensures { result ≡ is_negative_entry entry.now }
{
    entry.is_ordinary() && entry.weight < 0
}
