//! The entries of the edges that a row made, in the order of their keys.

ghost use Rattle.std.specs.Prelude.{◌≡◌, ◌<◌, ◌^◌, true, IfOk, IfSome};
ghost use Rattle.std.specs.List.{All};
ghost use Rattle.std.specs.declared.cmp.Ordering.TheVariants.{Less};
ghost use Rattle.net_model.specs.declared.ids.PointId.{PointId};
ghost use Rattle.closure_model.specs.Keys.{key_cmp};
ghost use Rattle.labelled_graph.specs.Entries.{key_into};
ghost use Rattle.labelled_graph.specs.MergedRows.{edges_made, AreEntriesOf, AreEntriesIn};
ghost use Rattle.labelled_graph.specs.Rows.{AreRising};

use crate::entry::{Entry, wide_label};
use closure_model::rows::Made;
use std::alloc::{AllocError, Global};
use std::cmp::Ordering;

/// The entries of the edges that a row made, in the order of their keys.
pub(crate) fn ordered(alloc: Global, made: &[Made]) -> Result<Vec<Entry>, AllocError>
    requires { All (λ one. IfSome one.edge.label (λ label. label.0 < 2 ^ 16)) made.now }
    ensures { IfOk result (λ entries. AreEntriesOf made.now entries.items) }
{
    let mut entries = entries_of(alloc, made)?;
    entries.sort_unstable_by(|entry, other| entry.compare(other.from, wide_label(other.label)));
    Ok(entries)
}

fn entries_of(alloc: Global, made: &[Made]) -> Result<Vec<Entry>, AllocError>
    requires { All (λ one. IfSome one.edge.label (λ label. label.0 < 2 ^ 16)) made.now }
    ensures { IfOk result (λ entries. AreEntriesIn made.now entries.items) }
{
    let mut entries = Vec::with_capacity(alloc, made.len())?;
    for one in made {
        entries.push(Entry::of(&one.edge))?;
    }
    Ok(entries)
}

/// Whether the keys of entries rise: they are in order, and none stands twice.
pub(crate) fn rise(entries: &[Entry]) -> bool
    ensures { result ≡ true → (to : PointId) → AreRising to entries.now }
{
    for place in 1..entries.len() {
        if !is_before(&entries[place - 1], &entries[place]) {
            return false;
        }
    }
    true
}

fn is_before(entry: &Entry, other: &Entry) -> bool
    ensures { result ≡ true → (to : PointId)
        → key_cmp (key_into to entry.now) (key_into to other.now) ≡ Less }
{
    entry.compare(other.from, wide_label(other.label)) == Ordering::Less
}
