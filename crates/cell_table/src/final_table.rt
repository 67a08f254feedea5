//! The table that the words of cells give at the end.

ghost use Rattle.std.specs.Prelude.{◌≡◌, ◌<◌, ◌+◌, ◌*◌, length, IfOk, OnOk};
ghost use Rattle.std.specs.Mem.Slots.{slots_items, slots_len, IsFull};
ghost use Rattle.closure_model.specs.Keys.{IsKey, key_of, shape_of};
ghost use Rattle.cell_table.specs.Places.{word_place_of};
ghost use Rattle.cell_table.specs.FinalTables.{AreOfShape, CanTake, CanTakeAt, TakesAt, TakesCellWords};

use crate::word::weight_of_word;
use atomic_table::Closed;
use labelled_graph::Table;
use net_model::{Edge, LinkId, Network, PointId, Weight};
use std::alloc::{AllocError, Global};

/// The points in which the edges of each label end: those in which the links begin.
pub(crate) fn ends_of(alloc: Global, net: &Network) -> Result<Vec<PointId>, AllocError>
    ensures { IfOk result (λ ends. ends.items ≡ (shape_of net.now).activations) }
{
    let mut ends = Vec::new(alloc);
    for link in net.links() {
        ends.push(link.from)?;
    }
    Ok(ends)
}

/// A table, lowered to what words hold. `AllocError` comes only for want of memory.
pub(crate) fn taken_in(
    mut table: Table,
    words: &Closed<(), Global>,
    ends: &[PointId],
    points: usize,
    count: usize,
) -> Result<Table, AllocError>
    requires shape { AreOfShape table.shape points ends.now }
    requires can { CanTake table (slots_items words.now.words) }
    requires full { IsFull words.now.words }
    requires count { count ≡ slots_len words.now.words }
    ensures { IfOk result (TakesCellWords table (slots_items words.now.words)) }
{
    for place in 0..count - 1 {
        let word = words.word(place + 1);
        take_at(&mut table, ends, points, place, word)?;
    }
    Ok(table)
}

/// Lowers the key of a place to what its word holds.
fn take_at(
    table: &mut Table,
    ends: &[PointId],
    points: usize,
    place: usize,
    word: u64,
) -> Result<(), AllocError>
    requires shape { AreOfShape table.old.shape points ends.now }
    requires can { CanTakeAt table.old (place + 1) word }
    requires place { place < (points + length table.old.shape.activations) * points }
    ensures { OnOk result (TakesAt table.old (place + 1) word table.new) }
{
    match weight_of_word(word) {
        None => Ok(()),
        Some(weight) => {
            let edge = edge_at(table, ends, points, place, &weight);
            table.lower_to(&edge)?;
            Ok(())
        }
    }
}

/// The edge of the key of a place and a weight.
fn edge_at(table: &Table, ends: &[PointId], points: usize, place: usize, weight: &Weight) -> Edge
    requires shape { AreOfShape table.now.shape points ends.now }
    requires place { place < (points + length table.now.shape.activations) * points }
    ensures key { IsKey table.now.shape (key_of result) }
    ensures place { word_place_of table.now.shape (key_of result) ≡ place + 1 }
    ensures weight { result.weight ≡ weight.now }
{
    let row = place / points;
    let from = PointId((place % points) as u32);
    if row < points {
        return Edge {
            from,
            to: PointId(row as u32),
            label: None,
            weight: *weight,
        };
    }
    let link = LinkId((row - points) as u32);
    Edge {
        from,
        to: ends[link.0 as usize],
        label: Some(link),
        weight: *weight,
    }
}
