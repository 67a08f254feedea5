//! The words with which cells begin: those of a table.

ghost use Rattle.std.specs.Prelude.{◌≡◌, ◌<◌, ◌+◌, ◌*◌, length, IfOk, IfSome};
ghost use Rattle.closure_model.specs.Keys.{Key, IsKey};
ghost use Rattle.closure_model.specs.Tables.{weight_of};
ghost use Rattle.net_model.specs.Limits.{IsWeight};
ghost use Rattle.cell_table.specs.Places.{word_place_of, held, row_number};
ghost use Rattle.cell_table.specs.TableWords.{AreWordsOfTable};

use labelled_graph::Table;
use net_model::{LinkId, PointId, Weight};
use std::alloc::{AllocError, Global};

/// The word of a key without a weight: 2^41.
pub(crate) const ABSENT: u64 = 2_199_023_255_552;

/// What is added to a weight to make its word: 2^40.
pub(crate) const ADDED: i64 = 1_099_511_627_776;

/// The words of a table: word 0, and that of each key at its place. `AllocError` comes only for
/// want of memory.
pub(crate) fn words_of(
    alloc: Global,
    table: &Table,
    points: usize,
    links: usize,
) -> Result<Vec<u64>, AllocError>
    requires points { points ≡ table.now.shape.points }
    requires links { links ≡ length table.now.shape.activations }
    requires few { points < 4000 }
    requires few_links { links < 4000 }
    ensures { IfOk result (λ words. AreWordsOfTable table.now words.items) }
{
    let mut words = Vec::new(alloc);
    words.push(0)?;
    for place in 0..(points + links) * points {
        words.push(word_at(table, points, place))?;
    }
    Ok(words)
}

/// The word of the key whose place is the next one.
fn word_at(table: &Table, points: usize, place: usize) -> u64
    requires points { points ≡ table.now.shape.points }
    requires few { points < 4000 }
    requires place { place < (points + length table.now.shape.activations) * points }
    requires few_links { length table.now.shape.activations < 4000 }
    ensures { (key : Key) → IsKey table.now.shape key
        → word_place_of table.now.shape key ≡ place + 1 → held result ≡ weight_of table.now key }
{
    let row = place / points;
    let from = place % points;
    let weight = weight_at(table, points, row, from);
    word_of(weight)
}

/// What a table has in a row from a point: the rows are those of the points, and then those of the
/// links.
fn weight_at(table: &Table, points: usize, row: usize, from: usize) -> Option<Weight>
    requires points { points ≡ table.now.shape.points }
    requires few { points < 4000 }
    requires few_links { length table.now.shape.activations < 4000 }
    requires row { row < points + length table.now.shape.activations }
    requires from { from < points }
    ensures weight { (key : Key) → IsKey table.now.shape key
        → row_number points key.to key.label ≡ row → key.from.0 ≡ from
        → result ≡ weight_of table.now key }
    ensures sound { IfSome result IsWeight }
{
    if row < points {
        table.weight(PointId(from as u32), PointId(row as u32))
    } else {
        let link = LinkId((row - points) as u32);
        table.upper(PointId(from as u32), link)
    }
}

/// The word of a weight, if there is one.
fn word_of(weight: Option<Weight>) -> u64
    requires { IfSome weight IsWeight }
    ensures { held result ≡ weight }
{
    match weight {
        None => ABSENT,
        Some(weight) => (weight + ADDED) as u64,
    }
}
