//! The cells of a network, and the steps of their seats.

ghost use Rattle.std.specs.Prelude.{◌≡◌, ◌<◌, ◌≤◌, ◌+◌, ◌*◌, ◌+ℤ◌, pos, length, slice_get, Some};
ghost use Rattle.std.specs.Prelude.{IfOk, IfErr};
ghost use Rattle.closure_model.specs.Derivable.{IsDerivable};
ghost use Rattle.closure_model.specs.Keys.{ordinary_key, labelled_key, key_of, shape_of, IsKey};
ghost use Rattle.closure_model.specs.Closure.{HoldsDerivable};
ghost use Rattle.closure_model.specs.Tables.{IsFor, base_table};
ghost use Rattle.net_model.specs.Limits.{IsWeight};
ghost use Rattle.shared_seats.specs.NotedViews.{split_from, split_off, joined_with};
ghost use Rattle.cell_table.specs.TableWords.{AreMadeOf, IsLeftOf};
ghost use Rattle.cell_table.specs.Faults.{IsCellFault};
ghost use Rattle.cell_table.specs.Limits.{most_cell_seats};
ghost use Rattle.cell_table.specs.Places.{held, absent_cell, weight_offset, row_number};
ghost use Rattle.cell_table.specs.Shared.{IsSeatOfCells, Loads, Lowers};

use crate::fault::CellFault;
use crate::final_table::{ends_of, taken_in};
use crate::rule::{Loading, Relaxing, Shown};
use crate::seat::CellSeat;
use crate::table_words::{ADDED, words_of};
use crate::view::{About, View};
use crate::word::weight_of_word;
use labelled_graph::Table;
use net_model::{Edge, LinkId, Network, PointId, Weight};
use shared_seats::SharedWords;
use std::alloc::{AllocError, Global};
use std::marker::Model;
use std::snapshot::Snapshot;

/// How many keys cells may have.
pub const MOST_KEYS: usize = 1_000_000;

/// A table of a network that several workers lower in place: a word of 64 bits for each key,
/// (points + links) * points of them, and one word that is always 0. Each step of a seat is one
/// atomic step at one word, and no step takes memory. Points and links that are passed to a call
/// are those of the network.
///
/// `new` or `of_table` gives them with a first seat. Each worker steps with a seat of its own,
/// which was split from the first one and is joined into it at the end; `close` gives the table
/// that is left.
#[derive(Drop)]
pub struct Cells {
    words: SharedWords<View, About, Shown>,
    /// The table from which the words were made.
    first: Table,
    /// The points in which the edges of each label end.
    ends: Vec<PointId>,
    /// How many points there are.
    points: usize,
}

impl Model for Cells {
    ghost use Rattle.cell_table.specs.Shared.{CellsSeen};
    ghost use Rattle.cell_table.specs.Seats.{cells_code, IsCells};

    ghost Value = { CellsSeen };

    ghost coded = { cells_code };

    ghost view = { λ cells. record {
      id = cells.words.id;
      about = cells.words.key;
    } };

    ghost invariant = { λ cells. IsCells cells.words.id cells.words.key cells.first
        cells.ends.items cells.points };
}

impl Cells {
    /// The cells of the base table of a network, and the first of their seats, of which there may
    /// be so many, 1 to 64. The faults are those of `of_table`.
    pub fn new(alloc: Global, net: &Network, seats: u32) -> Result<(Cells, CellSeat), CellFault>
        requires seats { (1 ≤ seats) × (seats ≤ most_cell_seats) }
        ensures made { IfOk result (λ made. AreMadeOf net.now
            (base_table net.now) seats made.0 made.1) }
        ensures many { IfErr result (IsCellFault net.now) }
    {
        match Table::of(alloc, net) {
            Err(_) => Err(CellFault::OutOfMemory),
            Ok(table) => Cells::of_table(alloc, net, &table, seats),
        }
    }

    /// The cells of a table of a network whose edges are all derivable, and the first of their
    /// seats, of which there may be so many, 1 to 64. They take 8 bytes for each key, and a copy of
    /// the table. `TooMany` comes exactly if there are more than 1,000,000 keys, points times
    /// (points + links), with their number, `OutOfMemory` only for want of memory.
    pub fn of_table(
        alloc: Global,
        net: &Network,
        table: &Table,
        seats: u32,
    ) -> Result<(Cells, CellSeat), CellFault>
        requires seats { (1 ≤ seats) × (seats ≤ most_cell_seats) }
        requires fits { IsFor net.now table.now }
        requires derivable { HoldsDerivable net.now table.now }
        ensures made { IfOk result (λ made. AreMadeOf net.now table.now seats made.0 made.1) }
        ensures many { IfErr result (IsCellFault net.now) }
    {
        let points = net.points().len();
        let links = net.links().len();
        let keys = (points + links) * points;
        if keys > MOST_KEYS {
            return Err(CellFault::TooMany(keys as u32));
        }
        let Ok(first) = table.copy(alloc) else {
            return Err(CellFault::OutOfMemory);
        };
        let Ok(ends) = ends_of(alloc, net) else {
            return Err(CellFault::OutOfMemory);
        };
        let Ok(words) = words_of(alloc, table, points, links) else {
            return Err(CellFault::OutOfMemory);
        };
        let about = About {
            net: Snapshot::of(net),
            first: Snapshot::of(table),
            seats,
        };
        match SharedWords::new(alloc, words.as_slice(), &about, seats - 1) {
            Err(_) => Err(CellFault::OutOfMemory),
            Ok((words, seat)) => Ok((
                Cells {
                    words,
                    first,
                    ends,
                    points,
                },
                seat,
            )),
        }
    }

    /// Splits a new seat from one from which at least one more may be split. The new one has no
    /// notes and no looks, and none may be split from it.
    pub fn split(&self, seat: &mut CellSeat) -> CellSeat
        requires seat { IsSeatOfCells self.now seat.old }
        requires may { 0 < seat.old.view.to_split }
        ensures from { seat.new ≡ record {
          table = seat.old.table;
          view = split_from seat.old.view;
        } }
        ensures off { result ≡ record { table = seat.old.table; view = split_off seat.old.view } }
    {
        self.words.split(seat)
    }

    /// Joins a seat into another, which takes over the notes of the other and keeps its own looks.
    pub fn join(&self, into: &mut CellSeat, from: CellSeat)
        requires seats { IsSeatOfCells self.now into.old × IsSeatOfCells self.now from }
        ensures { into.new ≡ record {
          table = into.old.table;
          view = joined_with into.old.view from.view;
        } }
    {
        self.words.join(into, from);
    }

    /// The weight that the ordinary key between two points has at this step, and `None` exactly if
    /// it has none. It is derivable, and at most each weight that the seat has noted of the key, so
    /// that a key of which it has a note has a weight.
    pub fn load(&self, seat: &mut CellSeat, from: PointId, to: PointId) -> Option<Weight>
        requires seat { IsSeatOfCells self.now seat.old }
        requires key { IsKey (shape_of self.now.about.net.value) (ordinary_key from to) }
        ensures { Loads seat.old seat.new (ordinary_key from to) result }
    {
        // The proof reads here that the network is sound.
        let _ = &self.words;
        let place = self.place(from, to.0 as usize);
        let word = self.words.load::<Loading>(seat, place);
        weight_of_word(word)
    }

    /// The weight that the key from a point with a link as its label has at this step; all else is
    /// as with `load`.
    pub fn load_upper(&self, seat: &mut CellSeat, from: PointId, link: LinkId) -> Option<Weight>
        requires seat { IsSeatOfCells self.now seat.old }
        requires from { from.0 < length self.now.about.net.value.points }
        requires link { link.0 < length self.now.about.net.value.links }
        ensures { (to : PointId) → slice_get (shape_of self.now.about.net.value).activations
            link.0 ≡ Some to → Loads seat.old seat.new (labelled_key from to link) result }
    {
        let place = self.place(from, self.points + link.0 as usize);
        let word = self.words.load::<Loading>(seat, place);
        weight_of_word(word)
    }

    /// Relaxes a derivable edge, by one atomic `fetch_min`: its key keeps the lesser of what it has
    /// at this step and the weight of the edge. True exactly if the key had no weight or a greater
    /// one.
    pub fn lower(&self, seat: &mut CellSeat, edge: &Edge) -> bool
        requires seat { IsSeatOfCells self.now seat.old }
        requires derivable { IsDerivable self.now.about.net.value edge.now }
        ensures { Lowers seat.old seat.new edge.now result }
    {
        // The proof reads here that the network is sound.
        let _ = &self.words;
        let row = self.row(edge);
        let place = self.place(edge.from, row);
        let word = word_of(edge);
        let found = self.words.fetch_min::<Relaxing>(seat, place, word);
        word < found
    }

    /// The table that is left at the end, by a seat: its edges are derivable, and each edge of the
    /// first table, and each edge that the seat noted, it has at most at its weight. `AllocError`
    /// comes only for want of memory.
    pub fn close(self, seat: CellSeat) -> Result<Table, AllocError>
        requires seat { IsSeatOfCells self seat }
        ensures { IfOk result (IsLeftOf self.about seat.view) }
    {
        let Cells {
            words,
            first,
            ends,
            points,
        } = self;
        let count = words.word_count();
        let closed = words.close(seat);
        let taken = taken_in(first, &closed, ends.as_slice(), points, count);
        closed.free();
        taken
    }

    /// The row of the key of an edge.
    fn row(&self, edge: &Edge) -> usize
        requires { IsDerivable self.now.about.net.value edge.now }
        ensures { result ≡ row_number (length self.now.about.net.value.points) edge.now.to
            edge.now.label }
    {
        match edge.label {
            None => edge.to.0 as usize,
            Some(link) => self.points + link.0 as usize,
        }
    }

    /// Where the word of a row and a point is. No row and no point has a number of 4,000 or more.
    fn place(&self, from: PointId, row: usize) -> usize
        requires row { row < 4000 }
        requires from { from.0 < 4000 }
        ensures { result ≡ row * length self.now.about.net.value.points + from.0 + 1 }
    {
        row * self.points + from.0 as usize + 1
    }
}

/// The word of the weight of an edge.
fn word_of(edge: &Edge) -> u64
    requires { IsWeight edge.now.weight }
    ensures { pos result ≡ edge.now.weight +ℤ pos weight_offset }
{
    (edge.weight + ADDED) as u64
}
