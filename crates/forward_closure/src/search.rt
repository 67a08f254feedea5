//! The search for a forward closed table: a table is relaxed depth first, with first edges that are
//! not negative.

ghost use Rattle.std.specs.Prelude.{◌≡◌, ◌<◌, length, IfOk, IfSome};
ghost use Rattle.std.specs.List.{All};
ghost use Rattle.closure_model.specs.Derivable.{IsDerivable};
ghost use Rattle.network_closure.specs.Saturation.{IsPartialClosure};
ghost use Rattle.forward_closure.specs.Rows.{row_edge_into, AreDerivedInto};

use crate::first_edges::{FirstEdges, first_edges};
use crate::least_words::LeastWords;
use crate::open_row::{OpenRow, RowEdge, lower_to_row};
use labelled_graph::Table;
use net_model::{Network, PointId};
use std::alloc::{AllocError, Global};
use std::marker::Model;

/// How far the row of a point is: not begun, in progress, or made.
#[derive(Clone, Copy, PartialEq, Eq)]
enum Mark {
    New,
    Open,
    Done,
}

/// A table of derivable edges of a network, relaxed depth first with first edges that are not
/// negative (Morris 2014): the row of a point is made after those of the points from which a
/// negative edge goes into it, and over their ordinary edges of 0 or more. If a negative edge comes
/// from a row in progress, the negative edges of all rows in progress are the last. Each row is
/// made once, and each key of it settled once. That nothing which follows forward is left, or that
/// the table has a cycle, is tested, not proved. `AllocError` comes only for want of memory.
pub(crate) fn searched(alloc: Global, net: &Network) -> Result<Table, AllocError>
    ensures { IfOk result (IsPartialClosure net.now) }
{
    let mut search = Search::of(alloc, net)?;
    search.make_all()?;
    Ok(search.into_table())
}

/// A table that is relaxed depth first: the first edges of the rows that are made, how far the row
/// of each point is, and the rows in progress, each of which needs the next. The words are those of
/// the last. Contracts see the network.
#[derive(Drop)]
struct Search<'a> {
    alloc: Global,
    net: &'a Network,
    table: Table,
    firsts: FirstEdges<'a>,
    marks: Vec<Mark>,
    stack: Vec<OpenRow<'a>>,
    words: LeastWords,
}

impl<'a> Model for Search<'a> {
    ghost use Rattle.net_model.specs.Network.{Plan};

    ghost Value = { Plan };

    ghost use Rattle.forward_closure.specs.Searching.{IsSearching};

    ghost view = { λ search. search.net.now };

    ghost invariant = { IsSearching };
}

impl<'a> Search<'a> {
    /// The base table of a network, no row of which is begun.
    fn of(alloc: Global, net: &'a Network) -> Result<Search<'a>, AllocError>
        ensures { IfOk result (λ search. search ≡ net.now) }
    {
        Ok(Search {
            alloc,
            net,
            table: base_table(alloc, net)?,
            firsts: FirstEdges::none(alloc, net)?,
            marks: vec![in alloc; Mark::New; net.points().len()]?,
            stack: Vec::new(alloc),
            words: LeastWords::absent(alloc, net)?,
        })
    }

    /// The table as it is.
    fn into_table(self) -> Table
        ensures { IsPartialClosure self.entry result }
    {
        self.table
    }

    /// How many points the network has.
    fn points(&self) -> u32
        ensures { result ≡ length self.now.points }
    {
        self.net.points().len() as u32
    }

    /// Makes the row of each point, until a negative edge comes from a row in progress.
    fn make_all(&mut self) -> Result<(), AllocError>
        ensures { self.new ≡ self.old }
    {
        for point in 0..self.points() {
            let goes = self.make(PointId(point))?;
            if !goes {
                return Ok(());
            }
        }
        Ok(())
    }

    /// Makes the row of a point, if it is not begun, and first those that it needs. True unless a
    /// negative edge came from a row in progress.
    fn make(&mut self, root: PointId) -> Result<bool, AllocError>
        requires { root.0 < length self.old.points }
        ensures { self.new ≡ self.old }
    {
        if self.meet(root) == Mark::New {
            self.begin(root)?;
        }
        for _turn in 0..self.most_turns() {
            match self.take_row() {
                None => return Ok(true),
                Some(row) => {
                    let goes = self.turn(row)?;
                    if !goes {
                        return Ok(false);
                    }
                }
            }
        }
        Ok(true)
    }

    /// So many turns are enough: each key of a row is settled once, each row is begun once, and
    /// once it is made.
    fn most_turns(&self) -> u64 {
        let points = self.net.points().len() as u64;
        let links = self.net.links().len() as u64;
        points
            .saturating_add(links)
            .saturating_add(2)
            .saturating_mul(points)
    }

    /// The row that is relaxed, if one is in progress.
    fn take_row(&mut self) -> Option<OpenRow<'a>>
        ensures search { self.new ≡ self.old }
        ensures row { IfSome result (λ row. row.net ≡ self.old) }
    {
        self.stack.pop()
    }

    /// Puts a row on those in progress.
    fn put_row(&mut self, row: OpenRow<'a>) -> Result<(), AllocError>
        requires { row.net ≡ self.old }
        ensures { self.new ≡ self.old }
    {
        self.stack.push(row)?;
        Ok(())
    }

    /// The mark of the row of a point, which is in progress from then on if it was not begun.
    fn meet(&mut self, point: PointId) -> Mark
        ensures { self.new ≡ self.old }
    {
        match self.marks.get_mut(point.0 as usize) {
            None => Mark::Done,
            Some(place) => {
                let mark = *place;
                if mark == Mark::New {
                    *place = Mark::Open;
                }
                mark
            }
        }
    }

    /// Begins the row of a point.
    fn begin(&mut self, target: PointId) -> Result<(), AllocError>
        requires { target.0 < length self.old.points }
        ensures { self.new ≡ self.old }
    {
        let row = OpenRow::begun(self.alloc, self.net, target, &self.table, &mut self.words)?;
        self.put_row(row)
    }

    /// Settles the next negative edge of a row, or begins the row that it needs. True unless the
    /// edge came from a row in progress.
    fn turn(&mut self, mut row: OpenRow<'a>) -> Result<bool, AllocError>
        requires { row.net ≡ self.old }
        ensures { self.new ≡ self.old }
    {
        match row.next(&self.words) {
            None => {
                self.finish(row)?;
                Ok(true)
            }
            Some(edge) => match self.meet(edge.from) {
                Mark::Open => {
                    self.put_row(row)?;
                    self.lower_to_open_rows()?;
                    Ok(false)
                }
                Mark::New => {
                    self.begin_before(row, edge)?;
                    Ok(true)
                }
                Mark::Done => {
                    self.settle(row, &edge)?;
                    Ok(true)
                }
            },
        }
    }

    /// Begins the row that an edge of another needs, which goes on once that one is made.
    fn begin_before(&mut self, mut row: OpenRow<'a>, edge: RowEdge) -> Result<(), AllocError>
        requires row { row.net ≡ self.old }
        requires edge { IsDerivable self.old (row_edge_into row.target edge) }
        ensures { self.new ≡ self.old }
    {
        let net = self.net;
        net.sound();
        row.suspend_before(&mut self.words, edge)?;
        self.put_row(row)?;
        self.begin(edge.from)
    }

    /// Settles a negative edge of a row, which goes on.
    fn settle(&mut self, mut row: OpenRow<'a>, edge: &RowEdge) -> Result<(), AllocError>
        requires row { row.net ≡ self.old }
        requires edge { IsDerivable self.old (row_edge_into row.target edge.now) }
        ensures { self.new ≡ self.old }
    {
        let firsts = self.firsts.into_point(edge.from);
        row.settle(&mut self.words, firsts, edge)?;
        self.put_row(row)
    }

    /// The row of a point is made: its edges come into the table, and later rows are relaxed over
    /// its first edges.
    fn finish(&mut self, mut row: OpenRow<'a>) -> Result<(), AllocError>
        requires { row.net ≡ self.old }
        ensures { self.new ≡ self.old }
    {
        let target = row.target();
        row.remove_labels(&mut self.words)?;
        let edges = row.least(self.alloc, &mut self.words)?;
        self.keep_firsts(target, edges.as_slice())?;
        lower_to_row(&mut self.table, self.net, target, edges.as_slice())?;
        self.end(target);
        Ok(())
    }

    /// Keeps the first edges of the row of a point.
    fn keep_firsts(&mut self, target: PointId, edges: &[RowEdge]) -> Result<(), AllocError>
        requires { AreDerivedInto self.old target edges.now }
        ensures { self.new ≡ self.old }
    {
        let firsts = first_edges(self.alloc, edges)?;
        self.firsts.set(target, firsts);
        Ok(())
    }

    /// Marks the row of a point as made, and gives the words to the row that needed it.
    fn end(&mut self, target: PointId)
        ensures { self.new ≡ self.old }
    {
        if let Some(mark) = self.marks.get_mut(target.0 as usize) {
            *mark = Mark::Done;
        }
        if let Some(row) = self.stack.last() {
            row.resume(&mut self.words);
        }
    }

    /// Lowers the table to the negative edges of all rows in progress.
    fn lower_to_open_rows(&mut self) -> Result<(), AllocError>
        ensures { self.new ≡ self.old }
    {
        lower_to_rows(&mut self.table, self.net, self.stack.as_slice())
    }
}

/// The base table of a network.
fn base_table(alloc: Global, net: &Network) -> Result<Table, AllocError>
    ensures { IfOk result (IsPartialClosure net.now) }
{
    net.sound();
    let table = Table::of(alloc, net)?;
    Ok(table)
}

/// Lowers a table to the negative edges of rows.
fn lower_to_rows(table: &mut Table, net: &Network, rows: &[OpenRow]) -> Result<(), AllocError>
    requires table { IsPartialClosure net.now table.old }
    requires rows { All (λ row. row.net ≡ net.now) rows.now }
    ensures { IsPartialClosure net.now table.new }
{
    for row in rows {
        row.lower_to_negative(table)?;
    }
    Ok(())
}
