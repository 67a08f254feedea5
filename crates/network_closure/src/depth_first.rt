//! The relaxation of a table depth first, row by row (Morris 2014).

ghost use Rattle.std.specs.Prelude.{◌≡◌, ◌+◌, ◌<◌, ◌≤◌, length, IfOk, OnOk};
ghost use Rattle.network_closure.specs.Progress.{ProgressGoesOn, StaysAt, left_of_mark};
ghost use Rattle.network_closure.specs.Progress.{left_of_row, most_queued};

use crate::open_row::{OpenRow, points};
use crate::relaxable::Relaxable;
use net_model::PointId;
use std::alloc::{AllocError, Global};
use std::marker::Model;

/// How far the row of a point is: not begun, in progress, or made.
#[derive(Clone, Copy, PartialEq, Eq)]
enum Mark {
    New,
    Open,
    Done,
}

/// A table that is relaxed depth first: how far the row of each point is, and the rows in progress,
/// each of which needs the next. The row of a point is made after those of the points from which a
/// negative edge goes into it (Morris 2014). Contracts see it as the network of the table, what else
/// never changes of it, and how much is left to do. That few edges or none are unsaturated
/// afterwards no clause says.
#[derive(Drop)]
pub struct DepthFirst<T: Relaxable> {
    alloc: Global,
    table: T,
    marks: Vec<Mark>,
    stack: Vec<OpenRow>,
}

impl<T: Relaxable> Model for DepthFirst<T> {
    ghost use Rattle.std.specs.Prelude.{◌≡◌, length};
    ghost use Rattle.network_closure.specs.Progress.{Progress, depth_first_of};

    ghost Value = { Progress T.Place };

    ghost view = { λ depth_first. depth_first_of (T.progress depth_first.table)
        depth_first.marks.items depth_first.stack.items };

    ghost invariant = { λ depth_first. length depth_first.marks.items ≡ length
        (T.progress depth_first.table).net.points };
}

impl<T: Relaxable> DepthFirst<T> {
    /// A table no row of which is begun.
    pub fn of(alloc: Global, table: T) -> Result<DepthFirst<T>, AllocError>
        ensures { IfOk result (StaysAt (T.progress table)) }
    {
        let marks = vec![in alloc; Mark::New; points(&table) as usize]?;
        Ok(DepthFirst {
            alloc,
            table,
            marks,
            stack: Vec::new(alloc),
        })
    }

    /// The table as it is.
    pub fn into_table(self) -> T
        ensures { StaysAt self (T.progress result) }
    {
        self.table
    }

    /// Makes the row of each point, until it comes to a row in progress.
    pub fn make_all(&mut self) -> Result<(), AllocError>
        ensures { StaysAt self.old self.new }
    {
        for point in 0..points(&self.table) {
            let goes = self.make(PointId(point))?;
            if !goes {
                return Ok(());
            }
        }
        Ok(())
    }

    /// Makes the row of a point, if it is not begun, and first those that it needs. True unless it
    /// came to a row in progress.
    pub fn make(&mut self, root: PointId) -> Result<bool, AllocError>
        requires { root.0 < length self.old.net.points }
        ensures { StaysAt self.old self.new }
    {
        if self.meet(root) == Mark::New {
            self.begin(root)?;
        }
        while let Some(row) = self.stack.pop() {
            let goes = self.turn(row)?;
            if !goes {
                return Ok(false);
            }
        }
        Ok(true)
    }

    /// The mark of the row of a point, which is in progress from then on if it was not begun.
    fn meet(&mut self, point: PointId) -> Mark
        requires { point.0 < length self.old.net.points }
        ensures at { StaysAt self.old self.new }
        ensures left { self.new.left + left_of_mark result ≤ self.old.left }
    {
        let mark = self.marks[point.0 as usize];
        if mark == Mark::New {
            self.marks[point.0 as usize] = Mark::Open;
        }
        mark
    }

    /// Begins the row of a point.
    fn begin(&mut self, target: PointId) -> Result<(), AllocError>
        requires { target.0 < length self.old.net.points }
        ensures at { StaysAt self.old self.new }
        ensures left { self.new.left ≤ self.old.left + most_queued }
    {
        let row = OpenRow::of(self.alloc, &mut self.table, target)?;
        self.stack.push(row)?;
        Ok(())
    }

    /// Settles the next key of a row, or begins the row that it needs. True unless it came to a row
    /// in progress. Less is left than before the row was taken from the stack.
    fn turn(&mut self, mut row: OpenRow) -> Result<bool, AllocError>
        ensures at { StaysAt self.old self.new }
        ensures less { OnOk result (self.new.left < self.old.left + left_of_row row) }
    {
        match row.next(&mut self.table) {
            None => {
                self.finish(row.target);
                Ok(true)
            }
            Some(edge) => match self.meet(edge.from) {
                Mark::Open => Ok(false),
                Mark::New => {
                    row.enqueue(&edge)?;
                    self.stack.push(row)?;
                    self.begin(edge.from)?;
                    Ok(true)
                }
                Mark::Done => {
                    row.settle(&mut self.table, &edge)?;
                    self.stack.push(row)?;
                    Ok(true)
                }
            },
        }
    }

    /// The row of a point is made.
    fn finish(&mut self, target: PointId)
        ensures { ProgressGoesOn self.old self.new }
    {
        if let Some(mark) = self.marks.get_mut(target.0 as usize) {
            *mark = Mark::Done;
        }
    }
}
