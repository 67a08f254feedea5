//! The rows of a round, made by several workers and put in the order of their targets.

ghost use Rattle.std.specs.Prelude.{◌≡◌, ◌≤◌, ◌<◌, map, IfOk};
ghost use Rattle.std.specs.List.{All};
ghost use Rattle.std.specs.List.Sorted.{IsPermutation, IsNonDecreasingBy};
ghost use Rattle.net_model.specs.Network.{IsPoint};
ghost use Rattle.closure_model.specs.Keys.{all_points, shape_of};
ghost use Rattle.closure_model.specs.ReferenceRow.{HasWeightsWithin};
ghost use Rattle.closure_model.specs.Tables.{IsFor};
ghost use Rattle.work_board.specs.Limits.{most_seats};
ghost use Rattle.parallel_rounds.specs.WorkerParts.{CanMakeRows, IsUnused, IsFirstSeat, IsPart};
ghost use Rattle.parallel_rounds.specs.WorkerParts.{HasRows};
ghost use Rattle.parallel_rounds.specs.Rows.{new_row};
ghost use Rattle.parallel_rounds.specs.Targets.{AreRisingPoints};
ghost use Rattle.parallel_rounds.specs.LastRounds.{CanUseDelta};

use crate::gate::Gate;
use crate::parts::{RoundTask, WorkerPart, all_seats, gather};
use crate::workers::Workers;
use back_propagation::NewRow;
use labelled_graph::Table;
use net_model::{Network, PointId};
use std::alloc::{AllocError, Global};
use std::thread::Threads;
use work_board::{Board, Seat};

/// The rows of all targets against a table of the network whose weights are from -M to M, in the
/// order of the targets. 1 to 64 workers make them at once; each takes the next target that none
/// has taken yet, until there is none left. The rows are the same for every number of workers. The
/// gate is called before each row. `AllocError` comes only for want of memory. That the workers are
/// at work at the same time is tested (`example_rounds/src/workers.rt`), not proved.
pub fn round<R: Threads + Sync, G: Gate>(
    rt: &R,
    alloc: Global,
    table: &Table,
    net: &Network,
    workers: u32,
    gate: &G,
) -> Result<Vec<NewRow>, AllocError>
    requires workers { (1 ≤ workers) × (workers ≤ most_seats) }
    requires fits { IsFor net.now table.now }
    requires within { HasWeightsWithin net.now table.now }
    ensures { IfOk result (λ rows. rows.items ≡ map (new_row net.now table.now)
        (all_points table.now.shape)) }
{
    let targets = all_targets(alloc, net)?;
    round_of(rt, alloc, table, net, targets.as_slice(), workers, gate)
}

/// The rows of some targets, in their order, as `round` makes those of all. Targets are points of
/// the network, and each has a lower number than those after it. The gate is called with the number
/// of the target. That is tested (`example_rounds/src/staleness.rt`), not proved. `AllocError`
/// comes only for want of memory.
pub fn round_of<R: Threads + Sync, G: Gate>(
    rt: &R,
    alloc: Global,
    table: &Table,
    net: &Network,
    targets: &[PointId],
    workers: u32,
    gate: &G,
) -> Result<Vec<NewRow>, AllocError>
    requires workers { (1 ≤ workers) × (workers ≤ most_seats) }
    requires fits { IsFor net.now table.now }
    requires within { HasWeightsWithin net.now table.now }
    requires points { All (IsPoint net.now) targets.now }
    requires rise { AreRisingPoints targets.now }
    ensures { IfOk result (λ rows. rows.items ≡ map (new_row net.now table.now) targets.now) }
{
    let nothing = [];
    let task = RoundTask {
        targets,
        table,
        net,
        gate,
        informed: false,
        delta: nothing.as_slice(),
    };
    Workers::of(rt, alloc, workers, gate).rows_of(&task)
}

/// All points of a network, in order.
fn all_targets(alloc: Global, net: &Network) -> Result<Vec<PointId>, AllocError>
    ensures { IfOk result (λ targets. targets.items ≡ all_points (shape_of net.now)) }
{
    (0..net.points().len() as u32)
        .map(|point| PointId(point))
        .collect(alloc)
}

impl<'a, R: Threads + Sync, G: Gate> Workers<'a, R, G> {
    /// The rows of the targets of a task, in their order.
    pub(crate) fn rows_of(&self, task: &RoundTask<G>) -> Result<Vec<NewRow>, AllocError>
        requires fits { IsFor task.now.net.now task.now.table.now }
        requires within { HasWeightsWithin task.now.net.now task.now.table.now }
        requires points { All (IsPoint task.now.net.now) task.now.targets.now }
        requires rise { AreRisingPoints task.now.targets.now }
        requires informed { CanUseDelta task.now.net.now task.now.table.now task.now.informed
            task.now.delta.now }
        ensures { IfOk result (λ rows. rows.items ≡ map
            (new_row task.now.net.now task.now.table.now) task.now.targets.now) }
    {
        task.net.sound();
        let (board, first) = Board::new(self.alloc(), task.targets.len() as u32, self.count())?;
        let WorkerPart { seat, mut rows } = self.make_rows(&board, first, task)?;
        board.close(seat);
        put_in_order(&mut rows);
        Ok(rows)
    }

    /// The rows of all targets in any order, with the first seat, into which all others are joined.
    fn make_rows(
        &self,
        board: &Board,
        first: Seat,
        task: &RoundTask<G>,
    ) -> Result<WorkerPart, AllocError>
        requires can { CanMakeRows task.now.net.now task.now.table.now task.now.targets.now
            board.now }
        requires unused { IsUnused board.now first }
        requires first { IsFirstSeat 0 first }
        requires informed { CanUseDelta task.now.net.now task.now.table.now task.now.informed
            task.now.delta.now }
        ensures seat { IfOk result (λ all. IsPart board.now all × IsFirstSeat 0 all.seat) }
        ensures rows { IfOk result (HasRows task.now.net.now task.now.table.now
            task.now.targets.now) }
    {
        let seats = all_seats(self.alloc(), board, first)?;
        let parts = self.all_parts(board, seats, task)?;
        gather(board, parts)
    }
}

/// Puts rows in the order of their targets.
fn put_in_order(rows: &mut Vec<NewRow>)
    ensures same { IsPermutation rows.old.items rows.new.items }
    ensures order { IsNonDecreasingBy (λ row. row.target.0) rows.new.items }
{
    rows.sort_unstable_by_key(|row| row.target.0);
}
