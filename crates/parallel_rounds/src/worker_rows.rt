//! The rows that one worker makes in a round.

ghost use Rattle.std.specs.Prelude.{◌≡◌, ◌++◌, [], ◌∷◌, IfOk, MatchResult, OnOk};
ghost use Rattle.std.specs.List.{All};
ghost use Rattle.net_model.specs.Network.{IsPoint};
ghost use Rattle.closure_model.specs.ReferenceRow.{HasWeightsWithin};
ghost use Rattle.closure_model.specs.Tables.{IsFor};
ghost use Rattle.work_board.specs.Boards.{IsSeatOfBoard};
ghost use Rattle.parallel_rounds.specs.Rows.{new_row};
ghost use Rattle.parallel_rounds.specs.WorkerParts.{CanMakeRows};
ghost use Rattle.parallel_rounds.specs.LastRounds.{CanUseDelta};
ghost use Rattle.parallel_rounds.specs.WorkerRows.{IsWorked, LeftOff};

use crate::gate::{Gate, Passed};
use crate::parts::RoundTask;
use back_propagation::{NewRow, row, row_after};
use labelled_graph::Table;
use net_model::{Network, PointId};
use std::alloc::{AllocError, Global};
use work_board::{Board, Seat};

/// One worker's part of a round: while the board gives a number, the row of the target at that
/// number against a table of the network whose weights are from -M to M. The gate is called before
/// each row. The rows are those of the targets at just the numbers that the seat drew in this call,
/// in the order of drawing; which these are no clause says. The seat is one of the board, which has
/// as many targets as the list, and has not yet drawn when there was nothing left. `AllocError`
/// comes only for want of memory; the seat then keeps what it drew.
pub fn work<G: Gate>(
    alloc: Global,
    board: &Board,
    seat: &mut Seat,
    targets: &[PointId],
    table: &Table,
    net: &Network,
    gate: &G,
) -> Result<Vec<NewRow>, AllocError>
    requires can { CanMakeRows net.now table.now targets.now board.now }
    requires seat { IsSeatOfBoard board.now seat.old }
    requires untold { seat.old.view.nones ≡ 0 }
    ensures { MatchResult result (λ rows. IsWorked net.now table.now targets.now seat.old seat.new
        rows.items) (λ _. LeftOff seat.old seat.new) }
{
    let nothing = [];
    let task = RoundTask {
        targets,
        table,
        net,
        gate,
        informed: false,
        delta: nothing.as_slice(),
    };
    draw_rows(alloc, board, seat, &task)
}

/// One worker's part of a round, whose rows are made as a task says.
pub(crate) fn draw_rows<G: Gate>(
    alloc: Global,
    board: &Board,
    seat: &mut Seat,
    task: &RoundTask<G>,
) -> Result<Vec<NewRow>, AllocError>
    requires can { CanMakeRows task.now.net.now task.now.table.now task.now.targets.now board.now }
    requires informed { CanUseDelta task.now.net.now task.now.table.now task.now.informed
        task.now.delta.now }
    requires seat { IsSeatOfBoard board.now seat.old }
    requires untold { seat.old.view.nones ≡ 0 }
    ensures { MatchResult result (λ rows. IsWorked task.now.net.now task.now.table.now
        task.now.targets.now seat.old seat.new rows.items) (λ _. LeftOff seat.old seat.new) }
{
    let mut rows = Vec::new(alloc);
    while let Some(number) = board.draw(seat) {
        let target = task.targets[number as usize];
        let passed = Passed::through(task.gate, target);
        add_row(alloc, task, passed, &mut rows)?;
    }
    Ok(rows)
}

/// Makes the row of a target for which the gate was called, and puts it at the end of others.
fn add_row<G>(
    alloc: Global,
    task: &RoundTask<G>,
    passed: Passed,
    rows: &mut Vec<NewRow>,
) -> Result<(), AllocError>
    requires fits { IsFor task.now.net.now task.now.table.now }
    requires within { HasWeightsWithin task.now.net.now task.now.table.now }
    requires target { IsPoint task.now.net.now passed }
    requires informed { CanUseDelta task.now.net.now task.now.table.now task.now.informed
        task.now.delta.now }
    ensures { OnOk result (rows.new.items ≡ rows.old.items ++ new_row task.now.net.now
        task.now.table.now passed ∷ []) }
{
    rows.push(row_of(alloc, task, passed)?)?;
    Ok(())
}

/// The row of a target. If the task has the delta edges of the last round, it is made after these
/// alone.
fn row_of<G>(alloc: Global, task: &RoundTask<G>, passed: Passed) -> Result<NewRow, AllocError>
    requires fits { IsFor task.now.net.now task.now.table.now }
    requires within { HasWeightsWithin task.now.net.now task.now.table.now }
    requires target { IsPoint task.now.net.now passed }
    requires informed { CanUseDelta task.now.net.now task.now.table.now task.now.informed
        task.now.delta.now }
    ensures { IfOk result (λ row. row ≡ new_row task.now.net.now task.now.table.now passed) }
{
    let target = passed.target();
    if task.informed {
        row_after(alloc, task.table, task.net, target, task.delta)
    } else {
        row(alloc, task.table, task.net, target)
    }
}
