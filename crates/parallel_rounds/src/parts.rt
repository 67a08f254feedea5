//! The parts of the workers of a round: seats are split, workers run, and their rows are joined.

ghost use Rattle.std.specs.Prelude.{◌≡◌, ◌<◌, ◌+◌, ◌++◌, vec_len, List, IfOk, OnOk};
ghost use Rattle.std.specs.List.{All};
ghost use Rattle.net_model.specs.Network.{Plan};
ghost use Rattle.net_model.specs.declared.ids.PointId.{PointId};
ghost use Rattle.closure_model.specs.Tables.{Graph};
ghost use Rattle.work_board.specs.Boards.{IsSeatOfBoard};
ghost use Rattle.parallel_rounds.specs.WorkerParts.{CanMakeRows, IsUnused, IsFirstSeat, AreSeats};
ghost use Rattle.parallel_rounds.specs.WorkerParts.{IsPart, IsPartOf, HasRows, AreParts};
ghost use Rattle.parallel_rounds.specs.WorkerParts.{AllHaveRows};
ghost use Rattle.parallel_rounds.specs.LastRounds.{CanUseDelta};
ghost use Rattle.work_board.specs.Views.{joined_with};

use crate::gate::Gate;
use crate::worker_rows::draw_rows;
use crate::workers::Workers;
use back_propagation::NewRow;
use labelled_graph::Table;
use net_model::{Edge, Items, Network, PointId};
use std::alloc::{AllocError, Global};
use std::thread::{Threads, map_vec};
use work_board::{Board, Seat};

/// What the workers of a round share: the targets whose rows they make, the table against which and
/// the network for which they make them, the gate before each row, and whether the delta edges are
/// known, and these by the points in which they end.
#[derive(Drop)]
pub(crate) struct RoundTask<'a, G> {
    pub(crate) targets: &'a [PointId],
    pub(crate) table: &'a Table,
    pub(crate) net: &'a Network,
    pub(crate) gate: &'a G,
    pub(crate) informed: bool,
    pub(crate) delta: &'a [Items<Edge>],
}

/// The rows that a worker made, with its seat.
#[derive(Drop)]
pub(crate) struct WorkerPart {
    pub(crate) seat: Seat,
    pub(crate) rows: Vec<NewRow>,
}

/// All seats of a board, split from the first one, which stands at the end.
pub(crate) fn all_seats(
    alloc: Global,
    board: &Board,
    mut first: Seat,
) -> Result<Vec<Seat>, AllocError>
    requires unused { IsUnused board.now first }
    requires first { IsFirstSeat 0 first }
    ensures seats { IfOk result (λ seats. AreSeats board.now seats.items) }
    ensures len { IfOk result (λ seats. vec_len seats ≡ first.view.to_split + 1) }
{
    let mut seats = Vec::new(alloc);
    while first.to_split() > 0 {
        seats.push(board.split(&mut first))?;
    }
    seats.push(first)?;
    Ok(seats)
}

/// Makes the part of the worker with a seat.
fn make_part<G: Gate>(
    alloc: Global,
    board: &Board,
    mut seat: Seat,
    task: &RoundTask<G>,
) -> Result<WorkerPart, AllocError>
    requires can { CanMakeRows task.now.net.now task.now.table.now task.now.targets.now board.now }
    requires unused { IsUnused board.now seat }
    requires informed { CanUseDelta task.now.net.now task.now.table.now task.now.informed
        task.now.delta.now }
    ensures { IfOk result (IsPartOf task.now.net.now task.now.table.now task.now.targets.now
        board.now seat) }
{
    let rows = draw_rows(alloc, board, &mut seat, task)?;
    Ok(WorkerPart { seat, rows })
}

impl<'a, R: Threads + Sync, G: Gate> Workers<'a, R, G> {
    /// The parts of all workers, one for each seat, which they make at once. That of the first seat
    /// stands at the end.
    pub(crate) fn all_parts(
        &self,
        board: &Board,
        seats: Vec<Seat>,
        task: &RoundTask<G>,
    ) -> Result<Vec<Result<WorkerPart, AllocError>>, AllocError>
        requires can { CanMakeRows task.now.net.now task.now.table.now task.now.targets.now
            board.now }
        requires seats { AreSeats board.now seats.items }
        requires informed { CanUseDelta task.now.net.now task.now.table.now task.now.informed
            task.now.delta.now }
        ensures parts { IfOk result (λ parts. AreParts board.now parts.items) }
        ensures rows { IfOk result (λ parts. AllHaveRows task.now.net.now task.now.table.now
            task.now.targets.now parts.items) }
    {
        let alloc = self.alloc();
        map_vec(
            self.rt(),
            seats,
            &|seat| -> Result<WorkerPart, AllocError>
                requires { CanMakeRows task.now.net.now task.now.table.now task.now.targets.now
                    board.now × IsUnused board.now seat
                    × CanUseDelta task.now.net.now task.now.table.now task.now.informed
                    task.now.delta.now }
                ensures { IfOk result (IsPartOf task.entry.now.net.now task.entry.now.table.now
                    task.entry.now.targets.now board.entry.now seat) }
            { make_part(alloc, board, seat, task) },
        )
    }
}

/// The first worker's part, with those of the others joined into it. `AllocError` comes if a worker
/// had no memory, or there is none for all rows.
pub(crate) fn gather(
    board: &Board,
    mut parts: Vec<Result<WorkerPart, AllocError>>,
) -> Result<WorkerPart, AllocError>
    requires { AreParts board.now parts.items }
    ensures seat { IfOk result (λ all. IsPart board.now all × IsFirstSeat 0 all.seat) }
    ensures rows { IfOk result (λ all. (net : Plan) (table : Graph) (targets : List PointId)
        → AllHaveRows net table targets parts.items → HasRows net table targets all) }
{
    let mut all = parts.pop().unwrap()?;
    while let Some(part) = parts.pop() {
        join_part(board, &mut all, part?)?;
    }
    Ok(all)
}

/// Joins another worker's part into that of the first.
fn join_part(board: &Board, all: &mut WorkerPart, part: WorkerPart) -> Result<(), AllocError>
    requires seats { IsSeatOfBoard board.now all.old.seat × IsSeatOfBoard board.now part.seat }
    requires out { 0 < all.old.seat.view.out }
    ensures seat { OnOk result (all.new.seat ≡ record {
      table = all.old.seat.table;
      view = joined_with all.old.seat.view part.seat.view;
    }) }
    ensures rows { OnOk result (all.new.rows.items ≡ all.old.rows.items ++ part.rows.items) }
{
    let WorkerPart { seat, mut rows } = part;
    board.join(&mut all.seat, seat);
    all.rows.append(&mut rows)
}
