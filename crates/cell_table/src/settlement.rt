//! The closed table of a network, by sweeps of several workers over shared cells.

ghost use Rattle.std.specs.Prelude.{◌≡◌, ◌≤◌, ◌<◌, ◌+◌, length, vec_len, IfOk, IfErr};
ghost use Rattle.std.specs.List.{All};
ghost use Rattle.network_closure.specs.Saturation.{IsPartialClosure};
ghost use Rattle.cell_table.specs.Faults.{IsCellFault};
ghost use Rattle.cell_table.specs.Limits.{key_count, most_keys, most_cell_seats};
ghost use Rattle.cell_table.specs.Settlement.{IsSettledOutcome, IsSweptFrom, TestedAs};
ghost use Rattle.cell_table.specs.SweepSeats.{IsAt, IsWorkerAt};

use crate::cells::Cells;
use crate::depth_first_sweep::{SweepTask, Worker, sweep};
use crate::fault::CellFault;
use crate::gate::CellGate;
use crate::seat::CellSeat;
use labelled_graph::Table;
use loop_finder::{Found, order};
use net_model::{Edge, Items, Network, PointId};
use network_closure::{Closed, unsaturated_edge};
use std::alloc::{AllocError, Global};
use std::thread::{Threads, map_vec};

/// What the cells of a network settle to.
#[derive(Debug, Drop)]
pub enum Settled {
    /// The closure, and the order of its points.
    Closed(Closed),
    /// A negative ordinary edge that is derivable goes from each point to the next, and from the
    /// last to the first.
    Looped(Items<PointId>),
}

/// What a swept table comes to.
#[derive(Drop)]
enum SweptOutcome {
    /// It has a cycle of negative ordinary edges.
    Looped(Items<PointId>),
    /// An edge that follows from it is unsaturated.
    Unsaturated(Edge),
    /// It is the closure, and its points have an order.
    Ordered(Items<PointId>),
}

/// The closure of a network (Morris and Muscettola 2005, in this project's form) and the order of
/// its points, that of the reference rounds, exactly if the closure has no cycle of negative
/// ordinary edges, else a cycle of derivable ones. So many workers, 1 to 64, sweep over shared
/// cells. After each sweep the table is tested; if an edge that follows is unsaturated, it is
/// relaxed and the table is swept again. The gate is called before each target of a worker.
/// `TooMany` comes exactly if there are more than 1,000,000 keys, points times (points + links),
/// `OutOfMemory` only for want of memory.
///
/// Which worker lowers what, in which order, and that a sweep leaves few edges unsaturated, no
/// clause says. That it ends is proved: the table that is tested after a sweep is at most the one
/// before, and if an edge is unsaturated the next sweep begins from a lower one. That several
/// workers go over targets at the same time is tested (`example_cells/src/settlements.rt`), not
/// proved.
pub fn settle<R: Threads + Sync, G: CellGate>(
    rt: &R,
    alloc: Global,
    net: &Network,
    workers: u32,
    gate: &G,
) -> Result<Settled, CellFault>
    requires workers { (1 ≤ workers) × (workers ≤ most_cell_seats) }
    ensures settled { IfOk result (IsSettledOutcome net.now) }
    ensures few { IfOk result (λ _. key_count net.now ≤ most_keys) }
    ensures fault { IfErr result (IsCellFault net.now) }
{
    net.sound();
    let Ok(mut table) = Table::of(alloc, net) else {
        return Err(CellFault::OutOfMemory);
    };
    let task = SweepTask { net, workers, gate };
    loop {
        table = swept(rt, alloc, &table, &task)?;
        match test_of(rt, alloc, net, &table, workers) {
            Err(_) => return Err(CellFault::OutOfMemory),
            Ok(SweptOutcome::Looped(cycle)) => return Ok(Settled::Looped(cycle)),
            Ok(SweptOutcome::Ordered(order)) => return Ok(Settled::Closed(Closed { table, order })),
            Ok(SweptOutcome::Unsaturated(edge)) => {
                let Ok(_improved) = table.lower_to(&edge) else {
                    return Err(CellFault::OutOfMemory);
                };
            }
        }
    }
}

/// A table after one sweep of the workers of a task.
fn swept<R: Threads + Sync, G: CellGate>(
    rt: &R,
    alloc: Global,
    table: &Table,
    task: &SweepTask<G>,
) -> Result<Table, CellFault>
    requires workers { (1 ≤ task.now.workers) × (task.now.workers ≤ most_cell_seats) }
    requires partial_closure { IsPartialClosure task.now.net.now table.now }
    ensures swept { IfOk result (IsSweptFrom task.now.net.now table.now) }
    ensures few { IfOk result (λ _. key_count task.now.net.now ≤ most_keys) }
    ensures fault { IfErr result (IsCellFault task.now.net.now) }
{
    let (cells, first) = Cells::of_table(alloc, task.net, table, task.workers)?;
    match sweep_all(rt, alloc, &cells, first, task) {
        Err(_) => Err(CellFault::OutOfMemory),
        Ok(seat) => match cells.close(seat) {
            Err(_) => Err(CellFault::OutOfMemory),
            Ok(table) => Ok(table),
        },
    }
}

/// One sweep of the workers of a task. The seat that is left is the first, into which all others
/// are joined.
fn sweep_all<R: Threads + Sync, G: CellGate>(
    rt: &R,
    alloc: Global,
    cells: &Cells,
    first: CellSeat,
    task: &SweepTask<G>,
) -> Result<CellSeat, AllocError>
    requires at { IsAt task.now.net.now cells.now first }
    requires to_split { first.view.to_split + 1 ≡ task.now.workers }
    ensures { IfOk result (IsAt task.now.net.now cells.now) }
{
    let all = all_workers(alloc, cells, task.net, first)?;
    let seats = all_seats(rt, alloc, cells, all, task)?;
    gather(cells, task.net, seats)
}

/// The workers of a sweep, one for each seat; that with the first seat stands at the end.
/// `AllocError` comes only for want of memory.
fn all_workers(
    alloc: Global,
    cells: &Cells,
    net: &Network,
    mut first: CellSeat,
) -> Result<Vec<Worker>, AllocError>
    requires at { IsAt net.now cells.now first }
    ensures { IfOk result (λ all. All (IsWorkerAt net.now cells.now) all.items
        × (0 < length all.items)) }
{
    let mut all = Vec::new(alloc);
    while first.to_split() > 0 {
        let number = first.to_split();
        let seat = cells.split(&mut first);
        all.push(Worker { number, seat })?;
    }
    all.push(Worker {
        number: 0,
        seat: first,
    })?;
    Ok(all)
}

/// The seats of workers that did their parts of a sweep at once.
fn all_seats<R: Threads + Sync, G: CellGate>(
    rt: &R,
    alloc: Global,
    cells: &Cells,
    all: Vec<Worker>,
    task: &SweepTask<G>,
) -> Result<Vec<Result<CellSeat, AllocError>>, AllocError>
    requires at { All (IsWorkerAt task.now.net.now cells.now) all.items }
    requires some { 0 < length all.items }
    requires workers { 0 < task.now.workers }
    ensures { IfOk result (λ seats. All (λ seat. IfOk seat (IsAt task.now.net.now cells.now))
        seats.items × (0 < length seats.items)) }
{
    map_vec(
        rt,
        all,
        &|worker| -> Result<CellSeat, AllocError>
            requires { IsWorkerAt task.now.net.now cells.now worker × (0 < task.now.workers) }
            ensures { IfOk result (IsAt task.entry.now.net.now cells.entry.now) }
        { sweep(alloc, cells, worker, task) },
    )
}

/// The first seat, with the others joined into it. `AllocError` comes if a worker had no memory.
fn gather(
    cells: &Cells,
    net: &Network,
    mut seats: Vec<Result<CellSeat, AllocError>>,
) -> Result<CellSeat, AllocError>
    requires at { All (λ seat. IfOk seat (IsAt net.now cells.now)) seats.items }
    requires some { 0 < length seats.items }
    ensures { IfOk result (IsAt net.now cells.now) }
{
    let mut first = seats.pop().unwrap()?;
    while let Some(seat) = seats.pop() {
        cells.join(&mut first, seat?);
    }
    Ok(first)
}

/// What a table comes to: a cycle, an unsaturated edge, or, if it is the closure, the order of its
/// points.
fn test_of<R: Threads + Sync>(
    rt: &R,
    alloc: Global,
    net: &Network,
    table: &Table,
    workers: u32,
) -> Result<SweptOutcome, AllocError>
    requires partial_closure { IsPartialClosure net.now table.now }
    requires workers { 1 ≤ workers }
    ensures { IfOk result (TestedAs net.now table.now) }
{
    let points = net.points().len() as u32;
    match order(alloc, table, points)? {
        Found::Cycle(cycle) => Ok(SweptOutcome::Looped(cycle)),
        Found::Order(order) => match unsaturated_edge(rt, alloc, table, net, workers)? {
            None => Ok(SweptOutcome::Ordered(order)),
            Some(edge) => Ok(SweptOutcome::Unsaturated(edge)),
        },
    }
}
