//! One worker's part of a sweep.

ghost use Rattle.std.specs.Prelude.{◌<◌, IfOk};
ghost use Rattle.cell_table.specs.SweepSeats.{IsAt};

use crate::cells::Cells;
use crate::gate::CellGate;
use crate::seat::CellSeat;
use crate::seated_cells::SeatedCells;
use net_model::{Network, PointId};
use network_closure::DepthFirst;
use std::alloc::{AllocError, Global};

/// What the workers of a sweep share beside the cells: the network, how many workers there are, and
/// the gate before each target.
#[derive(Drop)]
pub(crate) struct SweepTask<'a, G> {
    pub(crate) net: &'a Network,
    pub(crate) workers: u32,
    pub(crate) gate: &'a G,
}

/// A worker of a sweep: its number, and its seat at the cells.
#[derive(Drop)]
pub(crate) struct Worker {
    pub(crate) number: u32,
    pub(crate) seat: CellSeat,
}

/// One worker's part of a sweep. Worker k of n goes over the targets k, k + n and so on, each depth
/// first: the row of a target is relaxed after those of the points from which a negative edge goes
/// into it (Morris 2014), whichever worker has these targets. It ends when it comes to a row in
/// progress. `AllocError` comes only for want of memory.
pub(crate) fn sweep<G: CellGate>(
    alloc: Global,
    cells: &Cells,
    worker: Worker,
    task: &SweepTask<G>,
) -> Result<CellSeat, AllocError>
    requires at { IsAt task.now.net.now cells.now worker.seat }
    requires workers { 0 < task.now.workers }
    ensures { IfOk result (IsAt task.now.net.now cells.now) }
{
    let Worker { number, seat } = worker;
    let mut depth_first = DepthFirst::of(alloc, SeatedCells::of(task.net, cells, seat))?;
    for target in 0..task.net.points().len() as u32 {
        if target % task.workers == number {
            task.gate.before(target);
            let goes = depth_first.make(PointId(target))?;
            if !goes {
                break;
            }
        }
    }
    Ok(depth_first.into_table().into_seat())
}
