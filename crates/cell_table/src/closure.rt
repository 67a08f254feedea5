//! The closure of a network, by shared cells.

ghost use Rattle.std.specs.Prelude.{◌≡◌, ◌≤◌, nat_le, IfOk};
ghost use Rattle.network_closure.specs.Saturation.{ClosesTo};
ghost use Rattle.cell_table.specs.Limits.{key_count, most_keys, most_cell_seats};

use crate::cells::MOST_KEYS;
use crate::fault::CellFault;
use crate::gate::NoCellGate;
use crate::laws::law_settles_as_it_closes;
use crate::settlement::{Settled, settle};
use net_model::Network;
use network_closure::Closed;
use std::alloc::{AllocError, Global};
use std::thread::Threads;

/// Whether cells hold the keys of a network: there are at most 1,000,000, points times (points +
/// links).
pub fn fits(net: &Network) -> bool
    ensures { result ≡ nat_le (key_count net.now) most_keys }
{
    let points = net.points().len();
    (points + net.links().len()) * points <= MOST_KEYS
}

/// The closure of a network whose keys cells hold, with the order of its points, by shared cells
/// and so many workers, 1 to 64; or `None`, and then derivable edges have a cycle of negative
/// ordinary ones. That is what `close` of network_closure gives. `AllocError` comes only for want
/// of memory.
pub fn close_by_cells<R: Threads + Sync>(
    rt: &R,
    alloc: Global,
    net: &Network,
    workers: u32,
) -> Result<Option<Closed>, AllocError>
    requires workers { (1 ≤ workers) × (workers ≤ most_cell_seats) }
    requires few { key_count net.now ≤ most_keys }
    ensures { IfOk result (ClosesTo net.now) }
{
    law_settles_as_it_closes();
    match settle(rt, alloc, net, workers, &NoCellGate) {
        Ok(Settled::Closed(closed)) => Ok(Some(closed)),
        Ok(Settled::Looped(_)) => Ok(None),
        Err(CellFault::OutOfMemory) => Err(AllocError),
        Err(CellFault::TooMany(_)) => unreachable!(),
    }
}
