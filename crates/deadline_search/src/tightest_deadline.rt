//! The tightest deadline between two points of a network.

ghost use Rattle.std.specs.Prelude.{◌≤◌};
ghost use Rattle.net_model.specs.Network.{IsPoint};
ghost use Rattle.work_board.specs.Limits.{most_seats};
ghost use Rattle.deadline_search.specs.Answers.{Answers};

use crate::answer::{Deadline, DeadlineFault};
use crate::goal::Goal;
use crate::goal_names::free_name;
use crate::goal_search::Search;
use net_model::{MOST_BOUNDS, Network, PointId};
use parallel_rounds::{Gate, Workers};
use std::alloc::Global;
use std::thread::Threads;
use verdicts::{Verdict, decide};

/// The tightest deadline from one point of a network to another: the least number, from `LOWEST` to
/// `HIGHEST`, for which some strategy controls the network with the bound `to - from <= most`, in
/// whole moments, with the certificates of that; or that no strategy controls the network, that no
/// number will do, or that every one will. So many workers, 1 to 64, test the tables and make the
/// rows of a refutation. The gate is called with the number of `to` before the network with the
/// bound at a number is decided, and before each row of a refutation. `Full` comes exactly if the
/// network is controllable and has 20,000 bounds, and `OutOfMemory` only for want of memory. How
/// many numbers are tried, and how often the gate is called, no clause says.
pub fn tightest<R: Threads + Sync, G: Gate>(
    rt: &R,
    alloc: Global,
    net: Network,
    from: PointId,
    to: PointId,
    workers: u32,
    gate: &G,
) -> Result<Deadline, DeadlineFault>
    requires from_point { IsPoint net from }
    requires to_point { IsPoint net to }
    requires workers { (1 ≤ workers) × (workers ≤ most_seats) }
    ensures { Answers net from to result }
{
    let workers = Workers::of(rt, alloc, workers, gate);
    match decide(&workers, net)? {
        Verdict::Controllable {
            stated,
            shown,
            closed,
        } => {
            if stated.bounds().len() >= MOST_BOUNDS {
                return Err(DeadlineFault::Full);
            }
            let name = free_name(alloc, &stated)?;
            let search = Search {
                net: stated,
                goal: Goal { name, from, to },
            };
            Ok(search.answered(&workers, shown, closed)?)
        }
        Verdict::Refuted(refutation) => Ok(Deadline::NotControllable { refutation }),
    }
}
