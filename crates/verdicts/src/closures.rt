//! The closure of a network without a delay, for those who prove the network controllable.

ghost use Rattle.std.specs.Prelude.{◌≡◌, ◌≤◌, IfOk};
ghost use Rattle.cell_table.specs.Limits.{key_count, most_keys};
ghost use Rattle.verdicts.specs.Decisions.{IsDecidedBy, IsOrderedClosure};

use cell_table::close_by_cells;
use closure_laws::laws::{law_cycles_of_tables_exclude, law_ordered_closures_are_controllable};
use longest_case::is_excluded_at_longest;
use net_model::Network;
use network_closure::{Closed, close};
use parallel_rounds::Workers;
use std::alloc::AllocError;
use std::thread::Threads;

/// The closure of a network without a delay, with the order of its placed points, exactly if the
/// network is controllable. One that is excluded already if every link takes its longest duration
/// is refused before a table is closed. The workers test the table. `AllocError` comes only if
/// memory is refused.
pub(crate) fn closure_if_controllable<R: Threads + Sync, G>(
    workers: &Workers<'_, R, G>,
    net: &Network,
) -> Result<Option<Closed>, AllocError>
    requires no_delay { net.now.delay ≡ 0 }
    ensures { IfOk result (IsDecidedBy IsOrderedClosure net.now) }
{
    let alloc = workers.alloc();
    if is_excluded_at_longest(alloc, net)? {
        return Ok(None);
    }
    law_ordered_closures_are_controllable();
    law_cycles_of_tables_exclude();
    net.sound();
    close(workers.rt(), alloc, net, workers.count())
}

/// The same of a network whose keys fit into shared cells, by these, which the workers relax.
pub(crate) fn closure_by_cells<R: Threads + Sync, G>(
    workers: &Workers<'_, R, G>,
    net: &Network,
) -> Result<Option<Closed>, AllocError>
    requires few { key_count net.now ≤ most_keys }
    requires no_delay { net.now.delay ≡ 0 }
    ensures { IfOk result (IsDecidedBy IsOrderedClosure net.now) }
{
    law_ordered_closures_are_controllable();
    law_cycles_of_tables_exclude();
    net.sound();
    close_by_cells(workers.rt(), workers.alloc(), net, workers.count())
}
