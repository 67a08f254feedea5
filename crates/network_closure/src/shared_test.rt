//! The test of a table, whose rows are shared among workers.

ghost use Rattle.std.specs.Prelude.{◌≡◌, ◌<◌, ◌≤◌, length, IfOk, MatchOption};
ghost use Rattle.network_closure.specs.RowTest.{IsFirstFound, IsSequence, SaturatesShare};
ghost use Rattle.network_closure.specs.Saturation.{IsPartialClosure, IsUnsaturated, TestsTo};

use crate::dense::DenseTable;
use crate::sequence::Sequence;
use crate::unsaturated_edges::{row_count, unsaturated_in_share};
use net_model::{Edge, Network};
use std::alloc::{AllocError, Global};
use std::thread::{Threads, map_indices};

/// How many rows a worker has at least: with fewer, starting a thread takes longer than testing
/// them.
const LEAST_ROWS: usize = 64;

/// An edge that follows from edges of a table and is unsaturated, if there is one: the table lacks
/// its key or has it at a greater weight. So many workers share the rows, or fewer if there are few
/// rows; they only read the table.
pub(crate) fn unsaturated<R: Threads + Sync>(
    rt: &R,
    alloc: Global,
    table: &DenseTable,
    net: &Network,
    sequence: Sequence,
    workers: u32,
) -> Result<Option<Edge>, AllocError>
    requires partial_closure { IsPartialClosure net.now table.now }
    requires sequence { IsSequence table.now sequence.points.now sequence.is_order }
    requires workers { 1 ≤ workers }
    ensures { IfOk result (TestsTo net.now table.now) }
{
    let most = row_count(net) as usize / LEAST_ROWS;
    let shares = most.min(workers as usize);
    if shares < 2 {
        return unsaturated_in_share(alloc, table, net, sequence, 0, 1);
    }
    unsaturated_in_shares(rt, alloc, table, net, sequence, shares)
}

/// The same by so many workers.
fn unsaturated_in_shares<R: Threads + Sync>(
    rt: &R,
    alloc: Global,
    table: &DenseTable,
    net: &Network,
    sequence: Sequence,
    shares: usize,
) -> Result<Option<Edge>, AllocError>
    requires partial_closure { IsPartialClosure net.now table.now }
    requires sequence { IsSequence table.now sequence.points.now sequence.is_order }
    requires shares { 0 < shares }
    ensures { IfOk result (TestsTo net.now table.now) }
{
    let found = map_indices(
        rt,
        alloc,
        shares,
        &|share| -> Result<Option<Edge>, AllocError>
            requires { IsPartialClosure net.now table.now
                × IsSequence table.now sequence.points.now sequence.is_order × (0 < shares) }
            ensures { IfOk result (λ found. MatchOption found (SaturatesShare net.entry.now
                sequence.entry.is_order table.entry.now share shares)
                (IsUnsaturated net.entry.now table.entry.now)) }
        { unsaturated_in_share(alloc, table, net, sequence, share, shares) },
    )?;
    first_found(found.as_slice())
}

/// The first edge of a list that has one. `AllocError` comes if a share had no memory.
fn first_found(found: &[Result<Option<Edge>, AllocError>]) -> Result<Option<Edge>, AllocError>
    ensures { IfOk result (IsFirstFound found.now) }
{
    for one in found {
        let edge = (*one)?;
        if edge.is_some() {
            return Ok(edge);
        }
    }
    Ok(None)
}
