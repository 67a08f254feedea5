//! The rounds, one after another, until the table of a store is closed or has a negative cycle.

ghost use Rattle.std.specs.Prelude.{◌≡◌, ◌≢◌, ◌≤◌, true, [], IfOk, IfSome, MatchOption};
ghost use Rattle.closure_model.specs.Orders.{IsOrder};
ghost use Rattle.closure_model.specs.Derivations.{StandsOn};
ghost use Rattle.closure_model.specs.ReferenceRound.{round_made, after_round};
ghost use Rattle.closure_model.specs.ReferenceRow.{HasWeightsWithin};
ghost use Rattle.closure_model.specs.Tables.{IsFor, IsGraph};
ghost use Rattle.work_board.specs.Limits.{most_seats};
ghost use Rattle.parallel_rounds.specs.Propagated.{IsPropagated};
ghost use Rattle.parallel_rounds.specs.Targets.{AreRowsOfRound};
ghost use Rattle.parallel_rounds.specs.LastRounds.{IsLastRound};

use crate::gate::Gate;
use crate::last_round::LastRound;
use crate::outcome::Outcome;
use crate::parts::RoundTask;
use crate::placement::{Placed, closed, order_if, place};
use crate::rows::round;
use crate::staleness::stale;
use crate::store_update::{firsts_in, take_all};
use crate::workers::Workers;
use back_propagation::NewRow;
use derivation_dag::Supports;
use labelled_graph::Table;
use loop_finder::KeptOrder;
use net_model::Network;
use std::alloc::{AllocError, Global};
use std::thread::Threads;

/// One worker makes a round that is so small that starting threads would take longer than its rows:
/// the number of rows times that of points, plus that of the edges that improved in the last round,
/// is below this.
const LITTLE: usize = 20_000;

/// Makes rounds until the table of a store is closed, or until it has a cycle of negative ordinary
/// edges. The store stands on the network; there are 1 to 64 workers. The list of the store gains
/// exactly the nodes of the reference rounds, in their order. `Closed` says that the table is the
/// closure of the network, with its order; `Looped` has the cycle that is the one of the
/// definition. The rounds, of which there is at most one more than points, are a history of the
/// table, and a settled one if they close it (`law_rounds_that_close_settle` of shared_table_laws).
/// The store stands on the network as before; no weight rose, and all are from -M to M.
/// `AllocError` comes only for want of memory; then the store is lost, and the caller drops it.
///
/// In the first round all rows are made, in each later one those that are stale after the points in
/// whose rows an edge improved, by one worker if few rows and few improvements make a round small.
/// Which rows are made, and by how many workers, no clause says.
pub fn propagate<R: Threads + Sync, S: Supports, G: Gate>(
    rt: &R,
    alloc: Global,
    net: &Network,
    store: &mut S,
    workers: u32,
    gate: &G,
) -> Result<Outcome, AllocError>
    requires workers { (1 ≤ workers) × (workers ≤ most_seats) }
    requires stands { StandsOn net.now (S.support store.old) }
    ensures { IfOk result (IsPropagated net.now (S.support store.old) (S.support store.new)) }
{
    Workers::of(rt, alloc, workers, gate).propagate(net, store)
}

impl<'a, R: Threads + Sync, G: Gate> Workers<'a, R, G> {
    /// Makes rounds until the table of a store is closed, or has a cycle, as the function
    /// `propagate`.
    pub fn propagate<S: Supports>(
        &self,
        net: &Network,
        store: &mut S,
    ) -> Result<Outcome, AllocError>
        requires { StandsOn net.now (S.support store.old) }
        ensures { IfOk result (IsPropagated net.now (S.support store.old) (S.support store.new)) }
    {
        let alloc = self.alloc();
        let points = net.points().len() as u32;
        let by = Rounds { workers: self, net };
        let mut rounds = 0;
        let mut kept = None;
        let mut last = None;
        loop {
            let order = match place(alloc, store.table(), points, kept)? {
                Placed::InOrder(order) => order,
                Placed::Cyclic(cycle) => return Ok(Outcome::Looped { rounds, cycle }),
            };
            rounds += 1;
            match by.make_round(store, &order, &last)? {
                None => return closed(alloc, store.table(), points, rounds),
                Some(next) => {
                    kept = order_if(next.stays, order);
                    last = Some(next);
                }
            }
        }
    }
}

/// What rounds are made with: the workers, and the network for which they make rows.
#[derive(Drop)]
pub(crate) struct Rounds<'a, R, G> {
    workers: &'a Workers<'a, R, G>,
    net: &'a Network,
}

impl<'a, R: Threads + Sync, G: Gate> Rounds<'a, R, G> {
    /// Makes one round, and returns what improved in it, if anything did.
    fn make_round<S: Supports>(
        &self,
        store: &mut S,
        order: &KeptOrder,
        last: &Option<LastRound>,
    ) -> Result<Option<LastRound>, AllocError>
        requires stands { StandsOn self.now.net.now (S.support store.old) }
        requires last { IfSome last.now (IsLastRound self.now.net.now (S.support store.old).table) }
        ensures after { IfOk result (λ _. S.support store.new ≡ after_round self.now.net.now
            (S.support store.old)) }
        ensures improved { IfOk result
            (λ last. MatchOption last (round_made self.now.net.now (S.support store.old).table ≡
            []) (λ last. (round_made self.now.net.now (S.support store.old).table ≢ [])
            × IsLastRound self.now.net.now (S.support store.new).table last)) }
        ensures stays { IfOk result (λ last. IfSome last (λ last. last.stays ≡ true
            → IsOrder (S.support store.old).table order.now
            → IsOrder (S.support store.new).table order.now)) }
    {
        let alloc = self.workers.alloc();
        let points = self.net.points().len() as u32;
        let rows = self.rows_of_round(store.table(), last)?;
        let firsts = firsts_in(alloc, store, rows.as_slice())?;
        let last = LastRound::of(
            alloc,
            points,
            store.table(),
            rows.as_slice(),
            firsts.len(),
            order,
        )?;
        take_all(alloc, self.net, store, rows.as_slice(), firsts.as_slice())?;
        if firsts.is_empty() {
            return Ok(None);
        }
        Ok(Some(last))
    }

    /// The rows of a round: all of them if it is the first one, else those in which something can
    /// improve.
    fn rows_of_round(
        &self,
        table: &Table,
        last: &Option<LastRound>,
    ) -> Result<Vec<NewRow>, AllocError>
        requires fits { IsFor self.now.net.now table.now }
        requires within { HasWeightsWithin self.now.net.now table.now }
        requires sound { IsGraph table.now }
        requires last { IfSome last.now (IsLastRound self.now.net.now table.now) }
        ensures { IfOk result (λ rows. AreRowsOfRound self.now.net.now table.now rows.items) }
    {
        match last {
            None => self.all_rows(table),
            Some(last) => self.stale_rows(table, last),
        }
    }

    /// The rows of all points.
    fn all_rows(&self, table: &Table) -> Result<Vec<NewRow>, AllocError>
        requires fits { IsFor self.now.net.now table.now }
        requires within { HasWeightsWithin self.now.net.now table.now }
        ensures { IfOk result (λ rows. AreRowsOfRound self.now.net.now table.now rows.items) }
    {
        let workers = self.workers;
        round(
            workers.rt(),
            workers.alloc(),
            table,
            self.net,
            workers.count(),
            workers.gate(),
        )
    }

    /// The rows that are stale after the last round, made after its delta edges.
    fn stale_rows(&self, table: &Table, last: &LastRound) -> Result<Vec<NewRow>, AllocError>
        requires fits { IsFor self.now.net.now table.now }
        requires within { HasWeightsWithin self.now.net.now table.now }
        requires sound { IsGraph table.now }
        requires last { IsLastRound self.now.net.now table.now last.now }
        ensures { IfOk result (λ rows. AreRowsOfRound self.now.net.now table.now rows.items) }
    {
        let names = self.net.points();
        let targets = stale(
            self.workers.alloc(),
            table,
            self.net,
            last.changed.as_slice(),
        )?;
        let task = RoundTask {
            targets: targets.as_slice(),
            table,
            net: self.net,
            gate: self.workers.gate(),
            informed: true,
            delta: last.delta.as_slice(),
        };
        let is_little = is_little(targets.len(), names.len(), last.improvements);
        self.workers.worth(is_little).rows_of(&task)
    }
}

/// Whether the rows of so many targets, after so many edges improved, are made sooner by one worker
/// than threads are started.
fn is_little(targets: usize, points: usize, improvements: usize) -> bool {
    targets.saturating_mul(points).saturating_add(improvements) < LITTLE
}
