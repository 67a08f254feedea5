//! The rows of a round by several workers: what each makes, and that others are made while one is
//! blocked.

ghost use Rattle.std.specs.Prelude.{◌≡◌, length, IfOk};
ghost use Rattle.closure_model.specs.ReferenceRow.{HasWeightsWithin};
ghost use Rattle.closure_model.specs.Tables.{IsFor};

use crate::gates::FirstRows;
use crate::networks::network;
use back_propagation::NewRow;
use example_plans::Meeting;
use labelled_graph::Table;
use net_model::{Network, PointId};
use parallel_rounds::{Gate, NoGate, round, work};
use std::alloc::Global;
use std::process::Abort;
use std::test::Fail;
use std::thread::Threads;
use work_board::Board;

/// The points A, C and D have the numbers 0, 1 and 2.
const PLAN: &str = "point A|point C|point D|bound b1 D C 1|bound b2 C D -1|link A 3 8 C";

/// The targets of the rows of its base table, and how many edges improve in each.
const ROWS: [(u32, usize); 3] = [(0, 4), (1, 0), (2, 2)];

/// A plan of 20 points.
const TWENTY: &str =
    "point a|point b|point c|point d|point e|point f|point g|point h|point i|point j|point k|point l|point m|point n|point o|point p|point q|point r|point s|point t|bound early b a -2|bound late a b 9";

/// Whether rows are those of the plan, in order.
fn are_rows(rows: &[NewRow]) -> bool {
    for (row, wanted) in rows.iter().zip(ROWS.as_slice()) {
        if !is_row(row, wanted) {
            return false;
        }
    }
    rows.len() == ROWS.len()
}

fn is_row(row: &NewRow, wanted: &(u32, usize)) -> bool {
    row.target.0 == wanted.0 && row.made.len() == wanted.1
}

/// The rows that one worker makes alone.
fn worked(alloc: Global, net: &Network, table: &Table) -> Result<Vec<NewRow>, Fail>
    requires fits { IsFor net.now table.now }
    requires within { HasWeightsWithin net.now table.now }
    requires three { length net.now.points ≡ 3 }
{
    let targets = [PointId(0), PointId(1), PointId(2)];
    let (board, mut seat) = Board::new(alloc, 3, 1)?;
    Ok(work(
        alloc,
        &board,
        &mut seat,
        targets.as_slice(),
        table,
        net,
        &NoGate,
    )?)
}

/// Blocks the row of one target until all three rows have begun.
#[derive(Drop)]
struct Holding {
    target: u32,
    meeting: Meeting,
}

impl Holding {
    fn of(target: u32) -> Holding {
        Holding {
            target,
            meeting: Meeting::of(3),
        }
    }

    /// Whether the row was released because all rows had begun, and as many have begun as there
    /// are.
    fn was_met(&self) -> bool {
        self.meeting.met() == Some(3)
    }
}

impl Gate for Holding {
    fn before(&self, target: u32) {
        self.meeting.arrive();
        if target == self.target {
            self.meeting.wait();
        }
    }
}

/// A round by two workers, of which one blocks the row of a target until the other rows have begun.
fn try_held<R: Threads + Sync + Abort>(
    rt: &R,
    alloc: Global,
    net: &Network,
    table: &Table,
    target: u32,
) -> Result<(), Fail>
    requires fits { IsFor net.now table.now }
    requires within { HasWeightsWithin net.now table.now }
{
    let gate = Holding::of(target);
    let rows = round(rt, alloc, table, net, 2, &gate)?;
    assert!(rt; are_rows(rows.as_slice()), "rows with {target} held");
    assert!(rt; gate.was_met(), "the row of {target} is held");
    Ok(())
}

/// A round of twenty rows by seven workers, each of which begins one before any continues.
fn try_seven<R: Threads + Sync + Abort>(
    rt: &R,
    alloc: Global,
    net: &Network,
    table: &Table,
) -> Result<(), Fail>
    requires fits { IsFor net.now table.now }
    requires within { HasWeightsWithin net.now table.now }
{
    let gate = FirstRows(Meeting::of(7));
    let rows = round(rt, alloc, table, net, 7, &gate)?;
    assert!(rt; rows.len() == 20 && gate.0.met() == Some(20));
    Ok(())
}

/// The base table of a network.
pub(crate) fn base(alloc: Global, net: &Network) -> Result<Table, Fail>
    ensures fits { IfOk result (λ table. IsFor net.now table) }
    ensures within { IfOk result (λ table. HasWeightsWithin net.now table) }
{
    net.sound();
    Ok(Table::of(alloc, net)?)
}

#[test]
fn one_worker_makes_all_rows(rt: HostRuntime) -> Result<(), Fail> {
    let net = network(rt.alloc(), PLAN)?;
    let is_wanted = works_alone(rt.alloc(), &net)?;
    assert!(rt; is_wanted);
    Ok(())
}

/// Whether one worker makes the rows of the plan.
fn works_alone(alloc: Global, net: &Network) -> Result<bool, Fail> {
    if net.points().len() != 3 {
        return Err("the network has other points".into());
    }
    let table = base(alloc, net)?;
    let rows = worked(alloc, net, &table)?;
    Ok(are_rows(rows.as_slice()))
}

#[test]
fn rows_begin_while_one_is_held(rt: HostRuntime) -> Result<(), Fail> {
    let net = network(rt.alloc(), PLAN)?;
    try_each_held(&rt, rt.alloc(), &net)
}

fn try_each_held<R: Threads + Sync + Abort>(
    rt: &R,
    alloc: Global,
    net: &Network,
) -> Result<(), Fail> {
    let table = base(alloc, net)?;
    for target in 0..3 {
        try_held(rt, alloc, net, &table, target)?;
    }
    Ok(())
}

#[test]
fn seven_workers_make_rows_at_once(rt: HostRuntime) -> Result<(), Fail> {
    let net = network(rt.alloc(), TWENTY)?;
    let table = base(rt.alloc(), &net)?;
    try_seven(&rt, rt.alloc(), &net, &table)
}
