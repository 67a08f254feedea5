//! Rows, changes and copies of the base tables of small networks, and the orders and cycles of
//! their points.

ghost use Rattle.std.specs.Prelude.{◌≡◌, length};

use crate::networks::network;
use labelled_graph::Table;
use loop_finder::{Found, order};
use net_model::{Edge, LinkId, Network, PointId, Weight};
use std::alloc::Global;
use std::process::Abort;
use std::test::Fail;

const ONE_LINK: &str = "point A|point C|point D|bound b1 D C 1|bound b2 C D -1|link A 3 8 C";

/// The edge of each row of that network's base table.
const ROWS: [Edge; 3] = [
    Edge {
        from: PointId(1),
        to: PointId(0),
        label: Some(LinkId(0)),
        weight: -8,
    },
    Edge {
        from: PointId(2),
        to: PointId(1),
        label: None,
        weight: 1,
    },
    Edge {
        from: PointId(1),
        to: PointId(2),
        label: None,
        weight: -1,
    },
];

/// An edge that the base table does not have.
const NEW: Edge = Edge {
    from: PointId(2),
    to: PointId(0),
    label: None,
    weight: -7,
};

/// Networks, whether their base table has an order, and the points of the order or of the cycle.
const FOUND: [(&str, bool, &[u32]); 7] = [
    (
        "point A|point B|bound b1 A B 5|bound b2 B A -2",
        true,
        &[0, 1],
    ),
    ("point A|point B|bound b A B -2", true, &[1, 0]),
    (ONE_LINK, true, &[0, 2, 1]),
    ("point A|point B|bound a A B 0|bound b B A 0", true, &[0, 1]),
    (
        "point A|point B|point C|bound a B C -1|bound b C B -1",
        false,
        &[1, 2],
    ),
    ("point A|point B|bound a A B -1|bound b B B -1", false, &[1]),
    (
        "point A|point B|point C|bound a A C -1|bound b C B -1|bound c B C -1|bound d A B 1",
        false,
        &[2, 1],
    ),
];

/// How many points a network has.
fn count(net: &Network) -> u32
    ensures { result ≡ length net.now.points }
{
    net.points().len() as u32
}

fn row(alloc: Global, table: &Table, points: u32, target: PointId) -> Result<Vec<Edge>, Fail>
    requires { points ≡ table.now.shape.points }
{
    if target.0 >= points {
        return Err("no point has this number".into());
    }
    Ok(table.row_into(alloc, target)?)
}

fn try_rows<R: Abort>(rt: &R, alloc: Global, table: &Table, points: u32) -> Result<(), Fail>
    requires { points ≡ table.now.shape.points }
{
    for wanted in ROWS {
        let row = row(alloc, table, points, wanted.to)?;
        assert!(rt; row.as_slice() == [wanted].as_slice(), "{wanted:?}");
    }
    Ok(())
}

/// A copy is changed, and the table is as it was.
fn try_copy<R: Abort>(rt: &R, alloc: Global, table: &Table, points: u32) -> Result<(), Fail>
    requires { points ≡ table.now.shape.points }
{
    if points != 3 {
        return Err("the network has other points".into());
    }
    let mut copy = table.copy(alloc)?;
    let lowered = copy.lower_to(&NEW)?;
    assert!(rt; lowered);
    see_weight(rt, copy.weight(NEW.from, NEW.to), Some(-7));
    see_weight(rt, table.weight(NEW.from, NEW.to), None);
    Ok(())
}

fn see_weight<R: Abort>(rt: &R, weight: Option<Weight>, wanted: Option<Weight>) {
    assert_eq!(rt; weight, wanted);
}

#[test]
fn rows_and_copies(rt: HostRuntime) -> Result<(), Fail> {
    let net = network(rt.alloc(), ONE_LINK)?;
    try_table(&rt, rt.alloc(), &net)
}

fn try_table<R: Abort>(rt: &R, alloc: Global, net: &Network) -> Result<(), Fail> {
    let table = Table::of(alloc, net)?;
    try_rows(rt, alloc, &table, count(net))?;
    try_copy(rt, alloc, &table, count(net))
}

/// What is found in the base table of a network.
fn found(alloc: Global, net: &Network) -> Result<Found, Fail> {
    let table = Table::of(alloc, net)?;
    Ok(order(alloc, &table, count(net))?)
}

fn is_wanted(found: &Found, is_order: bool, wanted: &[u32]) -> bool {
    let (kind, points) = match found {
        Found::Order(points) => (true, points.as_slice()),
        Found::Cycle(points) => (false, points.as_slice()),
    };
    kind == is_order && are_numbers(points, wanted)
}

fn are_numbers(points: &[PointId], wanted: &[u32]) -> bool {
    for (point, number) in points.iter().zip(wanted) {
        if point.0 != *number {
            return false;
        }
    }
    points.len() == wanted.len()
}

fn try_found<R: Abort>(
    rt: &R,
    alloc: Global,
    lines: &str,
    is_order: bool,
    wanted: &[u32],
) -> Result<(), Fail> {
    let net = network(alloc, lines)?;
    let found = found(alloc, &net)?;
    assert!(rt; is_wanted(&found, is_order, wanted), "{lines}");
    Ok(())
}

#[test]
fn orders_and_cycles(rt: HostRuntime) -> Result<(), Fail> {
    for (lines, is_order, wanted) in FOUND {
        try_found(&rt, rt.alloc(), lines, is_order, wanted)?;
    }
    Ok(())
}
