//! An order that is kept while edges improve.

use crate::networks::network;
use labelled_graph::Table;
use loop_finder::{Found, KeptOrder, order};
use net_model::{Edge, LinkId, Network, PointId};
use std::alloc::Global;
use std::process::Abort;
use std::test::Fail;

/// The order of its points is C, A, B.
const TWO_BOUNDS: &str = "point A|point B|point C|bound b1 A C -1|bound b2 B A -1";

/// Edges that may improve, by their ends and weight, and whether they go along that order.
const IMPROVING: [(u32, u32, i64, bool); 6] = [
    (1, 2, -4, true),
    (0, 2, -4, true),
    (2, 0, -1, false),
    (0, 1, -1, false),
    (2, 1, 0, true),
    (1, 1, -1, false),
];

/// The order of the base table of a network, to be kept.
fn kept(alloc: Global, net: &Network) -> Result<KeptOrder, Fail> {
    let points = net.points().len() as u32;
    let table = Table::of(alloc, net)?;
    match order(alloc, &table, points)? {
        Found::Order(order) => Ok(KeptOrder::of(alloc, order, points)?),
        Found::Cycle(_) => Err("the table has a cycle".into()),
    }
}

fn try_edge<R: Abort>(rt: &R, kept: &KeptOrder, edge: Edge, along: bool) {
    assert!(rt; kept.goes_along(&edge) == along, "{edge:?}");
}

fn try_edges<R: Abort>(rt: &R, kept: &KeptOrder) {
    for (from, to, weight, along) in IMPROVING {
        let edge = Edge {
            from: PointId(from),
            to: PointId(to),
            label: None,
            weight,
        };
        let labelled = Edge {
            label: Some(LinkId(0)),
            ..edge
        };
        try_edge(rt, kept, edge, along);
        try_edge(rt, kept, labelled, true);
    }
}

#[test]
fn kept_orders(rt: HostRuntime) -> Result<(), Fail> {
    let net = network(rt.alloc(), TWO_BOUNDS)?;
    let kept = kept(rt.alloc(), &net)?;
    try_edges(&rt, &kept);
    Ok(())
}
