//! The engine compared with the slow programs: the same nodes in the same order, as many rounds,
//! and the same end; and the closing without rounds compared with both.

ghost use Rattle.closure_model.specs.Tables.{IsFor};

use crate::closure_match::closes_as;
use crate::drawn_networks::{Draws, drawn};
use crate::ending::Ending;
use crate::plans::network;
use crate::rounds::{base_nodes, rounds};
use crate::small_cases::CASES;
use closure_model::Node;
use derivation_dag::{Dag, NodeId, Plain, Supports};
use labelled_graph::Table;
use net_model::Network;
use parallel_rounds::{NoGate, Outcome, propagate};
use std::alloc::Global;
use std::process::Abort;
use std::test::Fail;
use std::thread::Threads;

/// Drawn networks: how many, and how many points each has at most beside its first three.
const DRAWN: [(u32, u64); 3] = [(850, 6), (120, 12), (30, 27)];

#[test]
fn small_networks_as_slow(rt: HostRuntime) -> Result<(), Fail> {
    for case in &CASES {
        try_network(&rt, rt.alloc(), case.parts)?;
    }
    Ok(())
}

#[test]
fn drawn_networks_as_slow(rt: HostRuntime) -> Result<(), Fail> {
    let mut draws = Draws { state: 5 };
    let mut looped = 0u32;
    for (count, spare) in DRAWN {
        looped = looped.saturating_add(try_drawn(&rt, rt.alloc(), count, spare, &mut draws)?);
    }
    assert!(rt; looped >= 334, "{looped}");
    Ok(())
}

/// A plan that has rows for three workers: each point comes after the first one, the later the
/// greater its number; the first point activates a link.
#[test]
fn larger_network_closes_as_rounds(rt: HostRuntime) -> Result<(), Fail> {
    let parts = star(rt.alloc(), 200)?;
    try_closing_of(&rt, rt.alloc(), parts.as_str())
}

/// The lines of that plan, with so many points, fewer than 300, beside the first one and the end of
/// the link.
fn star(alloc: Global, points: u32) -> Result<String, Fail> {
    let mut lines = String::new(alloc);
    lines.push_str("point first|point last|link first 2 5 last")?;
    for number in 0..points {
        let least = number.saturating_add(1);
        lines.push_str(format!(in alloc;
            "|point p{number}|bound a{number} first p{number} 300|bound b{number} p{number} first -{least}"
        )?.as_str())?;
    }
    Ok(lines)
}

/// Makes the rounds of the network of these parts, closes it, and compares both.
fn try_closing_of(
    rt: &(impl Abort + Threads + Sync),
    alloc: Global,
    parts: &str,
) -> Result<(), Fail> {
    let net = network(alloc, parts)?;
    net.sound();
    let mut store = Plain::of(alloc, &net)?;
    let outcome = propagate(rt, alloc, &net, &mut store, 2, &NoGate)?;
    try_closing(rt, alloc, &net, &outcome, store.table(), parts)
}

/// Tries as many drawn networks, and says how many end in a cycle.
fn try_drawn(
    rt: &(impl Abort + Threads + Sync),
    alloc: Global,
    count: u32,
    spare: u64,
    draws: &mut Draws,
) -> Result<u32, Fail> {
    let mut looped = 0u32;
    for _ in 0..count {
        let parts = drawn(alloc, draws, spare)?;
        if try_network(rt, alloc, parts.as_str())? {
            looped = looped.saturating_add(1);
        }
    }
    Ok(looped)
}

/// Tries the network of these parts, and says whether its rounds end in a cycle.
fn try_network(
    rt: &(impl Abort + Threads + Sync),
    alloc: Global,
    parts: &str,
) -> Result<bool, Fail> {
    let net = network(alloc, parts)?;
    let mut nodes = base_nodes(alloc, &net)?;
    let end = rounds(alloc, &net, &mut nodes)?;
    try_engine(rt, alloc, &net, nodes.as_slice(), &end, parts)?;
    Ok(matches!(end.1, Ending::Looped(_)))
}

/// Makes the rounds of a network by the engine and closes it without rounds, and compares them.
fn try_engine(
    rt: &(impl Abort + Threads + Sync),
    alloc: Global,
    net: &Network,
    nodes: &[Node],
    end: &(u64, Ending),
    parts: &str,
) -> Result<(), Fail> {
    net.sound();
    let mut store = Plain::of(alloc, net)?;
    let outcome = propagate(rt, alloc, net, &mut store, 2, &NoGate)?;
    assert!(rt; has_nodes(store.dag(), nodes), "{parts}");
    assert!(rt; is_end(&outcome, end), "{parts}");
    try_closing(rt, alloc, net, &outcome, store.table(), parts)
}

/// Closes a network without rounds, by one worker and by seven, and compares what it closes to with
/// what its rounds ended in.
fn try_closing(
    rt: &(impl Abort + Threads + Sync),
    alloc: Global,
    net: &Network,
    outcome: &Outcome,
    table: &Table,
    parts: &str,
) -> Result<(), Fail>
    requires { IsFor net.now table.now }
{
    for workers in [1, 7] {
        let same = closes_as(rt, alloc, net, workers, outcome, table)?;
        assert!(rt; same, "{workers} {parts}");
    }
    Ok(())
}

/// Whether a list has these nodes, and no others.
pub(crate) fn has_nodes(dag: &Dag, nodes: &[Node]) -> bool {
    for (place, node) in nodes.iter().enumerate() {
        let id = NodeId(place as u64);
        if id.0 >= dag.len() || dag.node(id) != node {
            return false;
        }
    }
    dag.len() == nodes.len() as u64
}

pub(crate) fn is_end(outcome: &Outcome, end: &(u64, Ending)) -> bool {
    match (outcome, &end.1) {
        (Outcome::Closed { rounds, order }, Ending::Closed(wanted)) => {
            *rounds == end.0 && order.as_slice() == wanted.as_slice()
        }
        (Outcome::Looped { rounds, cycle }, Ending::Looped(wanted)) => {
            *rounds == end.0 && cycle.as_slice() == wanted.as_slice()
        }
        _ => false,
    }
}
