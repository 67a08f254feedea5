//! The slow programs on small networks.

use crate::ending::Ending;
use crate::plans::{are_lines, are_nodes, are_numbers, are_points, network};
use crate::refutation::refute;
use crate::rounds::{base_nodes, round, rounds};
use closure_model::Node;
use net_model::{Network, PointId};
use std::alloc::Global;
use std::process::Abort;
use std::test::Fail;

/// The plan whose rounds are listed node by node.
const ONE_LINK: &str = "point A|point C|point D|bound b1 D C 1|bound b2 C D -1|link A 3 8 C";

/// The nodes of its bounds and its link.
const BASE: &str = "bound b1 D C 1|bound b2 C D -1|link C C A -8";

/// Its nodes after a round: four for the target A, two for D.
const AFTER_ONE: &str =
    "bound b1 D C 1|bound b2 C D -1|link C C A -8|up 1 3 D A C -7|drop 3 C A -3|drop 4 D A -3|low C 5 A A 0|no 1 2 D D 0|low C 2 A D 2";

/// Its nodes after two rounds.
const AFTER_TWO: &str =
    "bound b1 D C 1|bound b2 C D -1|link C C A -8|up 1 3 D A C -7|drop 3 C A -3|drop 4 D A -3|low C 5 A A 0|no 1 2 D D 0|low C 2 A D 2|up 9 4 A A C -5|drop 10 A A -3";

#[test]
fn rounds_node_by_node(rt: HostRuntime) -> Result<(), Fail> {
    let net = network(rt.alloc(), ONE_LINK)?;
    check_rounds(&rt, rt.alloc(), &net)
}

fn check_rounds(rt: &impl Abort, alloc: Global, net: &Network) -> Result<(), Fail> {
    let mut nodes = base_nodes(alloc, net)?;
    assert!(rt; are_nodes(net, nodes.as_slice(), BASE));
    check_round(rt, alloc, net, &mut nodes, AFTER_ONE)?;
    check_round(rt, alloc, net, &mut nodes, AFTER_TWO)
}

fn check_round(
    rt: &impl Abort,
    alloc: Global,
    net: &Network,
    nodes: &mut Vec<Node>,
    after: &str,
) -> Result<(), Fail> {
    let improved = round(alloc, net, nodes)?;
    assert!(rt; improved);
    assert!(rt; are_nodes(net, nodes.as_slice(), after), "{after}");
    Ok(())
}

/// How the rounds of a network end: with the order of its points, or with a cycle and the
/// refutation by it, whose lines are given by the numbers of their nodes, from 1.
enum ExpectedEnd {
    Order(&'static str),
    Cycle {
        points: &'static str,
        lines: &'static str,
        walk: &'static str,
    },
}

/// A network, all nodes of its rounds in order of making, how many rounds are made, and how they
/// end.
pub(crate) struct TestCase {
    pub(crate) parts: &'static str,
    nodes: &'static str,
    rounds: u64,
    end: ExpectedEnd,
}

pub(crate) const CASES: [TestCase; 7] = [
    TestCase {
        parts: ONE_LINK,
        nodes: AFTER_TWO,
        rounds: 2,
        end: ExpectedEnd::Cycle {
            points: "A",
            lines: "1 2 3 4 9 10 11",
            walk: "7",
        },
    },
    TestCase {
        parts: "point A|point B|link A 1 2 B|link B 1 2 A",
        nodes: "link B B A -2|link A A B -2|drop 1 B A -1|low B 3 A A 0|drop 2 A B -1|low A 5 B B 0",
        rounds: 1,
        end: ExpectedEnd::Cycle {
            points: "A B",
            lines: "1 2 3 5",
            walk: "4 3",
        },
    },
    TestCase {
        parts: "point A1|point C1|point A2|point C2|bound p A1 C2 2|bound q A2 C1 2|link A1 1 10 C1|link A2 1 10 C2",
        nodes: "bound p A1 C2 2|bound q A2 C1 2|link C1 C1 A1 -10|link C2 C2 A2 -10|up 2 3 A2 A1 C1 -8|drop 3 C1 A1 -1|drop 5 A2 A1 -1|low C1 6 A1 A1 0|up 1 4 A1 A2 C2 -8|drop 9 A1 A2 -1|drop 4 C2 A2 -1|low C2 11 A2 A2 0",
        rounds: 1,
        end: ExpectedEnd::Cycle {
            points: "A1 A2",
            lines: "1 2 3 4 5 7 9 10",
            walk: "8 6",
        },
    },
    TestCase {
        parts: "point X|point Y|point Z|bound a X Y 0|bound b Y X 0|bound g X Z -5|bound c Z X 3",
        nodes: "bound a X Y 0|bound b Y X 0|bound g X Z -5|bound c Z X 3|no 2 3 Y Z -5|no 4 3 Z Z -2",
        rounds: 1,
        end: ExpectedEnd::Cycle {
            points: "Z",
            lines: "3 4 6",
            walk: "3",
        },
    },
    TestCase {
        parts: "point A|point B|bound b1 A B 5|bound b2 B A -2",
        nodes: "bound b1 A B 5|bound b2 B A -2|no 1 2 A A 3",
        rounds: 2,
        end: ExpectedEnd::Order("A B"),
    },
    TestCase {
        parts: "point A|point C|point D|bound b1 D C 4|link A 3 8 C",
        nodes: "bound b1 D C 4|link C C A -8|up 1 2 D A C -4|drop 2 C A -3|drop 3 D A -3|low C 4 A A 0",
        rounds: 2,
        end: ExpectedEnd::Order("A C D"),
    },
    TestCase {
        parts: "point A1|point C1|point A2|point C2|bound b1 C1 C2 2|link A1 1 3 C1|link A2 2 6 C2",
        nodes: "bound b1 C1 C2 2|link C1 C1 A1 -3|link C2 C2 A2 -6|drop 2 C1 A1 -1|low C1 4 A1 A1 0|up 1 3 C1 A2 C2 -4|cross C1 6 A1 A2 C2 -3|drop 7 A1 A2 -2|drop 6 C1 A2 -2|drop 3 C2 A2 -2|low C2 10 A2 A2 0",
        rounds: 2,
        end: ExpectedEnd::Order("A2 A1 C1 C2"),
    },
];

#[test]
fn ends_of_rounds(rt: HostRuntime) -> Result<(), Fail> {
    for case in &CASES {
        let net = network(rt.alloc(), case.parts)?;
        check_case(&rt, rt.alloc(), &net, case)?;
    }
    Ok(())
}

fn check_case(rt: &impl Abort, alloc: Global, net: &Network, case: &TestCase) -> Result<(), Fail> {
    let mut nodes = base_nodes(alloc, net)?;
    let (count, end) = rounds(alloc, net, &mut nodes)?;
    assert_eq!(rt; count, case.rounds, "{}", case.parts);
    assert!(rt;
        are_nodes(net, nodes.as_slice(), case.nodes),
        "{}",
        case.parts
    );
    let is_end = is_end(alloc, net, nodes.as_slice(), &end, &case.end)?;
    assert!(rt; is_end, "{}", case.parts);
    Ok(())
}

fn is_end(
    alloc: Global,
    net: &Network,
    nodes: &[Node],
    end: &Ending,
    expected: &ExpectedEnd,
) -> Result<bool, Fail> {
    match end {
        Ending::Closed(order) => Ok(is_order(net, order.as_slice(), expected)),
        Ending::Looped(cycle) => is_cycle(alloc, net, nodes, cycle.as_slice(), expected),
    }
}

fn is_order(net: &Network, order: &[PointId], expected: &ExpectedEnd) -> bool {
    match expected {
        ExpectedEnd::Order(points) => are_points(net, order, points),
        ExpectedEnd::Cycle { .. } => false,
    }
}

/// Whether a cycle and the refutation by it are the expected ones.
fn is_cycle(
    alloc: Global,
    net: &Network,
    nodes: &[Node],
    cycle: &[PointId],
    expected: &ExpectedEnd,
) -> Result<bool, Fail> {
    let ExpectedEnd::Cycle {
        points,
        lines,
        walk,
    } = expected
    else {
        return Ok(false);
    };
    let made = refute(alloc, nodes, cycle)?;
    let lines = are_lines(made.lines.as_slice(), lines);
    let walk = are_numbers(made.walk.as_slice(), walk);
    Ok(are_points(net, cycle, points) && lines && walk)
}
