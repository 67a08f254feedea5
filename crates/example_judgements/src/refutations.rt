//! Refutations of four networks, and what is refused of them.

use crate::rows::{Original, try_over};
use std::test::Fail;

/// Rows: the number of a line of a refutation and what stands in its place, or 0 and other lines in
/// place of all, and the judgement; `|` stands for a line end.
const OVER_TWO_BOUNDS: &str =
    "0 bound b1 A B 3|bound b2 B A -5|no 1 2 A A -2|walk 3 => accepted not controllable";

const OVER_RING: &str =
    "0 link B B A -2|link A A B -2|drop 1 B A -1|drop 2 A B -1|walk 4|walk 3 => accepted not controllable";

/// A refutation over one link.
const ONE_LINK: &str =
    "bound b1 D C 1|bound b2 C D -1|link C C A -8|low C 2 A D 2|up 1 3 D A C -7|drop 5 D A -3|no 4 6 A A -1|walk 7";

const OVER_ONE_LINK: &str = "8 walk 7 => accepted not controllable
0 bound b1 D C 1|bound b2 C D -1|link C C A -8|up 1 3 D A C -7|low C 2 A D 2|up 5 4 A A C -5|drop 6 A A -3|walk 7 => accepted not controllable
1 bound b9 D C 1 => refused 1 unknown-item
1 bound b1 X C 1 => refused 1 unknown-item
1 bound b1 D X 1 => refused 1 unknown-item
3 link D D A -8 => refused 3 unknown-item
5 up 1 3 D A D -7 => refused 5 unknown-item
1 bound b1 D C 1000000000001 => refused 1 weight-range
1 bound b1 D C -1000000000001 => refused 1 weight-range
1 bound b1 D C 1000000000000 => refused 5 too-low -7 999999999992
1 bound b1 D C -1000000000000 => refused 1 too-low -1000000000000 1
7 no 4 7 A A -1 => refused 7 premise
7 no 0 6 A A -1 => refused 7 premise
6 drop 18446744073709551615 D A -3 => refused 6 premise
7 no 4 5 A A -1 => refused 7 label
5 up 3 3 D A C -7 => refused 5 label
5 up 1 2 D A C -7 => refused 5 label
4 low C 3 A D 2 => refused 4 label
6 drop 4 D A -3 => refused 6 label
4 low C 1 A D 2 => refused 4 rule-condition
2 bound b2 C D 0 => refused 4 rule-condition
1 bound b1 C D 1 => refused 1 ends
3 link C A C -8 => refused 3 ends
4 low C 2 D D 2 => refused 4 ends
5 up 2 3 C A C -9 => refused 5 ends
6 drop 5 A A -3 => refused 6 ends
7 no 4 6 A D -1 => refused 7 ends
3 link C C A -9 => refused 3 too-low -9 -8
5 up 1 3 D A C -8 => refused 5 too-low -8 -7
6 drop 5 D A -4 => refused 6 too-low -4 -3
4 low C 2 A D 1 => refused 4 too-low 1 2
4 low C 2 A D 3 => refused 7 too-low -1 0
8 # => refused 8 walk-broken
8 walk 6 => refused 8 walk-broken
8 walk 4|walk 4|walk 6 => refused 9 walk-broken
8 walk 7|walk 4 => refused 9 walk-broken
8 walk 0 => refused 8 premise
8 walk 4|walk 4|walk 8 => refused 10 premise
8 walk 1|walk 2 => refused 9 walk-not-negative 0
8 walk 7|walk 7|walk 4|walk 5 => accepted not controllable";

/// A refutation over two links, each of whose ends is bounded by the other's activation.
const TWO_LINKS: &str =
    "bound p A1 C2 2|bound q A2 C1 2|link C1 C1 A1 -10|link C2 C2 A2 -10|up 2 3 A2 A1 C1 -8|drop 5 A2 A1 -1|up 1 4 A1 A2 C2 -8|drop 7 A1 A2 -1|walk 8|walk 6";

const OVER_TWO_LINKS: &str = "10 walk 6 => accepted not controllable
9 up 2 3 A2 A1 C2 -8 => refused 9 label
9 cross C1 3 A1 A1 C1 -9 => refused 9 rule-condition
9 cross C1 2 A1 C1 C2 -9 => refused 9 label
9 cross C1 4 A1 A2 C2 -9 => refused 9 ends
9 cross C1 9 A1 A2 C2 -9 => refused 9 premise
9 cross A1 4 A1 A2 C2 -9 => refused 9 unknown-item
9 bound r C1 C2 2|up 9 4 C1 A2 C2 -8|cross C1 10 A1 A2 C2 -7|cross C1 10 A1 A2 C2 -8 => refused 12 too-low -8 -7";

/// A refutation of these lines.
fn of_lines(lines: &str) -> Original<'_> {
    Original {
        kind: "refutation",
        lines,
    }
}

#[test]
fn over_two_bounds(rt: HostRuntime) -> Result<(), Fail> {
    let bounds = [("b1", "A", "B", 3), ("b2", "B", "A", -5)];
    try_over(
        &rt,
        rt.alloc(),
        &["A", "B"],
        &bounds,
        &[],
        &of_lines(""),
        OVER_TWO_BOUNDS,
    )
}

#[test]
fn over_a_ring(rt: HostRuntime) -> Result<(), Fail> {
    let links = [("A", 1, 2, "B"), ("B", 1, 2, "A")];
    try_over(
        &rt,
        rt.alloc(),
        &["A", "B"],
        &[],
        &links,
        &of_lines(""),
        OVER_RING,
    )
}

#[test]
fn over_one_link(rt: HostRuntime) -> Result<(), Fail> {
    let points = ["A", "C", "D"];
    let bounds = [("b1", "D", "C", 1), ("b2", "C", "D", -1)];
    let links = [("A", 3, 8, "C")];
    try_over(
        &rt,
        rt.alloc(),
        &points,
        &bounds,
        &links,
        &of_lines(ONE_LINK),
        OVER_ONE_LINK,
    )
}

#[test]
fn over_two_links(rt: HostRuntime) -> Result<(), Fail> {
    let points = ["A1", "C1", "A2", "C2"];
    let bounds = [
        ("p", "A1", "C2", 2),
        ("q", "A2", "C1", 2),
        ("r", "C1", "C2", 2),
    ];
    let links = [("A1", 1, 10, "C1"), ("A2", 1, 10, "C2")];
    try_over(
        &rt,
        rt.alloc(),
        &points,
        &bounds,
        &links,
        &of_lines(TWO_LINKS),
        OVER_TWO_LINKS,
    )
}
