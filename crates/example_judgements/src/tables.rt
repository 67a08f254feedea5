//! Table proofs of two networks, and what is refused of them.

use crate::rows::{Original, try_over};
use std::test::Fail;

/// A table proof over two bounds.
const TWO_BOUNDS: &str = "order A|order B|edge A A 3|edge B A -2|edge A B 5";

/// Rows: the number of a line of the table proof and what stands in its place, or 0 and other lines
/// in place of all, and the judgement; `|` stands for a line end. Blank lines have no number.
const OVER_TWO_BOUNDS: &str =
    "0 order A|order B|edge A A 3|edge B A -2|edge A B 5 => accepted controllable
0 order A|order B|edge B A -2|edge A B 5 => refused 3 not-closed
0 order B|order A|edge A A 3|edge B A -2|edge A B 5 => refused 4 order-broken
0 order A|order B|edge A A 3|edge B A -2 => refused 0 missing-base bound b1
3 edge A A 2 => accepted controllable
3 edge A A 7|edge A A 3 => accepted controllable
3 edge A A 3|edge A A 7 => accepted controllable
3 edge A A 4 => refused 4 not-closed
3 edge A A -1 => refused 3 order-broken
4 edge B A -1 => refused 0 missing-base bound b2
5 edge A B 6 => refused 0 missing-base bound b1
5 edge A B 6|edge B A 9 => refused 0 missing-base bound b1
5 edge A B 4 => refused 4 not-closed
1 # => refused 0 order-broken
2 order A => refused 2 order-broken
2 order B|order B => refused 3 order-broken
1 order X => refused 1 unknown-item
3 edge A X 1000000000001 => refused 3 unknown-item
3 edge X A 3 => refused 3 unknown-item
3 upper A B 3 => refused 3 unknown-item
3 edge A A 1000000000001|edge X A 3 => refused 3 weight-range
3 edge A A -1000000000001 => refused 3 weight-range
3 edge A A 1000000000000 => refused 4 not-closed";

/// A table proof over one link.
const ONE_LINK: &str =
    "order A|order C|order D|edge A A 0|edge C A -3|upper C C -8|edge D A -3|upper D C -4|edge D C 4";

const OVER_ONE_LINK: &str = "9 edge D C 4 => accepted controllable
4 # => refused 4 not-closed
5 # => refused 5 not-closed
6 # => refused 0 missing-base link C
7 # => refused 5 not-closed
8 # => refused 6 not-closed
9 # => refused 0 missing-base bound b1
4 edge A A 1 => refused 5 not-closed
5 edge C A -2 => refused 6 not-closed
6 upper C C -7 => refused 0 missing-base link C
7 edge D A -2 => refused 8 not-closed
8 upper D C -3 => refused 6 not-closed
9 edge D C 5 => refused 0 missing-base bound b1
6 upper C D -8 => refused 6 unknown-item
0 order C|order A|order D|edge A A 0|edge C A -3|upper C C -8|edge D A -3|upper D C -4|edge D C 4 => refused 5 order-broken
0 order D|order A|order C|edge A A 0|edge C A -3|upper C C -8|edge D A -3|upper D C -4|edge D C 4 => refused 7 order-broken
0 order A|order D|order C|edge A A 0|edge C A -3|upper C C -8|edge D A -3|upper D C -4|edge D C 4 => accepted controllable
0 order A|order C|order D|edge D C 4|upper D C -4|edge D A -3|upper C C -8|edge C A -3|edge A A 0 => accepted controllable";

/// A table proof of these lines.
fn of_lines(lines: &str) -> Original<'_> {
    Original {
        kind: "table",
        lines,
    }
}

#[test]
fn over_two_bounds(rt: HostRuntime) -> Result<(), Fail> {
    let bounds = [("b1", "A", "B", 5), ("b2", "B", "A", -2)];
    try_over(
        &rt,
        rt.alloc(),
        &["A", "B"],
        &bounds,
        &[],
        &of_lines(TWO_BOUNDS),
        OVER_TWO_BOUNDS,
    )
}

#[test]
fn over_one_link(rt: HostRuntime) -> Result<(), Fail> {
    let bounds = [("b1", "D", "C", 4)];
    let links = [("A", 3, 8, "C")];
    try_over(
        &rt,
        rt.alloc(),
        &["A", "C", "D"],
        &bounds,
        &links,
        &of_lines(ONE_LINK),
        OVER_ONE_LINK,
    )
}
