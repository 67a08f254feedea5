//! Certificates of networks with a delay: the numbers of their lines are those of the shown form.

use crate::rows::{judged, with_line_ends};
use example_plans::network_with_delay;
use net_model::Weight;
use std::alloc::Global;
use std::process::Abort;
use std::test::Fail;
use std::thread::Threads;

/// D comes exactly with C.
const TOGETHER: &str = "point A|point C|point D|bound e1 C D 0|bound e2 D C 0|link A 3 8 C";

/// C comes at most 4 moments after D.
const APART: &str = "point A|point C|point D|bound b1 D C 4|link A 3 8 C";

/// D comes from C by a link of its own, and E between them.
const BETWEEN: &str =
    "point A|point C|point D|point E|bound e1 C E 3|bound e2 E D 0|link A 2 4 C|link C 1 2 D";

/// The refutation of the first with a delay of 1.
const REFUTATION: &str =
    "certificate 1|refutation|bound e1 C D -1|bound e2 D C 1|link C C A -9|up 2 3 D A C -8|low C 1 A D 3|up 5 4 A A C -5|drop 6 A A -4|walk 7|end|";

/// The table proofs of the second with a delay of 1, and of the third with one of 2.
const APART_TABLE: &str =
    "certificate 1|table|order A|order C|order D|edge A A 0|edge C A -4|upper C C -9|edge D A -4|upper D C -4|edge D C 5|end|";

const BETWEEN_TABLE: &str =
    "certificate 1|table|order A|order C|order D|order E|edge A A 0|edge C A -4|upper C C -6|edge D A -4|upper D C -6|edge E A -4|upper E C -6|edge C C 0|edge D C -1|upper D D -2|edge E C 0|upper E D 0|edge E D 2|edge C E 1|end|";

/// A delay, a plan, a certificate, and the judgement.
const ROWS: [(Weight, &str, &str, &str); 10] = [
    (1, TOGETHER, REFUTATION, "accepted not controllable"),
    (0, TOGETHER, REFUTATION, "refused 1 too-low -1 0"),
    (2, TOGETHER, REFUTATION, "refused 2 too-low 1 2"),
    (1, APART, APART_TABLE, "accepted controllable"),
    (0, APART, APART_TABLE, "refused 0 missing-base bound b1"),
    (2, APART, APART_TABLE, "refused 0 missing-base link C"),
    (2, BETWEEN, BETWEEN_TABLE, "accepted controllable"),
    (0, BETWEEN, BETWEEN_TABLE, "refused 0 missing-base bound e2"),
    (3, BETWEEN, BETWEEN_TABLE, "refused 0 missing-base bound e1"),
    (1000000, APART, APART_TABLE, "refused 0 missing-base link C"),
];

#[test]
fn certificates_are_of_what_is_shown(rt: HostRuntime) -> Result<(), Fail> {
    for (delay, plan, certificate, wanted) in ROWS {
        let answer = answer(&rt, rt.alloc(), delay, plan, certificate)?;
        assert_eq!(rt; answer.as_str(), wanted, "{delay} {plan}");
    }
    Ok(())
}

/// The judgement of a certificate of a plan with a delay.
fn answer<R: Abort + Threads + Sync>(
    rt: &R,
    alloc: Global,
    delay: Weight,
    plan: &str,
    certificate: &str,
) -> Result<String, Fail> {
    let net = network_with_delay(alloc, plan, delay)?;
    let text = with_line_ends(alloc, certificate)?;
    Ok(judged(rt, alloc, &net, text.as_slice())?)
}
