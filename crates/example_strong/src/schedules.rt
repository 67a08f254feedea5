//! Plans, each with its least strong schedule, or with the certificate that it has none.

ghost use Rattle.std.specs.Prelude.{◌≡◌};
ghost use Rattle.strong_plan.specs.Answers.{IsStrongAnswer, IsStrongRefutation};

use crate::plans::{network, with_line_ends};
use cert_format::{StrongCert, print_strong};
use net_model::Network;
use std::alloc::{AllocError, Global};
use std::process::Abort;
use std::test::Fail;
use strong_plan::laws::law_plan_numbers_are_shown;
use strong_plan::{Strong, StrongJudgement, judge_strong, strong};

/// The lines of a plan and its answer: the moments of the executable points, or the certificate;
/// `|` stands for a line end. In the two plans with four points the links share the first of them,
/// which has no part in how far their ends are apart.
const ROWS: &str = "point A|point B|bound b1 A B 5|bound b2 B A -2 => 0 2
point A|point C|point D|bound b1 D C 4|link A 3 8 C => 0 4
point A|point C|point D|bound e1 C D 0|bound e2 D C 0|link A 3 8 C => strong 1|by e1 A D 3|by e2 D A -8|end|
point A|point B|link A 1 2 B|link B 1 2 A => strong 1|ring A|ring B|end|
point A|point C|point D|bound b1 D C 1|bound b2 C D -1|link A 3 8 C => strong 1|by b2 A D 2|by b1 D A -7|end|
point A|point B|bound b1 A B 3|bound b2 B A -5 => strong 1|by b1 A B 3|by b2 B A -5|end|
point B|point A|bound b1 A B 3|bound b2 B A -5 => strong 1|by b2 B A -5|by b1 A B 3|end|
point A|point B|point C|point D|bound x C D 9|bound y D C -3|link A 1 20 B|link B 2 5 C|link B 6 9 D => strong 1|by y A A -2|end|
point A|point B|point C|point D|bound x C D 9|bound y D C -1|link A 1 20 B|link B 2 5 C|link B 6 9 D => 0
point A|bound a A A 0 => 0
point A|bound a A A -1 => strong 1|by a A A -1|end|
point X|point Y|point A|point B|bound p X Y 1|bound q Y X -2|link A 1 2 B|link B 1 2 A => strong 1|ring A|ring B|end|
point C|point A|point B|link A 1 2 B|link B 1 2 C|link C 3 3 A => strong 1|ring C|ring A|ring B|end|
 => ";

/// What is printed of an answer. A certificate must be accepted.
fn printed<R: Abort>(
    rt: &R,
    alloc: Global,
    net: &Network,
    answer: &Strong,
) -> Result<Vec<u8>, AllocError>
    requires { IsStrongAnswer net.now answer.now }
{
    match answer {
        Strong::Times(times) => moments(alloc, times.as_slice()),
        Strong::Refuted(cert) => certificate(rt, alloc, net, cert),
    }
}

fn moments(alloc: Global, times: &[u64]) -> Result<Vec<u8>, AllocError> {
    let mut out = Vec::new(alloc);
    for time in times {
        if !out.is_empty() {
            out.push(b' ')?;
        }
        out.extend_from_slice(time.to_string(alloc)?.as_bytes())?;
    }
    Ok(out)
}

fn certificate<R: Abort>(
    rt: &R,
    alloc: Global,
    net: &Network,
    cert: &StrongCert,
) -> Result<Vec<u8>, AllocError>
    requires { IsStrongRefutation net.now cert.now }
{
    let accepted = judge_strong(net, cert) == StrongJudgement::Accepted;
    assert!(rt; accepted, "the certificate");
    print_strong(alloc, cert)
}

fn try_plan<R: Abort>(rt: &R, alloc: Global, lines: &str) -> Result<Vec<u8>, Fail> {
    let net = network(alloc, lines)?;
    law_plan_numbers_are_shown();
    let answer = strong(alloc, &net)?;
    Ok(printed(rt, alloc, &net, &answer)?)
}

fn try_row<R: Abort>(rt: &R, alloc: Global, row: &str) -> Result<(), Fail> {
    if let Some((lines, wanted)) = row.split_once(" => ") {
        let answer = try_plan(rt, alloc, lines)?;
        let same = answer.as_slice() == with_line_ends(alloc, wanted)?.as_slice();
        assert!(rt; same, "{row}");
    } else {
        assert!(rt; false, "{row}");
    }
    Ok(())
}

#[test]
fn plans_have_least_strong_schedules(rt: HostRuntime) -> Result<(), Fail> {
    for row in ROWS.split('\n') {
        try_row(&rt, rt.alloc(), row)?;
    }
    Ok(())
}
