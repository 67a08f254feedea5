//! Strong certificates, and how they are judged.

use crate::plans::{network, with_line_ends};
use cert_format::{StrongCert, read_strong};
use net_model::Network;
use std::alloc::Global;
use std::process::Abort;
use std::test::Fail;
use strong_plan::judge_strong;

/// A plan of one link with a bound each way, of two links in a row beside it, and of a ring of two
/// links.
const PLAN: &str =
    "point A|point C|point D|point E|point F|point R|point S|bound e1 C D 0|bound e2 D C 0|bound f D F 5|bound r R D 1|bound s D D 0|link A 3 8 C|link C 2 4 E|link E 1 1 F|link R 1 2 S|link S 1 2 R";

/// The lines of a certificate, and how it is judged.
const ROWS: &str = "by e1 A D 3|by e2 D A -8 => accepted not strongly controllable
by e2 D A -8|by e1 A D 3 => accepted not strongly controllable
by e1 A D 4|by e2 D A -8 => accepted not strongly controllable
ring R|ring S => accepted not strongly controllable
ring S|ring R => accepted not strongly controllable
ring S|ring R|ring S|ring R => accepted not strongly controllable
by e1 A D 2|by e2 D A -8 => refused 1 too-low 2 3
by e1 A D 3|by e2 D A -9 => refused 2 too-low -9 -8
by f D A -8 => refused 1 walk-broken
by f D A -9 => refused 1 too-low -9 -8
by e9 A D 3|by e2 D A -8 => refused 1 unknown-item
by e1 A D 3|by e2 D X -8 => refused 2 unknown-item
by e1 X D 1000000000001 => refused 1 unknown-item
by r R D 1000000000001 => refused 1 weight-range
by r R D -1000000000001 => refused 1 weight-range
by r R D 1000000000000 => refused 1 ends
by e1 C D 0 => refused 1 ends
by e1 D A 3 => refused 1 ends
by e1 A D 1|by r R D 1 => refused 1 too-low 1 3
by r R D 1|by e1 A D 1 => refused 1 ends
by e1 A D 3|by e1 A D 3 => refused 2 walk-broken
by e1 A D 3 => refused 1 walk-broken
by e1 A D 3|by e2 D A -8|by e1 A D 3 => refused 3 walk-broken
by e1 A D 10|by e2 D A -3 => refused 2 walk-not-negative 7
by e1 A D 8|by e2 D A -8 => refused 2 walk-not-negative 0
by s D D 0 => refused 1 walk-not-negative 0
by e1 A D 10|by e2 D A -3|by e1 A D 3 => refused 3 walk-broken
ring R => refused 1 walk-broken
ring R|ring R => refused 1 walk-broken
ring C => refused 1 walk-broken
ring C|ring E => refused 1 walk-broken
ring R|ring S|ring S => refused 3 walk-broken
ring S|ring R|ring F => refused 1 walk-broken
ring R|ring S|ring R|ring R|ring S => refused 4 walk-broken
ring R|ring A => refused 2 unknown-item
ring A|ring X => refused 1 unknown-item
ring R|ring X => refused 2 unknown-item
 => refused 1 walk-broken";

/// The certificate of these lines.
fn certificate(alloc: Global, lines: &str) -> Result<StrongCert, Fail> {
    let mut text = String::from_str(alloc, "strong 1|")?;
    text.push_str(lines)?;
    text.push_str("|end")?;
    read(alloc, with_line_ends(alloc, &text)?.as_slice())
}

/// The certificate of a short text.
fn read(alloc: Global, text: &[u8]) -> Result<StrongCert, Fail> {
    let text = if text.len() > 1000 {
        b"".as_slice()
    } else {
        text
    };
    Ok(read_strong(alloc, text)?)
}

fn try_row<R: Abort>(rt: &R, alloc: Global, net: &Network, row: &str) -> Result<(), Fail> {
    if let Some((lines, wanted)) = row.split_once(" => ") {
        let cert = certificate(alloc, lines)?;
        let judgement = judge_strong(net, &cert).to_string(alloc)?;
        assert!(rt; judgement.as_str() == wanted, "{row}");
    } else {
        assert!(rt; false, "{row}");
    }
    Ok(())
}

#[test]
fn certificates_are_judged(rt: HostRuntime) -> Result<(), Fail> {
    let net = network(rt.alloc(), PLAN)?;
    for row in ROWS.split('\n') {
        try_row(&rt, rt.alloc(), &net, row)?;
    }
    Ok(())
}
