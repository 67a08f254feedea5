//! A table proof of more than 2,048 entries, which several threads scan: the first that is refused
//! is that of one thread.

use crate::rows::judged;
use net_model::{BuildFault, Name, Network, Part};
use std::alloc::{AllocError, Global};
use std::process::Abort;
use std::test::Fail;
use std::thread::Threads;

/// How many points there are; there is an entry from each to each.
pub(crate) const POINTS: u32 = 46;

/// How many entries there are.
pub(crate) const MOST: u32 = POINTS * POINTS;

pub(crate) fn push_name(
    alloc: Global,
    text: &mut String,
    word: &str,
    number: u32,
) -> Result<(), AllocError> {
    text.push_str(word)?;
    text.push_str(number.to_string(alloc)?.as_str())
}

fn push_order(alloc: Global, text: &mut String) -> Result<(), AllocError> {
    for point in 0..POINTS {
        push_name(alloc, text, "order p", point)?;
        text.push('\n')?;
    }
    Ok(())
}

/// The entries, of weight 0, but for those at two places, which are negative.
fn push_entries(alloc: Global, text: &mut String, lower: (u32, u32)) -> Result<(), AllocError> {
    for place in 0..MOST {
        push_name(alloc, text, "edge p", place / POINTS)?;
        push_name(alloc, text, " p", place % POINTS)?;
        let is_lower = place == lower.0 || place == lower.1;
        text.push_str(if is_lower { " -1\n" } else { " 0\n" })?;
    }
    Ok(())
}

pub(crate) fn table(alloc: Global, lower: (u32, u32)) -> Result<String, AllocError> {
    let mut text = String::from_str(alloc, "certificate 1\ntable\n")?;
    push_order(alloc, &mut text)?;
    push_entries(alloc, &mut text, lower)?;
    text.push_str("end\n")?;
    Ok(text)
}

fn push_points(alloc: Global, parts: &mut Vec<Part>) -> Result<(), Fail> {
    for point in 0..POINTS {
        let mut name = String::new(alloc);
        push_name(alloc, &mut name, "p", point)?;
        parts.push(Part::Point(Name::new(name.as_bytes())?))?;
    }
    Ok(())
}

pub(crate) fn network(alloc: Global) -> Result<Network, Fail> {
    let mut parts = Vec::new(alloc);
    push_points(alloc, &mut parts)?;
    if parts.len() > u32::MAX as usize {
        return Err(BuildFault::OutOfMemory.into());
    }
    Ok(Network::build(alloc, parts.as_slice())?)
}

fn try_lower<R: Abort + Threads + Sync>(
    rt: &R,
    alloc: Global,
    net: &Network,
    lower: (u32, u32),
    wanted: &str,
) -> Result<(), AllocError> {
    let text = table(alloc, lower)?;
    let answer = judged(rt, alloc, net, text.as_bytes())?;
    assert!(rt; answer.as_str() == wanted, "{wanted}");
    Ok(())
}

#[test]
fn over_many_points(rt: HostRuntime) -> Result<(), Fail> {
    let alloc = rt.alloc();
    let net = network(alloc)?;
    try_lower(&rt, alloc, &net, (MOST, MOST), "accepted controllable")?;
    try_lower(&rt, alloc, &net, (2000, MOST), "refused 2047 not-closed")?;
    try_lower(&rt, alloc, &net, (1500, 2000), "refused 1547 not-closed")?;
    try_lower(&rt, alloc, &net, (1500, 232), "refused 279 not-closed")?;
    Ok(try_lower(&rt, alloc, &net, (1500, 40), "refused 87 order-broken")?)
}
