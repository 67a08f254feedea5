//! Rows of changes of a certificate and what is judged then.

use cert_checker::judge;
use cert_format::{Certificate, read_certificate};
use net_model::{BuildFault, Name, NameFault, Network, Part, Weight};
use std::alloc::{AllocError, Global};
use std::process::Abort;
use std::test::Fail;
use std::thread::Threads;

/// A certificate before it is changed: its second line, and those after it but for `end`; `|`
/// stands for a line end.
#[derive(Clone, Copy)]
pub(crate) struct Original<'a> {
    pub(crate) kind: &'a str,
    pub(crate) lines: &'a str,
}

fn name(text: &str) -> Result<Name, NameFault> {
    Name::new(text.as_bytes())
}

fn bound(item: &str, from: &str, to: &str, most: Weight) -> Result<Part, NameFault> {
    Ok(Part::Bound(name(item)?, name(from)?, name(to)?, most))
}

fn link(from: &str, low: Weight, high: Weight, to: &str) -> Result<Part, NameFault> {
    Ok(Part::Link(name(from)?, low, high, name(to)?))
}

fn push_points(parts: &mut Vec<Part>, points: &[&str]) -> Result<(), Fail> {
    for point in points {
        parts.push(Part::Point(name(point)?))?;
    }
    Ok(())
}

fn push_bounds(parts: &mut Vec<Part>, bounds: &[(&str, &str, &str, Weight)]) -> Result<(), Fail> {
    for (item, from, to, most) in bounds {
        parts.push(bound(item, from, to, *most)?)?;
    }
    Ok(())
}

fn push_links(parts: &mut Vec<Part>, links: &[(&str, Weight, Weight, &str)]) -> Result<(), Fail> {
    for (from, low, high, to) in links {
        parts.push(link(from, *low, *high, to)?)?;
    }
    Ok(())
}

/// A network of these points, bounds `(name, from, to, most)` and links `(from, low, high, to)`.
fn network(
    alloc: Global,
    points: &[&str],
    bounds: &[(&str, &str, &str, Weight)],
    links: &[(&str, Weight, Weight, &str)],
) -> Result<Network, Fail> {
    let mut parts = Vec::new(alloc);
    push_points(&mut parts, points)?;
    push_bounds(&mut parts, bounds)?;
    push_links(&mut parts, links)?;
    built(alloc, parts.as_slice())
}

fn built(alloc: Global, parts: &[Part]) -> Result<Network, Fail> {
    if parts.len() > u32::MAX as usize {
        return Err(BuildFault::OutOfMemory.into());
    }
    Ok(Network::build(alloc, parts)?)
}

/// The text of a certificate in which other lines stand in the place of one, by its number from 1,
/// or of all, by 0.
fn certificate(
    alloc: Global,
    original: &Original,
    place: usize,
    other: &str,
) -> Result<String, AllocError> {
    let mut text = String::from_str(alloc, "certificate 1|")?;
    text.push_str(original.kind)?;
    let lines = if place == 0 { other } else { original.lines };
    for (index, line) in lines.split('|').enumerate() {
        text.push('|')?;
        text.push_str(if index + 1 == place { other } else { line })?;
    }
    text.push_str("|end|")?;
    Ok(text)
}

/// The bytes of a text, with line ends.
pub(crate) fn with_line_ends(alloc: Global, text: &str) -> Result<Vec<u8>, AllocError> {
    text.bytes()
        .map(|byte| if byte == b'|' { b'\n' } else { byte })
        .collect(alloc)
}

/// The judgement of a text, or its fault.
pub(crate) fn judged<R: Threads + Sync>(
    rt: &R,
    alloc: Global,
    net: &Network,
    text: &[u8],
) -> Result<String, AllocError> {
    if text.len() > 100_000 {
        return String::from_str(alloc, "too long");
    }
    match read_certificate(alloc, text) {
        Ok(certificate) => judgement_text(rt, alloc, net, &certificate),
        Err(fault) => fault.to_string(alloc),
    }
}

fn judgement_text<R: Threads + Sync>(
    rt: &R,
    alloc: Global,
    net: &Network,
    certificate: &Certificate,
) -> Result<String, AllocError> {
    judge(rt, alloc, net, certificate)?.to_string(alloc)
}

/// A row: the number of a line, what stands in its place, and the judgement.
fn parts_of(row: &str) -> Option<(usize, &str, &str)> {
    let (change, wanted) = row.split_once(" => ")?;
    let (place, other) = change.split_once(' ')?;
    Some((place.parse().ok()?, other, wanted))
}

fn try_row<R: Abort + Threads + Sync>(
    rt: &R,
    alloc: Global,
    net: &Network,
    original: &Original,
    row: &str,
) -> Result<(), AllocError> {
    if let Some((place, other, wanted)) = parts_of(row) {
        let text = certificate(alloc, original, place, other)?;
        let answer = judged(
            rt,
            alloc,
            net,
            with_line_ends(alloc, text.as_str())?.as_slice(),
        )?;
        assert!(rt; answer.as_str() == wanted, "{row}");
    } else {
        assert!(rt; false, "{row}");
    }
    Ok(())
}

fn try_rows<R: Abort + Threads + Sync>(
    rt: &R,
    alloc: Global,
    net: &Network,
    original: &Original,
    rows: &str,
) -> Result<(), AllocError> {
    for row in rows.split('\n') {
        try_row(rt, alloc, net, original, row)?;
    }
    Ok(())
}

/// Tries rows over a network of these points, bounds and links.
pub(crate) fn try_over<R: Abort + Threads + Sync>(
    rt: &R,
    alloc: Global,
    points: &[&str],
    bounds: &[(&str, &str, &str, Weight)],
    links: &[(&str, Weight, Weight, &str)],
    original: &Original,
    rows: &str,
) -> Result<(), Fail> {
    let net = network(alloc, points, bounds, links)?;
    try_rows(rt, alloc, &net, original, rows)?;
    Ok(())
}
