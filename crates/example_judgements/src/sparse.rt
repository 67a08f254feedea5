//! Table proofs over many points, of which some have few entries: a row stored by its few entries
//! is judged like one stored with a word for each point.

use crate::rows::judged;
use crate::wide::{POINTS, network, push_name};
use net_model::Network;
use std::alloc::{AllocError, Global};
use std::process::Abort;
use std::test::Fail;
use std::thread::Threads;

/// Rows: entries with `|` between them, and the judgement; `each p1 0` stands for an entry of this
/// weight from each other point. The order takes lines 1 to 46, from the last point to the first.
const ROWS: &str = "edge p0 p1 0|edge p1 p45 -1|edge p0 p45 -1 => accepted controllable
edge p0 p1 0|edge p1 p45 -1 => refused 48 not-closed
edge p0 p1 0|edge p1 p45 -1|edge p0 p45 0 => refused 48 not-closed
edge p0 p1 0|edge p0 p45 0|edge p1 p45 -1|edge p0 p45 -1 => accepted controllable
edge p0 p1 0|each p45 -1 => accepted controllable
edge p45 p1 0|each p45 -1 => refused 49 not-closed
each p1 0|edge p1 p45 -1 => refused 92 not-closed
each p1 0|each p45 -1 => refused 93 not-closed
each p45 -1 => accepted controllable
edge p0 p45 -1 => accepted controllable";

fn push_order(alloc: Global, text: &mut String) -> Result<(), AllocError> {
    for point in (0..POINTS).rev() {
        push_name(alloc, text, "order p", point)?;
        text.push('\n')?;
    }
    Ok(())
}

/// An entry from each point but that in which they end.
fn push_each(alloc: Global, text: &mut String, ending: &str) -> Result<(), AllocError> {
    let mut from = String::new(alloc);
    for point in 0..POINTS {
        from.clear();
        push_name(alloc, &mut from, "p", point)?;
        if !is_first_word(ending, from.as_str()) {
            text.push_str("edge ")?;
            text.push_str(from.as_str())?;
            text.push(' ')?;
            text.push_str(ending)?;
            text.push('\n')?;
        }
    }
    Ok(())
}

fn is_first_word(words: &str, word: &str) -> bool {
    words.split(' ').next() == Some(word)
}

fn push_entries(alloc: Global, text: &mut String, entries: &str) -> Result<(), AllocError> {
    for entry in entries.split('|') {
        match entry.strip_prefix("each ") {
            Some(ending) => push_each(alloc, text, ending)?,
            None => {
                text.push_str(entry)?;
                text.push('\n')?;
            }
        }
    }
    Ok(())
}

fn table(alloc: Global, entries: &str) -> Result<String, AllocError> {
    let mut text = String::from_str(alloc, "certificate 1\ntable\n")?;
    push_order(alloc, &mut text)?;
    push_entries(alloc, &mut text, entries)?;
    text.push_str("end\n")?;
    Ok(text)
}

fn try_row<R: Abort + Threads + Sync>(
    rt: &R,
    alloc: Global,
    net: &Network,
    row: &str,
) -> Result<(), AllocError> {
    if let Some((entries, wanted)) = row.split_once(" => ") {
        let text = table(alloc, entries)?;
        let answer = judged(rt, alloc, net, text.as_bytes())?;
        assert!(rt; answer.as_str() == wanted, "{row}");
    } else {
        assert!(rt; false, "{row}");
    }
    Ok(())
}

fn try_rows<R: Abort + Threads + Sync>(
    rt: &R,
    alloc: Global,
    net: &Network,
) -> Result<(), AllocError> {
    for row in ROWS.split('\n') {
        try_row(rt, alloc, net, row)?;
    }
    Ok(())
}

#[test]
fn with_few_entries(rt: HostRuntime) -> Result<(), Fail> {
    let alloc = rt.alloc();
    let net = network(alloc)?;
    try_rows(&rt, alloc, &net)?;
    Ok(())
}
