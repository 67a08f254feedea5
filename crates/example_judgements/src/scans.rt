//! The first refused place of a list: several threads find the one that a scan item by item finds.
//! Entries that are negative count as refused here.

ghost use Rattle.std.specs.Prelude.{◌≡◌, int_lt, pos, true};
ghost use Rattle.std.specs.List.{position};

use crate::wide::{MOST, table};
use cert_checker::first_refused;
use cert_format::{Certificate, Entry, read_certificate};
use std::alloc::Global;
use std::process::Abort;
use std::test::Fail;
use std::thread::Threads;

fn is_spoiled(entry: &Entry) -> bool
    ensures { result ≡ int_lt entry.now.weight (pos 0) }
{
    entry.weight < 0
}

/// The place of the first spoiled entry, looked for entry by entry.
fn first_by_one(entries: &[Entry]) -> Option<usize>
    ensures { result ≡ position (λ entry. int_lt entry.weight (pos 0)) entries.now }
{
    entries.iter().position(|entry| is_spoiled(entry))
}

/// The same, by as many threads as there are.
fn first_by_many<R: Threads + Sync>(rt: &R, entries: &[Entry]) -> Option<usize>
    ensures { result ≡ position (λ entry. int_lt entry.weight (pos 0)) entries.now }
{
    first_refused(
        rt,
        entries,
        &|entry: &Entry| -> bool
            requires { true ≡ true }
            ensures { result ≡ int_lt entry.now.weight (pos 0) }
        { is_spoiled(entry) },
    )
}

fn try_entries<R: Abort + Threads + Sync>(rt: &R, entries: &[Entry], wanted: Option<usize>) {
    let by_one = first_by_one(entries);
    assert!(rt; by_one == wanted);
    assert!(rt; first_by_many(rt, entries) == by_one);
}

/// The entries of a table proof, and none of a refutation.
fn entries_of(certificate: &Certificate) -> &[Entry] {
    match certificate {
        Certificate::TableProof { entries, .. } => entries.as_slice(),
        Certificate::Refutation { .. } => &[],
    }
}

fn try_text<R: Abort + Threads + Sync>(rt: &R, alloc: Global, text: &[u8], wanted: Option<usize>) {
    if text.len() > 100_000 {
        panic!(rt; "too long");
    }
    match read_certificate(alloc, text) {
        Ok(certificate) => try_entries(rt, entries_of(&certificate), wanted),
        Err(_) => panic!(rt; "no certificate"),
    }
}

/// A table proof of which the entries at two places are spoiled, or none if a place is past them.
fn try_spoiled<R: Abort + Threads + Sync>(
    rt: &R,
    alloc: Global,
    lower: (u32, u32),
) -> Result<(), Fail> {
    let text = table(alloc, lower)?;
    let first = lower.0.min(lower.1);
    let wanted = if first < MOST {
        Some(first as usize)
    } else {
        None
    };
    try_text(rt, alloc, text.as_bytes(), wanted);
    Ok(())
}

/// The next of drawn numbers, the same in each run.
fn next_draw(state: u64) -> u64 {
    (state % 2_147_483_648 * 1_103_515_245 + 12_345) % 2_147_483_648
}

#[test]
fn drawn_places_are_found(rt: HostRuntime) -> Result<(), Fail> {
    let mut state = 1;
    for _round in 0..40 {
        state = next_draw(state);
        let first = (state / 65_536 % 2_200) as u32;
        state = next_draw(state);
        let second = (state / 65_536 % 2_200) as u32;
        try_spoiled(&rt, rt.alloc(), (first, second))?;
    }
    Ok(())
}
