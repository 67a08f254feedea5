//! The walk of a refutation.

ghost use Rattle.std.specs.Prelude.{◌≡◌, ◌+◌, ◌*◌, ◌<◌, length};
ghost use Rattle.cert_checker.specs.Lines.{line_at};
ghost use Rattle.cert_checker.specs.Walk.{refusal, steps_known, returns_to, total_weight};
ghost use Rattle.cert_checker.specs.Walk.{weight_of_line, is_negative_total, walked, walk_passes};

use crate::judgement::{CertFault, RefusedLine};
use crate::lookup::line_at;
use cert_format::CertLine;
use net_model::Weight;

/// The walk of a refutation whose lines all pass: each step is one of them, it is closed, and its
/// total is negative.
#[tactic(auto, unfolding(crate::specs::Walk::walk_passes))]
pub(crate) fn walk_passes(lines: &[CertLine], walk: &[u64]) -> Result<(), RefusedLine>
    ensures { result ≡ walk_passes lines.now walk.now }
{
    steps_known(lines, walk)?;
    let place = lines.len() as u64 + 1;
    let Some((first, rest)) = walk.split_first() else {
        return Err(refusal(place, CertFault::WalkBroken));
    };
    let Some(first) = line_at(lines, *first) else {
        return Err(refusal(place, CertFault::WalkBroken));
    };
    returns_to(lines, first, rest)?;
    is_negative(place + rest.len() as u64, total_weight(lines, walk))
}

/// Each step is the number of a line.
fn steps_known(lines: &[CertLine], walk: &[u64]) -> Result<(), RefusedLine>
    ensures { result ≡ steps_known lines.now (length lines.now + 1) walk.now }
{
    let first = lines.len() as u64 + 1;
    for (index, step) in walk.iter().enumerate() {
        if line_at(lines, *step).is_none() {
            return Err(refusal(first + index as u64, CertFault::Premise));
        }
    }
    Ok(())
}

fn refusal(line: u64, why: CertFault) -> RefusedLine
    ensures { result ≡ refusal line why }
{
    RefusedLine { line, why }
}

/// The total of a walk whose last step stands at a place.
fn is_negative(place: u64, total: i128) -> Result<(), RefusedLine>
    ensures { result ≡ is_negative_total place total }
{
    if total < 0 {
        return Ok(());
    }
    Err(refusal(place, CertFault::WalkNotNegative { total }))
}

/// Each step after the first begins where the one before ended, and the last ends where the first
/// began.
fn returns_to(lines: &[CertLine], first: &CertLine, rest: &[u64]) -> Result<(), RefusedLine>
    ensures { result ≡ returns_to first.now.from (length lines.now + 1) first.now
        (walked lines.now rest.now) }
{
    let mut place = lines.len() as u64 + 1;
    let mut last = first;
    for step in rest {
        if let Some(next) = line_at(lines, *step) {
            place += 1;
            if next.from != last.to {
                return Err(refusal(place, CertFault::WalkBroken));
            }
            last = next;
        }
    }
    if last.to == first.from {
        Ok(())
    } else {
        Err(refusal(place, CertFault::WalkBroken))
    }
}

/// The sum of the weights of the steps.
fn total_weight(lines: &[CertLine], walk: &[u64]) -> i128
    ensures { result ≡ total_weight (walked lines.now walk.now) }
{
    let mut total = 0;
    for step in walk {
        total += i128::from(weight_of_line(lines, *step));
    }
    total
}

/// The weight of the line of a number, or 0 if there is none.
fn weight_of_line(lines: &[CertLine], number: u64) -> Weight
    ensures { result ≡ weight_of_line lines.now number }
{
    match line_at(lines, number) {
        Some(line) => line.weight,
        None => 0,
    }
}
