//! The lines of bounds of a strong certificate: whether they pass, and are a closed walk of
//! negative total.

ghost use Rattle.std.specs.Prelude.{◌≡◌, ◌+◌, ◌≤◌, ◌<◌, ◌*◌, ◌∷◌, length, Ok};
ghost use Rattle.strong_plan.specs.Judgement.{bound_line_passes, bound_lines_pass, lines_return_to};
ghost use Rattle.strong_plan.specs.Judgement.{total_of, strong_walk_passes};

use crate::chain::reduced_edge;
use crate::judgement::RefusedStrongLine;
use crate::lookup::bound_of;
use cert_checker::CertFault;
use cert_format::StrongLine;
use net_model::{MOST_WEIGHT, Network};

/// Each line passes.
pub(crate) fn bound_lines_pass(net: &Network, lines: &[StrongLine]) -> Result<(), RefusedStrongLine>
    ensures { result ≡ bound_lines_pass net.now 1 lines.now }
{
    for (index, line) in lines.iter().enumerate() {
        if let Err(why) = bound_line_passes(net, line) {
            return Err(RefusedStrongLine::at(1 + index as u64, why));
        }
    }
    Ok(())
}

/// Whether a line passes, or why not.
#[tactic(auto, unfolding(crate::specs::Judgement::bound_line_passes))]
fn bound_line_passes(net: &Network, line: &StrongLine) -> Result<(), CertFault>
    ensures { result ≡ bound_line_passes net.now line.now }
{
    if net.point(line.from.bytes()).is_none() || net.point(line.to.bytes()).is_none() {
        return Err(CertFault::UnknownItem);
    }
    let Some(bound) = bound_of(net, &line.bound) else {
        return Err(CertFault::UnknownItem);
    };
    if line.weight.unsigned_abs() > MOST_WEIGHT {
        return Err(CertFault::WeightRange);
    }
    let Some(edge) = reduced_edge(net, &bound) else {
        return Err(CertFault::Ends);
    };
    let from = net.point(line.from.bytes());
    let to = net.point(line.to.bytes());
    if from != Some(edge.from) || to != Some(edge.to) {
        return Err(CertFault::Ends);
    }
    if edge.weight <= line.weight {
        return Ok(());
    }
    Err(CertFault::TooLow {
        given: line.weight,
        least: edge.weight,
    })
}

/// The lines are a closed walk of negative total.
pub(crate) fn strong_walk_passes(lines: &[StrongLine]) -> Result<(), RefusedStrongLine>
    ensures { result ≡ strong_walk_passes lines.now }
{
    let Some((first, rest)) = lines.split_first() else {
        return Err(RefusedStrongLine::at(1, CertFault::WalkBroken));
    };
    lines_return_to(first, rest)?;
    let total = total_of(lines);
    if total < 0 {
        return Ok(());
    }
    Err(RefusedStrongLine::at(1 + rest.len() as u64, CertFault::WalkNotNegative { total }))
}

/// Each line after the first begins where the one before ends, and the last ends where the first
/// begins.
fn lines_return_to(first: &StrongLine, rest: &[StrongLine]) -> Result<(), RefusedStrongLine>
    ensures { result ≡ lines_return_to first.now.from 1 first.now rest.now }
{
    let mut place = 1;
    let mut last = first;
    for next in rest {
        place += 1;
        if next.from != last.to {
            return Err(RefusedStrongLine::at(place, CertFault::WalkBroken));
        }
        last = next;
    }
    if last.to == first.from {
        Ok(())
    } else {
        Err(RefusedStrongLine::at(place, CertFault::WalkBroken))
    }
}

/// The sum of the weights.
fn total_of(lines: &[StrongLine]) -> i128
    ensures { result ≡ total_of lines.now }
{
    let mut total = 0;
    for line in lines {
        total += i128::from(line.weight);
    }
    total
}
