//! Whether a rule line passes, rule by rule.

ghost use Rattle.std.specs.Prelude.{◌≡◌, pos, ◌+ℤ◌, ◌-ℤ◌, ◌≤ℤ◌, true, OnOk};
ghost use Rattle.std.specs.Int.{int_max};
ghost use Rattle.std.specs.List.{All};
ghost use Rattle.net_model.specs.Network.{IsLink};
ghost use Rattle.cert_format.specs.JudgementForms.{unless};
ghost use Rattle.cert_checker.specs.Lines.{at_least, has_label_of, is_negative, may_cross, goes};
ghost use Rattle.cert_checker.specs.Lines.{joins, reaches_back, in_range, bound_passes};
ghost use Rattle.cert_checker.specs.Lines.{link_passes, sum_passes, no_passes, up_passes};
ghost use Rattle.cert_checker.specs.Lines.{back_passes, low_passes, cross_passes, drop_passes};
ghost use Rattle.cert_checker.specs.Lines.{rule_passes, line_passes};

use crate::judgement::CertFault;
use crate::lookup::{bound_of, label_of, line_at, link_named, names_known};
use crate::shown::ShownNetwork;
use cert_format::{CertLine, LineKind};
use net_model::{Link, MOST_WEIGHT, Name, PointId, Weight};

/// A rule line, by the lines before it.
#[tactic(auto, unfolding(crate::specs::Lines::line_passes))]
pub(crate) fn line_passes(
    net: &ShownNetwork,
    earlier: &[CertLine],
    line: &CertLine,
) -> Result<(), CertFault>
    requires { All (λ l. in_range l.weight ≡ true) earlier.now }
    ensures passes { result ≡ line_passes net.now earlier.now line.now }
    ensures in_range { OnOk result (in_range line.now.weight ≡ true) }
{
    unless(names_known(net, line), CertFault::UnknownItem)?;
    unless(is_in_range(line.weight), CertFault::WeightRange)?;
    rule_passes(net, earlier, line)
}

fn rule_passes(net: &ShownNetwork, earlier: &[CertLine], line: &CertLine) -> Result<(), CertFault>
    requires { All (λ l. in_range l.weight ≡ true) earlier.now }
    ensures { result ≡ rule_passes net.now earlier.now line.now line.now.kind }
{
    match &line.kind {
        LineKind::Bound(name) => bound_passes(net, line, name),
        LineKind::Link(name) => link_passes(net, line, name),
        LineKind::No(first, second) => no_passes(earlier, line, *first, *second),
        LineKind::Up(first, second) => up_passes(earlier, line, *first, *second),
        LineKind::Low(name, second) => low_passes(net, earlier, line, name, *second),
        LineKind::Cross(name, second) => cross_passes(net, earlier, line, name, *second),
        LineKind::Drop(premise) => drop_passes(net, earlier, line, *premise),
    }
}

pub(crate) fn unless(holds: bool, why: CertFault) -> Result<(), CertFault>
    ensures { result ≡ unless holds why }
{
    if holds { Ok(()) } else { Err(why) }
}

pub(crate) fn is_in_range(weight: Weight) -> bool
    ensures { result ≡ in_range weight }
{
    weight.unsigned_abs() <= MOST_WEIGHT
}

/// The weight of a line is at least the least that its rule gives.
fn at_least(line: &CertLine, least: Weight) -> Result<(), CertFault>
    ensures { result ≡ at_least line.now least }
{
    let given = line.weight;
    unless(least <= given, CertFault::TooLow { given, least })
}

/// The bound rule.
#[tactic(auto, unfolding(crate::specs::Lines::bound_passes))]
fn bound_passes(net: &ShownNetwork, line: &CertLine, name: &Name) -> Result<(), CertFault>
    ensures { result ≡ bound_passes net.now line.now name.now }
{
    let bound = bound_of(net, name).ok_or(CertFault::UnknownItem)?;
    unless(goes(net, line, bound.from, bound.to), CertFault::Ends)?;
    at_least(line, bound.most)
}

/// The link rule.
#[tactic(auto, unfolding(crate::specs::Lines::link_passes))]
fn link_passes(net: &ShownNetwork, line: &CertLine, name: &Name) -> Result<(), CertFault>
    ensures { result ≡ link_passes net.now line.now name.now }
{
    let link = link_named(net, name).ok_or(CertFault::UnknownItem)?;
    unless(goes(net, line, link.to, link.from), CertFault::Ends)?;
    at_least(line, -link.high)
}

/// The ends and the weight of a line that joins two premises.
#[tactic(auto, unfolding(crate::specs::Lines::sum_passes))]
fn sum_passes(first: &CertLine, second: &CertLine, line: &CertLine) -> Result<(), CertFault>
    requires first_in_range { in_range first.now.weight ≡ true }
    requires second_in_range { in_range second.now.weight ≡ true }
    ensures { result ≡ sum_passes first.now second.now line.now }
{
    unless(joins(first, second, line), CertFault::Ends)?;
    at_least(line, sum(first.weight, second.weight))
}

fn sum(first: Weight, second: Weight) -> Weight
    requires first_in_range { in_range first ≡ true }
    requires second_in_range { in_range second ≡ true }
    ensures { result ≡ first +ℤ second }
{
    first + second
}

/// The no-case rule.
#[tactic(auto, unfolding(crate::specs::Lines::no_passes))]
fn no_passes(earlier: &[CertLine], line: &CertLine, i: u64, j: u64) -> Result<(), CertFault>
    requires { All (λ l. in_range l.weight ≡ true) earlier.now }
    ensures { result ≡ no_passes earlier.now line.now i j }
{
    let first = line_at(earlier, i).ok_or(CertFault::Premise)?;
    let second = line_at(earlier, j).ok_or(CertFault::Premise)?;
    unless(
        label_of(first).is_none() && label_of(second).is_none(),
        CertFault::Label,
    )?;
    sum_passes(first, second, line)
}

/// The upper-case rule.
#[tactic(auto, unfolding(crate::specs::Lines::up_passes))]
fn up_passes(earlier: &[CertLine], line: &CertLine, i: u64, j: u64) -> Result<(), CertFault>
    requires { All (λ l. in_range l.weight ≡ true) earlier.now }
    ensures { result ≡ up_passes earlier.now line.now i j }
{
    let first = line_at(earlier, i).ok_or(CertFault::Premise)?;
    let second = line_at(earlier, j).ok_or(CertFault::Premise)?;
    unless(
        label_of(first).is_none() && has_label_of(line, second),
        CertFault::Label,
    )?;
    sum_passes(first, second, line)
}

/// The ends and the weight of a line that goes over a link and then its premise.
#[tactic(auto, unfolding(crate::specs::Lines::back_passes))]
fn back_passes(
    net: &ShownNetwork,
    link: &Link,
    second: &CertLine,
    line: &CertLine,
) -> Result<(), CertFault>
    requires link { IsLink net.now link.now }
    requires negative { is_negative second.now.weight ≡ true }
    ensures { result ≡ back_passes net.now link.now second.now line.now }
{
    unless(reaches_back(net, link, second, line), CertFault::Ends)?;
    at_least(line, link.low + second.weight)
}

/// The lower-case rule.
#[tactic(auto, unfolding(crate::specs::Lines::low_passes))]
fn low_passes(
    net: &ShownNetwork,
    earlier: &[CertLine],
    line: &CertLine,
    name: &Name,
    j: u64,
) -> Result<(), CertFault>
    ensures { result ≡ low_passes net.now earlier.now line.now name.now j }
{
    let second = line_at(earlier, j).ok_or(CertFault::Premise)?;
    unless(label_of(second).is_none(), CertFault::Label)?;
    unless(second.weight < 0, CertFault::RuleCondition)?;
    let link = link_named(net, name).ok_or(CertFault::UnknownItem)?;
    back_passes(net, &link, second, line)
}

/// The cross-case rule.
#[tactic(auto, unfolding(crate::specs::Lines::cross_passes))]
fn cross_passes(
    net: &ShownNetwork,
    earlier: &[CertLine],
    line: &CertLine,
    name: &Name,
    j: u64,
) -> Result<(), CertFault>
    ensures { result ≡ cross_passes net.now earlier.now line.now name.now j }
{
    let second = line_at(earlier, j).ok_or(CertFault::Premise)?;
    unless(has_label_of(line, second), CertFault::Label)?;
    unless(may_cross(line, second, name), CertFault::RuleCondition)?;
    let link = link_named(net, name).ok_or(CertFault::UnknownItem)?;
    back_passes(net, &link, second, line)
}

/// The weight of a labelled edge without its label, by the shortest duration of the label's link.
fn without_label(weight: Weight, shortest: Weight) -> Weight
    requires { pos 0 ≤ℤ shortest }
    ensures { result ≡ int_max weight (pos 0 -ℤ shortest) }
{
    weight.max(-shortest)
}

/// The removal of a label.
#[tactic(auto, unfolding(crate::specs::Lines::drop_passes))]
fn drop_passes(
    net: &ShownNetwork,
    earlier: &[CertLine],
    line: &CertLine,
    j: u64,
) -> Result<(), CertFault>
    ensures { result ≡ drop_passes net.now earlier.now line.now j }
{
    let labelled = line_at(earlier, j).ok_or(CertFault::Premise)?;
    let label = label_of(labelled).ok_or(CertFault::Label)?;
    unless(
        labelled.from == line.from && labelled.to == line.to,
        CertFault::Ends,
    )?;
    let link = link_named(net, &label).ok_or(CertFault::UnknownItem)?;
    at_least(line, without_label(labelled.weight, link.low))
}

/// The label of a line is the one of its premise, which has one.
fn has_label_of(line: &CertLine, premise: &CertLine) -> bool
    ensures { result ≡ has_label_of line.now premise.now }
{
    let label = label_of(premise);
    label.is_some() && line.label == label
}

/// A premise of negative weight, and a line whose label is not this link's.
fn may_cross(line: &CertLine, second: &CertLine, name: &Name) -> bool
    ensures { result ≡ may_cross line.now second.now name.now }
{
    second.weight < 0 && line.label != Some(*name)
}

/// The edge of a line goes from a point to a point.
fn goes(net: &ShownNetwork, line: &CertLine, from: PointId, to: PointId) -> bool
    ensures { result ≡ goes net.now line.now from to }
{
    net.point(line.from.bytes()) == Some(from) && net.point(line.to.bytes()) == Some(to)
}

/// Two premises meet, and a line goes from where the first begins to where the second ends.
fn joins(first: &CertLine, second: &CertLine, line: &CertLine) -> bool
    ensures { result ≡ joins first.now second.now line.now }
{
    first.from == line.from && first.to == second.from && second.to == line.to
}

/// A premise begins where a link ends, and a line goes from where the link begins to where the
/// premise ends.
fn reaches_back(net: &ShownNetwork, link: &Link, second: &CertLine, line: &CertLine) -> bool
    ensures { result ≡ reaches_back net.now link.now second.now line.now }
{
    net.point(second.from.bytes()) == Some(link.to)
        && net.point(line.from.bytes()) == Some(link.from)
        && second.to == line.to
}
