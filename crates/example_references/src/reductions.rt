//! The reductions once more, as their definitions state them. They fail if a sum does not fit in 64
//! bits.

ghost use Rattle.std.specs.Prelude.{◌≡◌, ◌&&◌, ◌-ℤ◌, not, pos, slice_get, None, IfOk};
ghost use Rattle.std.specs.Int.{int_max};
ghost use Rattle.net_model.specs.Rules.{no_case, upper_case, lower_case, cross_case, removal};
ghost use Rattle.net_model.specs.Rules.{is_ordinary, is_labelled, is_labelled_by, is_negative};
ghost use Rattle.net_model.specs.Rules.{meet, joined_weight, goes_on_from, moved_to_activation};

use net_model::{Edge, Link, LinkId, Network, Weight};
use std::test::Fail;

#[tactic(auto, unfolding(net_model::specs::Rules::no_case))]
pub(crate) fn no_case(first: &Edge, second: &Edge) -> Result<Option<Edge>, Fail>
    ensures { IfOk result (λ edge. edge ≡ no_case first.now second.now) }
{
    if is_ordinary(first)
        && is_ordinary(second)
        && are_consecutive(first, second)
        && is_negative(second)
    {
        let weight = joined_weight(first, second)?;
        Ok(Some(Edge {
            from: first.from,
            to: second.to,
            label: None,
            weight,
        }))
    } else {
        Ok(None)
    }
}

#[tactic(auto, unfolding(net_model::specs::Rules::upper_case))]
pub(crate) fn upper_case(first: &Edge, second: &Edge) -> Result<Option<Edge>, Fail>
    ensures { IfOk result (λ edge. edge ≡ upper_case first.now second.now) }
{
    if is_ordinary(first)
        && is_labelled(second)
        && are_consecutive(first, second)
        && is_negative(second)
    {
        let weight = joined_weight(first, second)?;
        Ok(Some(Edge {
            from: first.from,
            to: second.to,
            label: second.label,
            weight,
        }))
    } else {
        Ok(None)
    }
}

#[tactic(auto, unfolding(net_model::specs::Rules::lower_case))]
pub(crate) fn lower_case(net: &Network, name: LinkId, second: &Edge) -> Result<Option<Edge>, Fail>
    ensures { IfOk result (λ edge. edge ≡ lower_case net.now name second.now) }
{
    let Some(link) = link_of(net, name) else {
        return Ok(None);
    };
    if is_ordinary(second) && goes_on_from(&link, second) {
        Ok(Some(moved_to_activation(&link, second)?))
    } else {
        Ok(None)
    }
}

#[tactic(auto, unfolding(net_model::specs::Rules::cross_case))]
pub(crate) fn cross_case(net: &Network, name: LinkId, second: &Edge) -> Result<Option<Edge>, Fail>
    ensures { IfOk result (λ edge. edge ≡ cross_case net.now name second.now) }
{
    let Some(link) = link_of(net, name) else {
        return Ok(None);
    };
    if is_labelled_by_another(name, second) && goes_on_from(&link, second) {
        Ok(Some(moved_to_activation(&link, second)?))
    } else {
        Ok(None)
    }
}

#[tactic(auto, unfolding(net_model::specs::Rules::removal))]
pub(crate) fn removal(net: &Network, premise: &Edge) -> Result<Option<Edge>, Fail>
    ensures { IfOk result (λ edge. edge ≡ removal net.now premise.now) }
{
    let Some(name) = premise.label else {
        return Ok(None);
    };
    let Some(link) = link_of(net, name) else {
        return Ok(None);
    };
    Ok(Some(without_label(&link, premise)?))
}

fn without_label(link: &Link, premise: &Edge) -> Result<Edge, Fail>
    ensures { IfOk result (λ edge. edge ≡ record premise.now {
      label = None;
      weight = int_max premise.now.weight (pos 0 -ℤ link.now.low);
    }) }
{
    let least: Weight = 0i64.checked_sub(link.low).ok_or("a weight is too great")?;
    Ok(Edge {
        label: None,
        weight: premise.weight.max(least),
        ..*premise
    })
}

fn link_of(net: &Network, name: LinkId) -> Option<Link>
    ensures { result ≡ slice_get net.now.links name.0 }
{
    net.links().get(name.0 as usize).copied()
}

fn is_ordinary(edge: &Edge) -> bool
    ensures { result ≡ is_ordinary edge.now }
{
    edge.label.is_none()
}

fn is_labelled(edge: &Edge) -> bool
    ensures { result ≡ is_labelled edge.now }
{
    edge.label.is_some()
}

fn is_labelled_by_another(name: LinkId, edge: &Edge) -> bool
    ensures { result ≡ (is_labelled edge.now && not (is_labelled_by name edge.now)) }
{
    match edge.label {
        Some(label) => label != name,
        None => false,
    }
}

fn are_consecutive(first: &Edge, second: &Edge) -> bool
    ensures { result ≡ meet first.now second.now }
{
    first.to == second.from
}

fn is_negative(edge: &Edge) -> bool
    ensures { result ≡ is_negative edge.now }
{
    edge.weight < 0
}

fn goes_on_from(link: &Link, second: &Edge) -> bool
    ensures { result ≡ goes_on_from link.now second.now }
{
    second.from == link.to && second.weight < 0
}

fn joined_weight(first: &Edge, second: &Edge) -> Result<Weight, Fail>
    ensures { IfOk result (λ weight. weight ≡ joined_weight first.now second.now) }
{
    let sum = first.weight.max(0).checked_add(second.weight);
    Ok(sum.ok_or("a weight is too great")?)
}

fn moved_to_activation(link: &Link, second: &Edge) -> Result<Edge, Fail>
    ensures { IfOk result (λ edge. edge ≡ moved_to_activation link.now second.now) }
{
    let sum = link.low.checked_add(second.weight);
    Ok(Edge {
        from: link.from,
        to: second.to,
        label: second.label,
        weight: sum.ok_or("a weight is too great")?,
    })
}
