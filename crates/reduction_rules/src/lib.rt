//! The reductions of the labelled distance graph (Morris and Muscettola 2005, in this project's
//! exact form), each from its premises to the one edge that follows. None takes memory. Weights are
//! in whole moments, from -10^12 to 10^12 in premises.
//!
//! Clause `exact` says what is given as a function of the premises, and `applies` when, in words of
//! their labels, ends and signs.
#![tactic(auto)]

ghost use Rattle.std.specs.Prelude.{◌≡◌, ◌≤◌, ◌<◌, ◌&&◌, not, length, Some, None, MatchOption};
ghost use Rattle.std.specs.Prelude.{IfSome, unsigned_abs};
ghost use Rattle.std.specs.Option.{SomeIff};
ghost use Rattle.net_model.specs.Network.{IsLink};
ghost use Rattle.net_model.specs.Limits.{most_size, IsWeight};
ghost use Rattle.net_model.specs.Edges.{IsLinkOf};
ghost use Rattle.net_model.specs.Rules.{no_case, upper_case, lower_case, cross_case, removal};
ghost use Rattle.net_model.specs.Rules.{is_ordinary, is_labelled, is_labelled_by, meet};
ghost use Rattle.net_model.specs.Rules.{is_negative, goes_on_from, moved_to_activation};
ghost use Rattle.reduction_rules.specs.Applies.{NoCaseApplies, UpperCaseApplies, LowerCaseApplies};
ghost use Rattle.reduction_rules.specs.Applies.{CrossCaseApplies, joined, without_label};

use net_model::{Edge, Link, LinkId, Network};

/// No-case: X to Y of v and Y to Z of u below 0, both without a label, give X to Z of max(v, 0) +
/// u. `None` exactly if an edge has a label, they are not consecutive, or u is not below 0.
#[tactic(auto, unfolding(net_model::specs::Rules::no_case))]
pub fn no_case(first: &Edge, second: &Edge) -> Option<Edge>
    requires first { IsWeight first.now.weight }
    requires second { IsWeight second.now.weight }
    ensures exact { result ≡ no_case first.now second.now }
    ensures applies { SomeIff result (NoCaseApplies first.now second.now)
        (joined first.now second.now) }
{
    if is_ordinary(first)
        && is_ordinary(second)
        && are_consecutive(first, second)
        && is_negative(second)
    {
        Some(joined(first, second))
    } else {
        None
    }
}

/// Upper-case: X to Y of v without a label and Y to A of u below 0, labelled B, give X to A of
/// max(v, 0) + u, labelled B. `None` exactly if the first edge has a label or the second has none,
/// they are not consecutive, or u is not below 0.
#[tactic(auto, unfolding(net_model::specs::Rules::upper_case))]
pub fn upper_case(first: &Edge, second: &Edge) -> Option<Edge>
    requires first { IsWeight first.now.weight }
    requires second { IsWeight second.now.weight }
    ensures exact { result ≡ upper_case first.now second.now }
    ensures applies { SomeIff result (UpperCaseApplies first.now second.now)
        (joined first.now second.now) }
{
    if is_ordinary(first)
        && is_labelled(second)
        && are_consecutive(first, second)
        && is_negative(second)
    {
        Some(joined(first, second))
    } else {
        None
    }
}

fn is_ordinary(edge: &Edge) -> bool
    ensures { result ≡ is_ordinary edge.now }
{
    edge.label.is_none()
}

fn is_labelled(edge: &Edge) -> bool
    ensures { result ≡ is_labelled edge.now }
{
    edge.label.is_some()
}

fn are_consecutive(first: &Edge, second: &Edge) -> bool
    ensures { result ≡ meet first.now second.now }
{
    first.to == second.from
}

fn is_negative(edge: &Edge) -> bool
    ensures { result ≡ is_negative edge.now }
{
    edge.weight < 0
}

/// The edge over both edges, with the label of the second.
fn joined(first: &Edge, second: &Edge) -> Edge
    requires first { IsWeight first.now.weight }
    requires second { IsWeight second.now.weight }
    ensures { result ≡ joined first.now second.now }
{
    Edge {
        from: first.from,
        to: second.to,
        label: second.label,
        weight: first.weight.max(0) + second.weight,
    }
}

/// Lower-case: a link from A to C of at least x, and C to Z of u below 0 without a label, give A to
/// Z of x + u. `None` exactly if the edge has a label, does not begin in the link's contingent
/// point, or is not below 0.
#[tactic(auto, unfolding(net_model::specs::Rules::lower_case))]
pub fn lower_case(net: &Network, link: LinkId, second: &Edge) -> Option<Edge>
    requires known { link.0 < length net.now.links }
    requires second { IsWeight second.now.weight }
    ensures exact { result ≡ lower_case net.now link second.now }
    ensures applies { (l : Link) → IsLinkOf net.now link l
        → SomeIff result (LowerCaseApplies l second.now) (moved_to_activation l second.now) }
{
    let link = link_of(net, link);
    if is_ordinary(second) && goes_on_from(&link, second) {
        Some(moved_to_activation(&link, second))
    } else {
        None
    }
}

/// Cross-case: a link from A to C of at least x, and C to D of u below 0, labelled by another link
/// B, give A to D of x + u, labelled B. `None` exactly if the edge has no label or this link as its
/// label, does not begin in the link's contingent point, or is not below 0.
#[tactic(auto, unfolding(net_model::specs::Rules::cross_case))]
pub fn cross_case(net: &Network, link: LinkId, second: &Edge) -> Option<Edge>
    requires known { link.0 < length net.now.links }
    requires second { IsWeight second.now.weight }
    ensures exact { result ≡ cross_case net.now link second.now }
    ensures applies { (l : Link) → IsLinkOf net.now link l
        → SomeIff result (CrossCaseApplies link l second.now) (moved_to_activation l second.now) }
{
    let name = link;
    let link = link_of(net, name);
    if is_labelled_by_another(name, second) && goes_on_from(&link, second) {
        Some(moved_to_activation(&link, second))
    } else {
        None
    }
}

/// Removal: X to A of z, labelled by a link from A of at least x, gives X to A of max(z, -x)
/// without the label. `None` exactly if the edge has no label.
#[tactic(auto, unfolding(net_model::specs::Rules::removal))]
pub fn removal(net: &Network, edge: &Edge) -> Option<Edge>
    requires known { IfSome edge.now.label (λ name. name.0 < length net.now.links) }
    requires weight { IsWeight edge.now.weight }
    ensures exact { result ≡ removal net.now edge.now }
    ensures applies { MatchOption edge.now.label (result ≡ None) (λ name. (l : Link)
        → IsLinkOf net.now name l → result ≡ Some (without_label l edge.now)) }
{
    let name = edge.label?;
    let link = link_of(net, name);
    Some(without_label(&link, edge))
}

fn link_of(net: &Network, name: LinkId) -> Link
    requires { name.0 < length net.now.links }
    ensures declared { IsLinkOf net.now name result }
    ensures sound { IsLink net.now result }
{
    net.links()[name.0 as usize]
}

fn is_labelled_by_another(name: LinkId, edge: &Edge) -> bool
    ensures { result ≡ (is_labelled edge.now && not (is_labelled_by name edge.now)) }
{
    match edge.label {
        Some(label) => label != name,
        None => false,
    }
}

fn goes_on_from(link: &Link, second: &Edge) -> bool
    ensures { result ≡ goes_on_from link.now second.now }
{
    second.from == link.to && second.weight < 0
}

/// What follows from an edge that goes on from a link: the edge from the link's activation point,
/// longer by its shortest duration.
fn moved_to_activation(link: &Link, second: &Edge) -> Edge
    requires link { unsigned_abs link.now.low ≤ most_size }
    requires second { IsWeight second.now.weight }
    ensures { result ≡ moved_to_activation link.now second.now }
{
    Edge {
        from: link.from,
        to: second.to,
        label: second.label,
        weight: link.low + second.weight,
    }
}

fn without_label(link: &Link, edge: &Edge) -> Edge
    requires { unsigned_abs link.now.low ≤ most_size }
    ensures { result ≡ without_label link.now edge.now }
{
    Edge {
        label: None,
        weight: edge.weight.max(-link.low),
        ..*edge
    }
}
