//! What each reduction gives from a table of premises.

ghost use Rattle.net_model.specs.Limits.{IsWeight};

use crate::networks::{edge, link, network};
use net_model::{Edge, Network};
use reduction_rules::{cross_case, lower_case, no_case, removal, upper_case};
use std::process::Abort;
use std::test::Fail;

const TWO_LINKS: &str = "point A|point B|point C|point D|link A 2 5 B|link C 1 10 D";

/// Rows: a rule with its link, its premises, and the edge that it gives, or `none`.
const ROWS: &str = "no;A C - 5;C D - -3 => A D - 2
no;A C - -4;C D - -3 => A D - -3
no;A C - 0;C A - -1 => A A - -1
no;A C - 5;C D - 0 => none
no;A C - 5;D C - -3 => none
no;A C - 5;D C D -3 => none
no;D A B 5;A C - -3 => none
up;B D - 4;D C D -10 => B C D -6
up;B D - -4;D C D -10 => B C D -10
up;B D - 4;D C D 0 => none
up;B D - 4;D A - -10 => none
up;B C D 4;C A B -10 => none
low B;B D - -3 => A D - -1
low B;B D - -1 => A D - 1
low B;B D - 0 => none
low B;D B - -3 => none
low D;B D - -3 => none
low B;B C D -3 => none
cross B;B C D -3 => A C D -1
cross B;B C D 0 => none
cross B;B A B -3 => none
cross D;B C D -3 => none
cross B;B C - -3 => none
drop;B C D -8 => B C - -1
drop;B C D -1 => B C - -1
drop;B C D 4 => B C - 4
drop;C A B -3 => C A - -2
drop;B C - -8 => none";

/// What a rule gives from its premises, `None` if they can't be read.
fn given(net: &Network, rule: &str, first: &str, second: &str) -> Option<Option<Edge>> {
    let first = edge(net, first)?;
    match rule.split_once(' ') {
        Some(("low", name)) => Some(lower_case(net, link(net, name)?, &first)),
        Some(("cross", name)) => Some(cross_case(net, link(net, name)?, &first)),
        Some(_) => None,
        None => given_without_link(net, rule, &first, second),
    }
}

fn given_without_link(net: &Network, rule: &str, first: &Edge, second: &str) -> Option<Option<Edge>>
    requires { IsWeight first.now.weight }
{
    match rule {
        "no" => Some(no_case(first, &edge(net, second)?)),
        "up" => Some(upper_case(first, &edge(net, second)?)),
        "drop" => Some(removed(net, first)),
        _ => None,
    }
}

fn removed(net: &Network, premise: &Edge) -> Option<Edge>
    requires { IsWeight premise.now.weight }
{
    if let Some(label) = premise.label {
        if label.0 as usize >= net.links().len() {
            return None;
        }
    }
    removal(net, premise)
}

/// The rule, its premises, and what is wanted.
fn parts_of(row: &str) -> Option<(&str, &str, &str, &str)> {
    let (given, wanted) = row.split_once(" => ")?;
    let (rule, premises) = given.split_once(';')?;
    let (first, second) = premises.split_once(';').unwrap_or((premises, ""));
    Some((rule, first, second, wanted))
}

fn passes(net: &Network, row: &str) -> Option<bool> {
    let (rule, first, second, wanted) = parts_of(row)?;
    let answer = given(net, rule, first, second)?;
    if wanted == "none" {
        return Some(answer.is_none());
    }
    Some(answer == Some(edge(net, wanted)?))
}

fn try_rows<R: Abort>(rt: &R, net: &Network, rows: &str) {
    for row in rows.split('\n') {
        assert!(rt; passes(net, row) == Some(true), "{row}");
    }
}

#[test]
fn each_rule_gives_its_edge(rt: HostRuntime) -> Result<(), Fail> {
    let net = network(rt.alloc(), TWO_LINKS)?;
    try_rows(&rt, &net, ROWS);
    Ok(())
}
