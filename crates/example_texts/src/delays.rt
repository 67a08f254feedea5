//! Networks with a delay, and their shown forms.

ghost use Rattle.net_model.specs.Network.{HasPlanNumbers};

use crate::edits::{edit_of, network_text};
use crate::rows::{cells, network, see_text};
use net_model::{BoundId, Edge, LinkId, MOST_DELAY, Network, Weight, bound_edge};
use std::alloc::{AllocError, Global};
use std::process::Abort;
use std::test::Fail;

/// A delay and a plan, and the points, bounds and links of its shown form, or that the network
/// cannot have this delay. C ends a link from A, and D one from C; A and B are executable.
const SHOWN: &str = "\
0 stnu 1|point A|point C|bound b A C 7|link A 2 5 C|end => A C; b 0 1 7; 0 2 5 1
3 stnu 1|end => ; 
3 stnu 1|point A|point C|bound b A C 7|link A 2 5 C|end => A C; b 0 1 10; 0 5 8 1
3 stnu 1|point A|point C|bound b C A -7|link A 2 5 C|end => A C; b 1 0 -10; 0 5 8 1
3 stnu 1|point A|point C|bound b C A 3|link A 2 5 C|end => A C; b 1 0 0; 0 5 8 1
3 stnu 1|point A|point B|bound b A B 7|bound s B B 0|end => A B; b 0 1 7, s 1 1 0; 
3 stnu 1|point A|point C|bound s C C -1|link A 2 5 C|end => A C; s 1 1 -1; 0 5 8 1
3 stnu 1|point A|point C|point D|bound b C D 4|bound s D C -1|link A 2 5 C|link C 1 1 D|end => A C D; b 1 2 4, s 2 1 -1; 0 5 8 1, 1 1 1 2
3 stnu 1|point D|point C|point A|link C 1 4 D|link A 2 5 C|end => D C A; 1 1 4 0, 2 5 8 1
1000000 stnu 1|point A|point C|bound b A C 1000000000|link A 1 1000000000 C|end => A C; b 0 1 1001000000; 0 1000001 1001000000 1
1000000 stnu 1|point A|point C|bound b C A -1000000000|link A 1 1 C|end => A C; b 1 0 -1001000000; 0 1000001 1000001 1
1000001 stnu 1|end => refused
-1 stnu 1|end => refused";

/// The plan that each edit changes, with a delay of 3.
const PLAN: &str = "stnu 1|point A|point B|point C|bound b A C 7|bound d B A -2|link A 2 5 C|end";

/// An edit, and the points, bounds and links of the shown form of what it makes: the delay stays.
const EDITS: &str = "\
add point E => A B C E; b 0 2 10, d 1 0 -2; 0 5 8 2
add bound e C B 9 => A B C; b 0 2 10, d 1 0 -2, e 2 1 6; 0 5 8 2
set bound b 8 => A B C; b 0 2 11, d 1 0 -2; 0 5 8 2
drop bound d => A B C; b 0 2 10; 0 5 8 2
add link C 1 2 B => A B C; b 0 2 10, d 1 0 -5; 0 5 8 2, 2 1 2 1
add link B 1 2 A => A B C; b 0 2 7, d 1 0 1; 0 2 5 2, 1 4 5 0
set link C 4 4 => A B C; b 0 2 10, d 1 0 -2; 0 7 7 2
drop link C => A B C; b 0 2 7, d 1 0 -2; ";

/// The network with a delay, if it may have this one.
fn delayed(net: Network, delay: Weight) -> Option<Network>
    requires { HasPlanNumbers net }
{
    if 0 <= delay && delay <= Weight::from(MOST_DELAY) {
        Some(net.with_delay(delay))
    } else {
        None
    }
}

/// The edge of a bound, by its place.
fn edge_of(net: &Network, place: usize) -> Option<Edge> {
    Some(bound_edge(net.bounds().get(place)?))
}

/// The edges of bounds that are read one by one are those of the shown form.
fn see_bounds(rt: &impl Abort, net: &Network, shown: &Network) {
    for k in 0..net.bounds().len() {
        let edge = net.shown_bound(BoundId(k as u32));
        assert_eq!(rt; edge_of(shown, k), Some(edge));
    }
}

/// The links that are read one by one are those of the shown form.
fn see_links(rt: &impl Abort, net: &Network, shown: &Network) {
    for k in 0..net.links().len() {
        let link = net.shown_link(LinkId(k as u32));
        assert_eq!(rt; shown.links().get(k).copied(), Some(link));
    }
}

fn see_delay(rt: &impl Abort, net: &Network, delay: Weight) {
    assert_eq!(rt; net.delay(), delay);
}

/// The points, bounds and links of the shown form.
fn form_text(rt: &impl Abort, alloc: Global, net: &Network) -> Result<String, AllocError> {
    let shown = net.shown(alloc)?;
    see_delay(rt, &shown, 0);
    see_bounds(rt, net, &shown);
    see_links(rt, net, &shown);
    network_text(alloc, &shown)
}

fn result_text(rt: &impl Abort, alloc: Global, delay: Weight, plan: &str) -> Result<String, Fail> {
    match delayed(network(alloc, plan)?, delay) {
        Some(net) => {
            see_delay(rt, &net, delay);
            Ok(form_text(rt, alloc, &net)?)
        }
        None => Ok(String::from_str(alloc, "refused")?),
    }
}

fn try_shown(rt: &impl Abort, alloc: Global, row: &str) -> Result<(), Fail> {
    let (input, wanted) = cells(row).ok_or("a row")?;
    let (delay, plan) = input.split_once(' ').ok_or("a delay")?;
    let result_text = result_text(rt, alloc, delay.parse()?, plan)?;
    see_text(rt, result_text.as_str(), wanted, input);
    Ok(())
}

#[test]
fn shown_forms(rt: HostRuntime) -> Result<(), Fail> {
    for row in SHOWN.split('\n') {
        try_shown(&rt, rt.alloc(), row)?;
    }
    Ok(())
}

fn try_edit(rt: &impl Abort, alloc: Global, net: &Network, row: &str) -> Result<(), Fail> {
    let (line, wanted) = cells(row).ok_or("a row")?;
    let edit = edit_of(line).ok_or("an edit")?;
    let new = net.apply(alloc, &edit)?;
    try_edited(rt, alloc, &new, line, wanted)
}

/// What an edit made has the delay, and its shown form the points, bounds and links.
fn try_edited(
    rt: &impl Abort,
    alloc: Global,
    new: &Network,
    line: &str,
    wanted: &str,
) -> Result<(), Fail> {
    assert_eq!(rt; new.delay(), 3, "{line}");
    let result_text = form_text(rt, alloc, new)?;
    see_text(rt, result_text.as_str(), wanted, line);
    Ok(())
}

fn try_edits(rt: &impl Abort, alloc: Global, net: &Network) -> Result<(), Fail> {
    for row in EDITS.split('\n') {
        try_edit(rt, alloc, net, row)?;
    }
    Ok(())
}

#[test]
fn edits_keep_the_delay(rt: HostRuntime) -> Result<(), Fail> {
    let net = delayed(network(rt.alloc(), PLAN)?, 3).ok_or("a delay")?;
    try_edits(&rt, rt.alloc(), &net)
}

/// Plans with two links, and what the durations 2 and 1 are in the shown form when the delay is 3.
const SITUATIONS: [(&str, [u64; 2]); 3] = [
    (
        "stnu 1|point A|point C|point D|link A 2 5 C|link C 1 1 D|end",
        [5, 1],
    ),
    (
        "stnu 1|point A|point C|point D|link C 1 4 D|link A 1 5 C|end",
        [2, 4],
    ),
    (
        "stnu 1|point A|point C|point D|link A 1 5 C|link A 1 1 D|end",
        [5, 4],
    ),
];

fn shown_durations(alloc: Global, net: &Network) -> Result<Vec<u64>, AllocError> {
    if net.links().len() != 2 {
        return Ok(Vec::new(alloc));
    }
    net.shown_situation(alloc, &[2, 1])
}

fn durations_in(alloc: Global, plan: &str) -> Result<Vec<u64>, Fail> {
    let net = delayed(network(alloc, plan)?, 3).ok_or("a delay")?;
    Ok(shown_durations(alloc, &net)?)
}

#[test]
fn shown_situations(rt: HostRuntime) -> Result<(), Fail> {
    for (plan, wanted) in SITUATIONS {
        let durations = durations_in(rt.alloc(), plan)?;
        assert_eq!(rt; durations.as_slice(), wanted.as_slice(), "{plan}");
    }
    Ok(())
}
