//! Edits of drawn networks, one after another: what a store keeps of its nodes and what is new,
//! compared with the slow program of following, and the rounds from there compared with the slow
//! ones.

ghost use Rattle.std.specs.Prelude.{IfOk, OnOk};
ghost use Rattle.closure_model.specs.Derivations.{StandsOn};

use crate::comparison::{has_nodes, is_end};
use crate::drawn_edits::{KINDS, drawn_edit, kind};
use crate::drawn_networks::{Draws, drawn};
use crate::edited_network::Edited;
use crate::kept_nodes::{followed, new_base_nodes};
use crate::plans::network;
use crate::rounds::{base_nodes, rounds};
use closure_model::{Node, Rule};
use net_model::{Edit, EditFault, Name, Network};
use parallel_rounds::{NoGate, propagate};
use std::alloc::Global;
use std::process::Abort;
use std::test::Fail;
use std::thread::Threads;
use support_records::Store;

/// How many networks are drawn.
const DRAWN: u32 = 1_000;

/// How many points a network has at most beside its first three.
const SPARE: u64 = 9;

/// How many edits of a network are tried, one after another.
const EDITS: u8 = 8;

/// What is drawn from, how many edits of each kind were accepted, and how many of all kept some
/// nodes of rounds and withdrew others.
#[derive(Drop)]
struct Tried {
    draws: Draws,
    accepted: [u32; KINDS],
    parting: u32,
}

impl Tried {
    /// Counts an accepted edit, by the numbers of nodes of rounds before it and of those that it
    /// keeps.
    fn count(&mut self, edit: &Edit, earlier: usize, kept: usize) {
        if 0 < kept && kept < earlier {
            self.parting = self.parting.saturating_add(1);
        }
        if let Some(count) = self.accepted.get_mut(kind(edit)) {
            *count = count.saturating_add(1);
        }
    }
}

/// A network as it stands, its store, and the list that the slow programs make of it.
#[derive(Drop)]
struct Standing {
    net: Network,
    store: Store,
    nodes: Vec<Node>,
}

#[test]
fn edits_followed_as_slow(rt: HostRuntime) -> Result<(), Fail> {
    let mut tried = Tried {
        draws: Draws { state: 7 },
        accepted: [0; KINDS],
        parting: 0,
    };
    for _ in 0..DRAWN {
        try_network(&rt, rt.alloc(), &mut tried)?;
    }
    for count in tried.accepted {
        assert!(rt; count >= 100, "{count}");
    }
    assert!(rt; tried.parting >= 1_000, "{}", tried.parting);
    Ok(())
}

/// Draws a network, and tries it and its edits.
fn try_network<R: Abort + Threads + Sync>(
    rt: &R,
    alloc: Global,
    tried: &mut Tried,
) -> Result<(), Fail> {
    let parts = drawn(alloc, &mut tried.draws, SPARE)?;
    let mut standing = opened(alloc, parts.as_str())?;
    try_edits(rt, alloc, tried, &mut standing, parts.as_str())
}

/// The network of these parts, with its base nodes.
fn opened(alloc: Global, parts: &str) -> Result<Standing, Fail>
    ensures { IfOk result (λ standing. StandsOn standing.net standing.store) }
{
    let net = network(alloc, parts)?;
    let store = Store::of(alloc, &net)?;
    let nodes = base_nodes(alloc, &net)?;
    Ok(Standing { net, store, nodes })
}

/// Makes the rounds of a network, and edits it as often.
fn try_edits<R: Abort + Threads + Sync>(
    rt: &R,
    alloc: Global,
    tried: &mut Tried,
    standing: &mut Standing,
    parts: &str,
) -> Result<(), Fail>
    requires { StandsOn standing.old.net standing.old.store }
{
    let same = same_rounds(rt, alloc, standing)?;
    assert!(rt; same, "{parts}");
    for number in 0..EDITS {
        let same = try_edit(rt, alloc, tried, standing, number)?;
        assert!(rt; same, "{parts}, edit {number}");
    }
    Ok(())
}

/// Draws an edit. If it is accepted, follows it and makes the rounds from there, and says whether
/// both programs do so alike.
fn try_edit<R: Threads + Sync>(
    rt: &R,
    alloc: Global,
    tried: &mut Tried,
    standing: &mut Standing,
    number: u8,
) -> Result<bool, Fail>
    requires { StandsOn standing.old.net standing.old.store }
    ensures { OnOk result (StandsOn standing.new.net standing.new.store) }
{
    let new = Name::new(&[b'e', b'a'.saturating_add(number)])?;
    let Some(edit) = drawn_edit(&mut tried.draws, &standing.net, new) else {
        return Ok(true);
    };
    match standing.net.apply(alloc, &edit) {
        Ok(after) => {
            let follows = same_following(alloc, tried, &edit, after, standing)?;
            Ok(same_rounds(rt, alloc, standing)? && follows)
        }
        Err(EditFault::OutOfMemory) => Err(Fail::from("no memory")),
        Err(_) => Ok(true),
    }
}

/// Follows an edit, and says whether the slow program keeps as many nodes and has the same list
/// then.
fn same_following(
    alloc: Global,
    tried: &mut Tried,
    edit: &Edit,
    after: Network,
    standing: &mut Standing,
) -> Result<bool, Fail>
    requires { StandsOn standing.old.net standing.old.store }
    ensures { OnOk result (StandsOn standing.new.net standing.new.store) }
{
    let edited = Edited {
        before: &standing.net,
        edit,
        after: &after,
    };
    let earlier = standing.nodes.len() as u64;
    let mut nodes = followed(alloc, &edited, standing.nodes.as_slice())?;
    let kept = nodes.len() as u64;
    tried.count(
        edit,
        made(standing.nodes.as_slice()),
        made(nodes.as_slice()),
    );
    nodes.extend_from_slice(new_base_nodes(alloc, &edited)?.as_slice())?;
    let reported = standing.store.follow(alloc, &standing.net, edit, &after)?;
    standing.net = after;
    standing.nodes = nodes;
    Ok(
        reported.kept == kept
            && reported.withdrawn == earlier.saturating_sub(kept)
            && has_nodes(standing.store.dag(), standing.nodes.as_slice()),
    )
}

/// How many nodes are of rounds.
fn made(nodes: &[Node]) -> usize {
    let mut made = 0usize;
    for node in nodes {
        if !matches!(node.rule, Rule::Bound(_) | Rule::Link(_)) {
            made = made.saturating_add(1);
        }
    }
    made
}

/// Makes the rounds, and says whether the slow program makes the same nodes and as many rounds, and
/// ends alike.
fn same_rounds<R: Threads + Sync>(
    rt: &R,
    alloc: Global,
    standing: &mut Standing,
) -> Result<bool, Fail>
    requires { StandsOn standing.old.net standing.old.store }
    ensures { OnOk result (StandsOn standing.new.net standing.new.store) }
{
    let end = rounds(alloc, &standing.net, &mut standing.nodes)?;
    let outcome = propagate(rt, alloc, &standing.net, &mut standing.store, 2, &NoGate)?;
    Ok(is_end(&outcome, &end) && has_nodes(standing.store.dag(), standing.nodes.as_slice()))
}
