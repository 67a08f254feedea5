//! The row of a target against the table of nodes: as long as a key that is not settled has a
//! weight, the one of least weight is settled, at equal weights the first in the order of keys, and
//! the row is relaxed with its consequences.

ghost use Rattle.std.specs.Prelude.{◌≡◌, ◌++◌, ◌<◌, fold, length, map, IfOk, IfSome, OnOk, true};
ghost use Rattle.net_model.specs.Network.{Plan, IsPoint};
ghost use Rattle.closure_model.specs.Keys.{keys_between, labels_at};
ghost use Rattle.closure_model.specs.ReferenceRow.{first_slot, first_slots, next_slot, open_weight};
ghost use Rattle.closure_model.specs.ReferenceRow.{reference_row, improved, edge_in, relaxed};
ghost use Rattle.closure_model.specs.ReferenceRow.{taken, has_above, is_slot_of};
ghost use Rattle.example_references.specs.NodeTables.{table_in};
ghost use Rattle.example_references.specs.RowParts.{relaxed_to};

use crate::consequence_lists::consequences;
use crate::nodes::{at_place, lesser, points, same_label, weight_in};
use closure_model::Node;
use closure_model::rows::{Made, Slot};
use net_model::{Edge, LinkId, Network, PointId, Weight};
use std::alloc::Global;
use std::test::Fail;

/// The edges of the keys that improve in the row of a target, in the order of settling.
pub(crate) fn row(
    alloc: Global,
    net: &Network,
    nodes: &[Node],
    target: PointId,
) -> Result<Vec<Made>, Fail>
    requires { IsPoint net.now target }
    ensures { IfOk result (λ made. made.items ≡ reference_row net.now
        (table_in net.now nodes.now) target) }
{
    let mut slots = first_slots(alloc, net, nodes, target)?;
    settle_all(alloc, net, nodes, target, slots.as_mut_slice())
}

/// Settles the slots of a row, and gives the edges of those that improved.
fn settle_all(
    alloc: Global,
    net: &Network,
    nodes: &[Node],
    target: PointId,
    slots: &mut [Slot],
) -> Result<Vec<Made>, Fail>
    requires { slots.old ≡ first_slots (table_in net.now nodes.now) target }
    ensures { IfOk result (λ made. made.items ≡ reference_row net.now
        (table_in net.now nodes.now) target) }
{
    let mut made = Vec::new(alloc);
    while let Some(next) = next_slot(slots) {
        let slot = slots[next.0];
        push_improved(&mut made, target, &slot, next)?;
        slots[next.0] = settled(&slot);
        let edge = edge_in(target, &slot, next);
        let follow = consequences(alloc, net, nodes, &edge)?;
        relax_all(slots, follow.as_slice());
    }
    Ok(made)
}

/// The slots of a row as the table has it, in the order of keys.
fn first_slots(
    alloc: Global,
    net: &Network,
    nodes: &[Node],
    target: PointId,
) -> Result<Vec<Slot>, Fail>
    requires { IsPoint net.now target }
    ensures { IfOk result (λ slots. slots.items ≡ first_slots (table_in net.now nodes.now) target) }
{
    let labels = net.links_from(alloc, target)?;
    let count = points(net);
    let mut slots = Vec::new(alloc);
    for from in 0..count {
        push_slots(nodes, PointId(from), target, labels.as_slice(), &mut slots)?;
    }
    Ok(slots)
}

/// Pushes the slots of one source, the ordinary one before the labelled ones.
fn push_slots(
    nodes: &[Node],
    from: PointId,
    target: PointId,
    labels: &[LinkId],
    slots: &mut Vec<Slot>,
) -> Result<(), Fail>
    ensures { OnOk result ((net : Plan)
        → labels.now ≡ labels_at (table_in net nodes.now).shape target
        → slots.new.items ≡ slots.old.items ++ map (first_slot (table_in net nodes.now))
        (keys_between (table_in net nodes.now).shape target from)) }
{
    slots.push(slot(nodes, from, target, None))?;
    for label in labels {
        slots.push(slot(nodes, from, target, Some(*label)))?;
    }
    Ok(())
}

/// A slot as the table has it.
fn slot(nodes: &[Node], from: PointId, to: PointId, label: Option<LinkId>) -> Slot
    ensures { (net : Plan) → result ≡ first_slot (table_in net nodes.now)
        (record { to = to; from = from; label = label }) }
{
    let edge = Edge {
        from,
        to,
        label,
        weight: 0,
    };
    Slot {
        from,
        label,
        weight: weight_in(nodes, &edge),
        why: None,
        settled: false,
    }
}

/// The place and the weight of the slot that is settled next.
fn next_slot(slots: &[Slot]) -> Option<(usize, Weight)>
    ensures next { result ≡ next_slot slots.now }
    ensures inside { IfSome result (λ next. next.0 < length slots.now) }
{
    let mut next = None;
    for (place, slot) in slots.iter().enumerate() {
        next = lesser(next, at_place(place, open_weight(slot)));
    }
    next
}

fn open_weight(slot: &Slot) -> Option<Weight>
    ensures { result ≡ open_weight slot.now }
{
    if slot.settled { None } else { slot.weight }
}

fn settled(slot: &Slot) -> Slot
    ensures { result ≡ record slot.now { settled = true } }
{
    Slot {
        settled: true,
        ..*slot
    }
}

/// The edge of a slot that is settled next.
fn edge_in(target: PointId, slot: &Slot, next: (usize, Weight)) -> Edge
    ensures { result ≡ edge_in target slot.now next.1 }
{
    Edge {
        from: slot.from,
        to: target,
        label: slot.label,
        weight: next.1,
    }
}

/// Pushes the edge of a slot that improved.
fn push_improved(
    made: &mut Vec<Made>,
    target: PointId,
    slot: &Slot,
    next: (usize, Weight),
) -> Result<(), Fail>
    ensures { OnOk result (made.new.items ≡ made.old.items ++ improved target slot.now next.1) }
{
    if let Some(why) = slot.why {
        let edge = edge_in(target, slot, next);
        made.push(Made { edge, why })?;
    }
    Ok(())
}

/// Relaxes a row with edges, one after another.
fn relax_all(slots: &mut [Slot], made: &[Made])
    ensures { slots.new ≡ fold relaxed slots.old made.now }
{
    for one in made {
        relax(slots, one);
    }
}

/// Relaxes the slot of its key with an edge.
fn relax(slots: &mut [Slot], made: &Made)
    ensures { slots.new ≡ relaxed slots.old made.now }
{
    for slot in slots.iter_mut() {
        relax_to(slot, made);
    }
}

fn relax_to(slot: &mut Slot, made: &Made)
    ensures { slot.new ≡ relaxed_to made.now slot.old }
{
    if is_slot_of(&made.edge, slot) {
        take(slot, made);
    }
}

/// A slot is improved by what follows exactly if it has no weight or a greater one.
fn take(slot: &mut Slot, made: &Made)
    ensures { slot.new ≡ taken made.now slot.old }
{
    if has_above(slot, made.edge.weight) {
        slot.weight = Some(made.edge.weight);
        slot.why = Some(made.why);
    }
}

fn is_slot_of(edge: &Edge, slot: &Slot) -> bool
    ensures { result ≡ is_slot_of edge.now slot.now }
{
    edge.from == slot.from && same_label(edge.label, slot.label)
}

fn has_above(slot: &Slot, weight: Weight) -> bool
    ensures { result ≡ has_above slot.now weight }
{
    match slot.weight {
        Some(old) => weight < old,
        None => true,
    }
}
