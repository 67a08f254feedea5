//! Whether some nodes of a list are those on which given ones rest, and these.

ghost use Rattle.std.specs.Prelude.{◌≡◌, ◌<◌, ◌∷◌, [], true, length, List, Some, IfOk, IfSome};
ghost use Rattle.std.specs.Prelude.{slice_get};
ghost use Rattle.std.specs.List.{AllPairs};
ghost use Rattle.closure_model.specs.Derivations.{premises_of};
ghost use Rattle.closure_model.specs.declared.derivation.Node.{Node as OneNode};
ghost use Rattle.closure_model.specs.declared.derivation.NodeId.{NodeId as Number};
ghost use Rattle.derivation_dag.specs.Pruned.{AreNumbered, AreAncestorsIn, AreMarkedBesides};
ghost use Rattle.derivation_dag.specs.Pruned.{AreMarkedUnder, AreUnderFrom, HavePremisesFrom};
ghost use Rattle.derivation_dag.specs.Pruned.{IsPlaceOf};

use crate::pruned_dag::Numbered;
use closure_model::{NodeId, Rule};
use std::alloc::{AllocError, Global};

/// Whether some nodes of a list are the given ones and all on which they rest, in order of making.
/// `AllocError` comes only for want of memory.
pub(crate) fn are_ancestors(
    alloc: Global,
    found: &[Numbered],
    ids: &[NodeId],
) -> Result<bool, AllocError>
    ensures { IfOk result (λ are. are ≡ true → (whole : List OneNode)
        → AreNumbered whole found.now → AreAncestorsIn whole ids.now found.now) }
{
    if !rise(found) {
        return Ok(false);
    }
    let mut marks = vec![in alloc; false; found.len()]?;
    if !mark_all(found, marks.as_mut_slice(), ids) {
        return Ok(false);
    }
    Ok(are_marked(found, marks.as_mut_slice()))
}

/// Whether the numbers of nodes rise.
fn rise(found: &[Numbered]) -> bool
    ensures { result ≡ true → AllPairs (λ one other. one.id.0 < other.id.0) found.now }
{
    for place in 1..found.len() {
        if !is_before(&found[place - 1], &found[place]) {
            return false;
        }
    }
    true
}

fn is_before(one: &Numbered, other: &Numbered) -> bool
    ensures { result ≡ true → one.now.id.0 < other.now.id.0 }
{
    one.id.0 < other.id.0
}

/// Marks the given nodes, if all are among some nodes.
fn mark_all(found: &[Numbered], marks: &mut [bool], ids: &[NodeId]) -> bool
    requires { length marks.old ≡ length found.now }
    ensures { result ≡ true → AreMarkedBesides found.now marks.old marks.new ids.now }
{
    for id in ids {
        if !mark(found, marks, *id) {
            return false;
        }
    }
    true
}

/// Whether each node is marked once the premises of those after it are, and these are among the
/// nodes.
fn are_marked(found: &[Numbered], marks: &mut [bool]) -> bool
    requires { length marks.old ≡ length found.now }
    ensures premises { result ≡ true → HavePremisesFrom found.now 0 }
    ensures under { result ≡ true → (whole : List OneNode) (ids : List Number)
        → AreNumbered whole found.now → AreMarkedUnder whole ids found.now marks.old
        → AreUnderFrom whole ids found.now 0 }
{
    let mut place = found.len();
    while place > 0 {
        place -= 1;
        if !marks[place] || !mark_premises(found, marks, &found[place].node.rule) {
            return false;
        }
    }
    true
}

/// Marks the premises of a rule, if they are among some nodes.
fn mark_premises(found: &[Numbered], marks: &mut [bool], rule: &Rule) -> bool
    requires { length marks.old ≡ length found.now }
    ensures size { length marks.new ≡ length marks.old }
    ensures marked { result ≡ true → AreMarkedBesides found.now marks.old marks.new
        (premises_of rule.now) }
{
    match rule {
        Rule::Bound(_) | Rule::Link(_) => true,
        Rule::No(first, second) | Rule::Up(first, second) => {
            mark(found, marks, *first) && mark(found, marks, *second)
        }
        Rule::Low(_, premise) | Rule::Cross(_, premise) | Rule::Drop(premise) => {
            mark(found, marks, *premise)
        }
    }
}

/// Marks the node of a number, if it is among some nodes.
fn mark(found: &[Numbered], marks: &mut [bool], id: NodeId) -> bool
    requires { length marks.old ≡ length found.now }
    ensures size { length marks.new ≡ length marks.old }
    ensures marked { result ≡ true → AreMarkedBesides found.now marks.old marks.new (id ∷ []) }
{
    match place_of(found, id) {
        Some(place) => {
            marks[place] = true;
            true
        }
        None => false,
    }
}

/// The place of the node of a number, if it is found by a binary search. It is, if it is there and
/// the numbers rise, which is no clause.
fn place_of(found: &[Numbered], id: NodeId) -> Option<usize>
    ensures { IfSome result (IsPlaceOf found.now id) }
{
    let place = found.partition_point(|numbered| numbered.id.0 < id.0);
    if place < found.len() && found[place].id == id {
        Some(place)
    } else {
        None
    }
}
