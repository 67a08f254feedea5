//! The ancestors of given nodes: all on which they rest.

ghost use Rattle.std.specs.Prelude.{◌≡◌, ◌<◌, length, IfOk, List, false, replicate};
ghost use Rattle.std.specs.List.{All};
ghost use Rattle.closure_model.specs.Derivations.{PremisesStandEarlier, IsUnder, AreAncestors};
ghost use Rattle.closure_model.specs.declared.derivation.NodeId.{NodeId};
ghost use Rattle.derivation_dag.specs.Marks.{IsMarked, marked_with, AreMarked};

use crate::premises::mark_premises;
use closure_model::{Node, NodeId};
use std::alloc::{AllocError, Global};

/// Marks the given nodes and all that stands under them; none is marked before.
pub(crate) fn mark_ancestors(nodes: &[Node], ids: &[NodeId], marks: &mut [bool])
    requires earlier { PremisesStandEarlier nodes.now }
    requires none { marks.old ≡ replicate (length nodes.now) false }
    requires within { All (λ id. id.0 < length nodes.now) ids.now }
    ensures { (found : List NodeId) → AreMarked marks.new found
        → AreAncestors nodes.now ids.now found }
{
    mark_all(marks, ids);
    mark_under(nodes, marks);
}

/// Marks the given nodes.
fn mark_all(marks: &mut [bool], ids: &[NodeId])
    requires { All (λ id. id.0 < length marks.old) ids.now }
    ensures { marks.new ≡ marked_with marks.old ids.now }
{
    for id in ids {
        marks[id.0 as usize] = true;
    }
}

/// Marks what stands under the marked nodes. From the last node to the first, since premises stand
/// earlier.
fn mark_under(nodes: &[Node], marks: &mut [bool])
    requires earlier { PremisesStandEarlier nodes.now }
    requires size { length marks.old ≡ length nodes.now }
    ensures under { (id : NodeId) → IsMarked marks.new id → (top : NodeId) × IsMarked marks.old top
        × IsUnder nodes.now id top }
    ensures whole { (id top : NodeId) → IsMarked marks.old top → IsUnder nodes.now id top
        → IsMarked marks.new id }
{
    let mut place = nodes.len();
    while place > 0 {
        place -= 1;
        if marks[place] {
            mark_premises(marks, &nodes[place].rule);
        }
    }
}

/// The numbers of the marked nodes, in order.
pub(crate) fn marked(alloc: Global, marks: &[bool]) -> Result<Vec<NodeId>, AllocError>
    ensures { IfOk result (λ found. AreMarked marks.now found.items) }
{
    let mut found = Vec::new(alloc);
    for (place, mark) in marks.iter().enumerate() {
        if *mark {
            found.push(NodeId(place as u64))?;
        }
    }
    Ok(found)
}
