//! Which nodes of a list rest on a bound or a link.

ghost use Rattle.std.specs.Prelude.{◌≡◌, ◌↔◌, ◌⊎◌, ◌<◌, ◌≤◌, length, IfOk, Some, true, IsTrue};
ghost use Rattle.std.specs.List.{All};
ghost use Rattle.closure_model.specs.Derivations.{PremisesStandEarlier, RestsOn, premises_of};
ghost use Rattle.closure_model.specs.Derivations.{item_of};
ghost use Rattle.closure_model.specs.declared.derivation.NodeId.{NodeId};
ghost use Rattle.derivation_dag.specs.Marks.{IsMarked, marks_premise};

use crate::premises::{marks_premise, uses};
use closure_model::{Item, Node, Rule};
use std::alloc::{AllocError, Global};

/// A mark for each of the first nodes: whether it rests on the item.
pub(crate) fn resting_marks(
    alloc: Global,
    nodes: &[Node],
    count: usize,
    item: Item,
) -> Result<Vec<bool>, AllocError>
    requires earlier { PremisesStandEarlier nodes.now }
    requires within { count ≤ length nodes.now }
    ensures size { IfOk result (λ rests. length rests.items ≡ count) }
    ensures rests { IfOk result (λ rests. (id : NodeId) → id.0 < count
        → IsMarked rests.items id ↔ RestsOn nodes.now id item) }
{
    let mut rests = Vec::new(alloc);
    for place in 0..count {
        rests.push(rests_by(rests.as_slice(), &nodes[place].rule, item))?;
    }
    Ok(rests)
}

/// Whether what a rule makes rests on the item: the rule uses it, or one of its premises rests on
/// it.
fn rests_by(rests: &[bool], rule: &Rule, item: Item) -> bool
    requires { All (λ premise. premise.0 < length rests.now) (premises_of rule.now) }
    ensures { IsTrue result ↔ ((item_of rule.now ≡ Some item)
        ⊎ (marks_premise rests.now rule.now ≡ true)) }
{
    uses(rule, item) || marks_premise(rests, rule)
}
