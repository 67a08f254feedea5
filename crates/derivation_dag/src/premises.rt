//! What a rule reads: its premises, and the bound or the link that it uses.

ghost use Rattle.std.specs.Prelude.{◌≡◌, ◌↔◌, ◌⊎◌, ◌<◌, ◌∷◌, length, Some, true, IsTrue};
ghost use Rattle.std.specs.List.{All};
ghost use Rattle.closure_model.specs.Derivations.{premises_of, item_of};
ghost use Rattle.derivation_dag.specs.Marks.{marks_premise, marked_with};

use closure_model::{Item, Rule};

/// The bound or the link that a rule uses, if it uses one.
fn item_of(rule: &Rule) -> Option<Item>
    ensures { result ≡ item_of rule.now }
{
    match rule {
        Rule::Bound(bound) => Some(Item::Bound(*bound)),
        Rule::Link(link) | Rule::Low(link, _) | Rule::Cross(link, _) => Some(Item::Link(*link)),
        Rule::No(..) | Rule::Up(..) | Rule::Drop(_) => None,
    }
}

/// Whether a rule uses a bound or a link.
pub(crate) fn uses(rule: &Rule, item: Item) -> bool
    ensures { IsTrue result ↔ (item_of rule.now ≡ Some item) }
{
    item_of(rule) == Some(item)
}

/// Whether a premise of a rule is marked.
pub(crate) fn marks_premise(marks: &[bool], rule: &Rule) -> bool
    requires { All (λ premise. premise.0 < length marks.now) (premises_of rule.now) }
    ensures { result ≡ marks_premise marks.now rule.now }
{
    match rule {
        Rule::Bound(_) | Rule::Link(_) => false,
        Rule::No(first, second) | Rule::Up(first, second) => {
            marks[first.0 as usize] || marks[second.0 as usize]
        }
        Rule::Low(_, premise) | Rule::Cross(_, premise) | Rule::Drop(premise) => {
            marks[premise.0 as usize]
        }
    }
}

/// Marks the premises of a rule.
pub(crate) fn mark_premises(marks: &mut [bool], rule: &Rule)
    requires { All (λ premise. premise.0 < length marks.old) (premises_of rule.now) }
    ensures { marks.new ≡ marked_with marks.old (premises_of rule.now) }
{
    match rule {
        Rule::Bound(_) | Rule::Link(_) => {}
        Rule::No(first, second) | Rule::Up(first, second) => {
            marks[first.0 as usize] = true;
            marks[second.0 as usize] = true;
        }
        Rule::Low(_, premise) | Rule::Cross(_, premise) | Rule::Drop(premise) => {
            marks[premise.0 as usize] = true;
        }
    }
}
