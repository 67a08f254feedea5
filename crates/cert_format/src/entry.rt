//! An entry of a table proof.

ghost use Rattle.std.specs.Prelude.{◌≡◌, is_none, is_some};

use net_model::{Name, Weight};

/// An entry of a table proof: an edge of a weight, in whole moments. An ordinary edge says `to -
/// from <= weight`. One with a label says so of the activation point of the link that ends in
/// `label`, if that link takes its longest duration. Exactly one of `to` and `label` is there.
#[derive(Clone, Copy, Debug, PartialEq, Eq)]
pub struct Entry {
    pub from: Name,
    pub to: Option<Name>,
    pub label: Option<Name>,
    pub weight: Weight,
    pub ghost one_end: { is_none to ≡ is_some label },
}
