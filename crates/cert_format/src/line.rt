//! A rule line of a refutation.

ghost use Rattle.std.specs.Prelude.{◌≡◌, is_some};
ghost use Rattle.cert_format.specs.Kind.{has_label};

use crate::kind::LineKind;
use net_model::{Name, Weight};

/// A line of a refutation: an edge `to - from <= weight`, in whole moments, and by what it is
/// derived. `label` is the contingent point of the link that labels the edge, and is in the line
/// exactly if the rule is the upper-case or the cross-case rule.
#[derive(Clone, Copy, Debug, PartialEq, Eq)]
pub struct CertLine {
    pub kind: LineKind,
    pub from: Name,
    pub to: Name,
    pub label: Option<Name>,
    pub weight: Weight,
    pub ghost labelled: { is_some label ≡ has_label kind },
}
