//! The edges that bounds and links give.

ghost use Rattle.std.specs.Prelude.{◌≡◌, ◌-ℤ◌, pos};
ghost use Rattle.net_model.specs.Limits.{IsWeight};
ghost use Rattle.net_model.specs.Rules.{bound_edge, link_edge};

use crate::ids::LinkId;
use crate::part::{Bound, Edge, Link};

/// The edge of a bound: from its `from` to its `to`, without a label, of its number. It takes no
/// memory.
pub fn bound_edge(bound: &Bound) -> Edge
    ensures { result ≡ bound_edge bound.now }
{
    Edge {
        from: bound.from,
        to: bound.to,
        label: None,
        weight: bound.most,
    }
}

/// The upper-case edge of a link, which has this number: from its contingent point to its
/// activation point, labelled by the link, of minus its longest duration. It takes no memory.
pub fn link_edge(name: LinkId, link: &Link) -> Edge
    requires { IsWeight (pos 0 -ℤ link.now.high) }
    ensures { result ≡ link_edge name link.now }
{
    Edge {
        from: link.to,
        to: link.from,
        label: Some(name),
        weight: -link.high,
    }
}
