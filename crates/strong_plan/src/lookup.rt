//! What the names of a certificate stand for.

ghost use Rattle.std.specs.Prelude.{◌≡◌, IfSome};
ghost use Rattle.net_model.specs.Network.{IsBound};
ghost use Rattle.cert_checker.specs.Lines.{bound_of, link_named};

use crate::chain::link_into;
use net_model::{Bound, Link, Name, Network};

/// The bound of a name.
pub(crate) fn bound_of(net: &Network, name: &Name) -> Option<Bound>
    ensures bound { result ≡ bound_of net.now name.now }
    ensures sound { IfSome result (IsBound net.now) }
{
    let bound = net.bound(name.bytes())?;
    net.bounds().get(bound.0 as usize).copied()
}

/// The link that ends in the point of a name.
pub(crate) fn link_named(net: &Network, name: &Name) -> Option<Link>
    ensures { result ≡ link_named net.now name.now }
{
    let point = net.point(name.bytes())?;
    link_into(net, point)
}
