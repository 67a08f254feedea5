//! The names of what a line of a certificate states.

ghost use Rattle.std.specs.Prelude.{◌≡◌, ◌<◌, length};
ghost use Rattle.refutation_certificates.specs.Certificates.{bound_name, link_name};

use net_model::{BoundId, LinkId, Name, Network};

pub(crate) fn bound_name(net: &Network, bound: BoundId) -> Name
    requires { bound.0 < length net.now.bounds }
    ensures { result ≡ bound_name net.now bound }
{
    net.bounds()[bound.0 as usize].name
}

/// The name of a link in a certificate: that of its contingent point. It takes no memory.
pub fn link_name(net: &Network, link: LinkId) -> Name
    requires { link.0 < length net.now.links }
    ensures { result ≡ link_name net.now link }
{
    *net.point_name(net.links()[link.0 as usize].to)
}
