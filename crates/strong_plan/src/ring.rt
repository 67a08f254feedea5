//! The points of a ring in a strong certificate: whether each is contingent, and activated by the
//! one before.

ghost use Rattle.std.specs.Prelude.{◌≡◌};
ghost use Rattle.strong_plan.specs.Judgement.{points_pass, begins_in, follows, last_name};

use crate::judgement::RefusedStrongLine;
use crate::lookup::link_named;
use cert_checker::CertFault;
use net_model::{Name, Network};

/// Each name is that of a contingent point.
pub(crate) fn points_pass(net: &Network, names: &[Name]) -> Result<(), RefusedStrongLine>
    ensures { result ≡ points_pass net.now 1 names.now }
{
    for (index, name) in names.iter().enumerate() {
        if link_named(net, name).is_none() {
            return Err(RefusedStrongLine::at(1 + index as u64, CertFault::UnknownItem));
        }
    }
    Ok(())
}

/// Whether the link that ends in a point begins in the point of another name.
fn begins_in(net: &Network, before: &Name, name: &Name) -> bool
    ensures { result ≡ begins_in net.now before.now name.now }
{
    match link_named(net, name) {
        Some(link) => net.point(before.bytes()) == Some(link.from),
        None => false,
    }
}

/// The link of each point begins in the one before, that of the first in a given one.
pub(crate) fn follows(net: &Network, last: &Name, names: &[Name]) -> Result<(), RefusedStrongLine>
    ensures { result ≡ follows net.now 1 last.now names.now }
{
    let mut before = last;
    for (index, name) in names.iter().enumerate() {
        if !begins_in(net, before, name) {
            return Err(RefusedStrongLine::at(1 + index as u64, CertFault::WalkBroken));
        }
        before = name;
    }
    Ok(())
}

/// The last of some names.
pub(crate) fn last_name(first: &Name, rest: &[Name]) -> Name
    ensures { result ≡ last_name first.now rest.now }
{
    let mut last = *first;
    for name in rest {
        last = *name;
    }
    last
}
