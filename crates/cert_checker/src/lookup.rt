//! What the names and the numbers in the lines of a certificate stand for.

ghost use Rattle.std.specs.Prelude.{◌≡◌, option_copied, IfSome};
ghost use Rattle.net_model.specs.Network.{IsLink};
ghost use Rattle.cert_checker.specs.Lines.{link_named, bound_of, label_of, item_known, label_known};
ghost use Rattle.cert_checker.specs.Lines.{names_known, line_at};

use crate::shown::ShownNetwork;
use cert_format::{CertLine, LineKind};
use net_model::{Bound, Link, Name};

/// The link that ends in the point of a name.
pub(crate) fn link_named(net: &ShownNetwork, name: &Name) -> Option<Link>
    ensures link { result ≡ link_named net.now name.now }
    ensures sound { IfSome result (IsLink net.now) }
{
    let point = net.point(name.bytes())?;
    let link = net.activation(point)?;
    net.link_at(link)
}

/// The bound of a name.
pub(crate) fn bound_of(net: &ShownNetwork, name: &Name) -> Option<Bound>
    ensures { result ≡ bound_of net.now name.now }
{
    let bound = net.bound(name.bytes())?;
    net.bound_at(bound)
}

/// The label of the edge that a line states.
pub(crate) fn label_of(line: &CertLine) -> Option<Name>
    ensures { result ≡ label_of line.now }
{
    match line.kind {
        LineKind::Link(name) => Some(name),
        LineKind::Up(..) | LineKind::Cross(..) => line.label,
        LineKind::Bound(_) | LineKind::No(..) | LineKind::Low(..) | LineKind::Drop(_) => None,
    }
}

/// The line of a number from 1.
pub(crate) fn line_at(lines: &[CertLine], number: u64) -> Option<&CertLine>
    ensures { option_copied result ≡ line_at lines.now number }
{
    lines.get(number.checked_sub(1)? as usize)
}

/// Whether each name of a line is in the network.
#[tactic(auto, unfolding(crate::specs::Lines::names_known))]
pub(crate) fn names_known(net: &ShownNetwork, line: &CertLine) -> bool
    ensures { result ≡ names_known net.now line.now }
{
    net.point(line.from.bytes()).is_some()
        && net.point(line.to.bytes()).is_some()
        && is_item_known(net, &line.kind)
        && is_label_known(net, &line.label)
}

fn is_item_known(net: &ShownNetwork, kind: &LineKind) -> bool
    ensures { result ≡ item_known net.now kind.now }
{
    match kind {
        LineKind::Bound(name) => net.bound(name.bytes()).is_some(),
        LineKind::Link(name) | LineKind::Low(name, _) | LineKind::Cross(name, _) => {
            link_named(net, name).is_some()
        }
        LineKind::No(..) | LineKind::Up(..) | LineKind::Drop(_) => true,
    }
}

fn is_label_known(net: &ShownNetwork, label: &Option<Name>) -> bool
    ensures { result ≡ label_known net.now label.now }
{
    match label {
        Some(name) => link_named(net, name).is_some(),
        None => true,
    }
}
