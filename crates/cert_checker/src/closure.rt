//! Whether an entry gives, with the others, an edge that does not stand among them.

ghost use Rattle.std.specs.Prelude.{◌≡◌, ◌≤◌, ◌<ℤ◌, ◌||◌, ◌&&◌, not, pos, unsigned_abs};
ghost use Rattle.net_model.specs.Limits.{most_weight};
ghost use Rattle.net_model.specs.Network.{IsLink};
ghost use Rattle.net_model.specs.Rules.{is_labelled_by, moved_to_activation, removal};
ghost use Rattle.cert_checker.specs.OpenEntries.{is_open_after, is_open_before, is_unsaturated};
ghost use Rattle.cert_checker.specs.Sound.{IsShort, IsSoundEdge};
ghost use Rattle.cert_checker.specs.Tables.{has_open_conclusion, stands_among};

use crate::shown::ShownNetwork;
use crate::table::ProofTable;
use net_model::{Edge, Link, LinkId};

/// Whether by some rule, with this edge as the second premise, as the edge after the lower-case
/// edge, or as the premise of removal, the entries give an edge that does not stand among them. Of
/// the first premises of a key only the least matters.
pub(crate) fn opens(table: &ProofTable, second: &Edge) -> bool
    requires { IsSoundEdge table.now.net second.now }
    ensures { result ≡ has_open_conclusion table.now.net table.now.edges second.now }
{
    opens_without_label(table, second) || (second.weight < 0 && opens_negative(table, second))
}

/// The same of a negative edge, without removal.
fn opens_negative(table: &ProofTable, second: &Edge) -> bool
    requires sound { IsSoundEdge table.now.net second.now }
    requires negative { second.now.weight <ℤ pos 0 }
    ensures { result ≡ (is_open_before table.now.edges second.now || is_open_after table.now.net
        table.now.edges second.now) }
{
    table.opens_before(second) || opens_after(table, second)
}

/// By removal.
fn opens_without_label(table: &ProofTable, edge: &Edge) -> bool
    requires { IsSoundEdge table.now.net edge.now }
    ensures { result ≡ is_unsaturated table.now.edges (removal table.now.net edge.now) }
{
    match without_label(table.net(), edge) {
        Some(given) => table.lacks(&given),
        None => false,
    }
}

/// The edge that removal gives.
#[tactic(auto, unfolding(net_model::specs::Rules::removal))]
fn without_label(net: &ShownNetwork, edge: &Edge) -> Option<Edge>
    ensures { result ≡ removal net.now edge.now }
{
    let link = net.link_at(edge.label?)?;
    Some(Edge {
        from: edge.from,
        to: edge.to,
        label: None,
        weight: edge.weight.max(-link.low),
    })
}

/// By the lower-case or the cross-case rule, with the link that ends where the edge begins.
fn opens_after(table: &ProofTable, second: &Edge) -> bool
    requires sound { IsSoundEdge table.now.net second.now }
    requires negative { second.now.weight <ℤ pos 0 }
    ensures { result ≡ is_open_after table.now.net table.now.edges second.now }
{
    let net = table.net();
    let Some(name) = net.activation(second.from) else {
        return false;
    };
    match net.link_at(name) {
        Some(link) => opens_at_link(table, second, name, &link),
        None => false,
    }
}

/// The same with the link of a number.
fn opens_at_link(table: &ProofTable, second: &Edge, name: LinkId, link: &Link) -> bool
    requires sound { IsSoundEdge table.now.net second.now }
    requires link { IsLink table.now.net link.now }
    ensures { result ≡ (not (is_labelled_by name second.now) && not
        (stands_among table.now.edges (moved_to_activation link.now second.now))) }
{
    second.label != Some(name) && table.lacks(&moved(link, second))
}

/// The edge from the link's activation point that follows from one that begins in its contingent
/// point.
fn moved(link: &Link, second: &Edge) -> Edge
    requires short { IsShort link.now }
    requires weight { unsigned_abs second.now.weight ≤ most_weight }
    ensures { result ≡ moved_to_activation link.now second.now }
{
    Edge {
        from: link.from,
        to: second.to,
        label: second.label,
        weight: link.low + second.weight,
    }
}
