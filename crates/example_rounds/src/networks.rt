//! Points, links and edges of networks by words.

ghost use Rattle.std.specs.Prelude.{◌<◌, length, IfSome};
ghost use Rattle.net_model.specs.Limits.{IsWeight};

pub(crate) use example_plans::{edit, network};
use net_model::{Edge, LinkId, Network, PointId};

/// The point of a name.
pub(crate) fn point(net: &Network, name: &str) -> Option<PointId>
    ensures { IfSome result (λ point. point.0 < length net.now.points) }
{
    let point = net.point(name.as_bytes())?;
    if point.0 as usize >= net.points().len() {
        return None;
    }
    Some(point)
}

/// The link that ends in the point of a name.
pub(crate) fn link(net: &Network, name: &str) -> Option<LinkId>
    ensures { IfSome result (λ link. link.0 < length net.now.links) }
{
    let link = net.activation(point(net, name)?)?;
    if link.0 as usize >= net.links().len() {
        return None;
    }
    Some(link)
}

/// A small weight.
fn weight(word: &str) -> Option<i64>
    ensures { IfSome result IsWeight }
{
    let weight: i64 = word.parse().ok()?;
    if weight.unsigned_abs() > 1000 {
        return None;
    }
    Some(weight)
}

/// The edge of four words: from, to, the contingent point of its label or `-`, weight.
pub(crate) fn edge(net: &Network, text: &str) -> Option<Edge>
    ensures { IfSome result (λ edge. IsWeight edge.weight) }
{
    let mut words = text.split_whitespace();
    let from = point(net, words.next()?)?;
    let to = point(net, words.next()?)?;
    let label = match words.next()? {
        "-" => None,
        name => Some(link(net, name)?),
    };
    let weight = weight(words.next()?)?;
    Some(Edge {
        from,
        to,
        label,
        weight,
    })
}
