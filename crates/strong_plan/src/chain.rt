//! The chains of points, and the reduced edges of bounds, climbed link by link without memory.

ghost use Rattle.std.specs.Prelude.{◌≡◌, length, IfSome, Some, suc};
ghost use Rattle.std.specs.Option.{option_map};
ghost use Rattle.net_model.specs.Network.{IsPoint, IsBound, IsLink};
ghost use Rattle.strong_plan.specs.Chains.{reduced_weight};
ghost use Rattle.strong_plan.specs.ReducedEdges.{link_into, chain_of, links_of, root_of};
ghost use Rattle.strong_plan.specs.ReducedEdges.{reduced_edge};

use net_model::{Bound, Edge, Link, Network, PointId, Weight};

/// How many links lead up from a point to its root, and the root.
#[derive(Clone, Copy)]
pub(crate) struct RootPath {
    pub(crate) links: usize,
    pub(crate) root: PointId,
}

/// The link that ends in a point.
pub(crate) fn link_into(net: &Network, point: PointId) -> Option<Link>
    requires { IsPoint net.now point }
    ensures link { result ≡ link_into net.now point }
    ensures sound { IfSome result (IsLink net.now) }
{
    let name = net.activation(point)?;
    net.links().get(name.0 as usize).copied()
}

/// The path up from a point to its root, or `None` exactly if the point has no root.
pub(crate) fn root_path(net: &Network, point: PointId) -> Option<RootPath>
    requires { IsPoint net.now point }
    ensures { result ≡ option_map (λ chain. record {
      links = length chain;
      root = root_of point chain;
    }) (chain_of net.now point) }
{
    let mut at = point;
    for links in 0..net.points().len() + 1 {
        match link_into(net, at) {
            None => return Some(RootPath { links, root: at }),
            Some(link) => at = link.from,
        }
    }
    None
}

/// The reduced edge of a bound of the network, or `None` exactly if one of its points has no root.
pub(crate) fn reduced_edge(net: &Network, bound: &Bound) -> Option<Edge>
    requires { IsBound net.now bound.now }
    ensures { result ≡ reduced_edge net.now bound.now }
{
    let from = root_path(net, bound.from)?;
    let to = root_path(net, bound.to)?;
    let weight = reduced_weight(net, bound, from.links, to.links);
    Some(Edge {
        from: from.root,
        to: to.root,
        label: None,
        weight,
    })
}

/// The weight of the reduced edge of a bound whose points have chains of so many links. The links
/// that the chains share are left out: the longer one is climbed until both stand at one point.
fn reduced_weight(net: &Network, bound: &Bound, from_links: usize, to_links: usize) -> Weight
    requires sound { IsBound net.now bound.now }
    requires from { option_map length (chain_of net.now bound.now.from) ≡ Some from_links }
    requires to { option_map length (chain_of net.now bound.now.to) ≡ Some to_links }
    ensures { result ≡ reduced_weight bound.now.most (links_of net.now bound.now.from)
        (links_of net.now bound.now.to) }
{
    net.sound();
    let mut weight = bound.most;
    let (mut from, mut to) = (bound.from, bound.to);
    let (mut from_left, mut to_left) = (from_links, to_links);
    while from != to && from_left + to_left > 0 {
        if from_left >= to_left {
            let link = link_into(net, from).unwrap();
            weight += link.low;
            from = link.from;
            from_left -= 1;
        } else {
            let link = link_into(net, to).unwrap();
            weight -= link.high;
            to = link.from;
            to_left -= 1;
        }
    }
    weight
}
