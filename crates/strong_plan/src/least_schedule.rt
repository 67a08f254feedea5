//! The least strong schedule of a network, or a certificate that it has none.

ghost use Rattle.std.specs.Prelude.{◌≡◌, map, filter, length, is_none, IfOk};
ghost use Rattle.net_model.specs.Network.{activation};
ghost use Rattle.strategy_model.specs.Situations.{moment_in};
ghost use Rattle.strong_plan.specs.Strong.{executed_in};
ghost use Rattle.strong_plan.specs.Laws.{HasRoots};
ghost use Rattle.strong_plan.specs.Numbers.{HasShownNumbers};
ghost use Rattle.strong_plan.specs.Answers.{down_edge, AreReduced, HasNoRing, IsStrongAnswer};
ghost use Rattle.strong_plan.specs.declared.answer.Strong.{Strong};

use crate::answer::Strong;
use crate::certificates::{bound_certificate, ring_certificate};
use crate::chain::reduced_edge;
use crate::laws::law_strong_answer_is_one;
use earliest_times::{MomentsOrLoop, least_moments};
use net_model::{Edge, Items, Link, Network, PointId};
use std::alloc::{AllocError, Global};

/// The least strong schedule of a network as it is stated, whatever its delay, exactly if it has
/// one; else a certificate that `judge_strong` accepts: a ring if the links have one, else a loop.
/// No point comes twice in it, and it begins at its lowest point. Of several such it is the first
/// (`IsFirstLoop` of earliest_times): so a network has one answer. The numbers of the network are
/// at most 1,001,000,000 in size, as those of every plan and of its shown form are. `AllocError`
/// comes only for want of memory.
pub fn strong(alloc: Global, net: &Network) -> Result<Strong, AllocError>
    requires { HasShownNumbers net.now }
    ensures answers { IfOk result (IsStrongAnswer net.now) }
    ensures one { IfOk result (λ answer. (other : Strong) → IsStrongAnswer net.now other
        → answer ≡ other) }
{
    law_strong_answer_is_one();
    let points = net.points().len();
    let edges = down_edges(alloc, net.links())?;
    match least_moments(alloc, points, edges.as_slice())? {
        MomentsOrLoop::Moments(_) => by_bounds(alloc, net),
        MomentsOrLoop::Loop(places) => {
            let cert = ring_certificate(alloc, net, edges.as_slice(), places.as_slice())?;
            Ok(Strong::Refuted(cert))
        }
    }
}

/// The least strong schedule of a network whose links have no ring, or the certificate of a loop of
/// its reduced edges.
fn by_bounds(alloc: Global, net: &Network) -> Result<Strong, AllocError>
    requires roots { HasRoots net.now }
    requires no_ring { HasNoRing net.now }
    requires numbers { HasShownNumbers net.now }
    ensures { IfOk result (IsStrongAnswer net.now) }
{
    let edges = reduced_edges(alloc, net)?;
    match least_moments(alloc, net.points().len(), edges.as_slice())? {
        MomentsOrLoop::Moments(moments) => {
            let times = executed(alloc, net, moments.as_slice())?;
            Ok(Strong::Times(Items::new(times)))
        }
        MomentsOrLoop::Loop(places) => {
            let cert = bound_certificate(alloc, net, edges.as_slice(), places.as_slice())?;
            Ok(Strong::Refuted(cert))
        }
    }
}

/// The edge of each link by which its activation point stands higher than its contingent point.
fn down_edges(alloc: Global, links: &[Link]) -> Result<Vec<Edge>, AllocError>
    ensures { IfOk result (λ edges. edges.items ≡ map down_edge links.now) }
{
    let mut edges = Vec::new(alloc);
    for link in links {
        edges.push(Edge {
            from: link.from,
            to: link.to,
            label: None,
            weight: -1,
        })?;
    }
    Ok(edges)
}

/// The reduced edge of each bound.
fn reduced_edges(alloc: Global, net: &Network) -> Result<Vec<Edge>, AllocError>
    requires { HasRoots net.now }
    ensures { IfOk result (λ edges. AreReduced net.now edges.items) }
{
    let mut edges = Vec::new(alloc);
    for bound in net.bounds() {
        let edge = reduced_edge(net, bound).unwrap();
        edges.push(edge)?;
    }
    Ok(edges)
}

/// The moments of the executable points, in order.
fn executed(alloc: Global, net: &Network, moments: &[u64]) -> Result<Vec<u64>, AllocError>
    requires { length moments.now ≡ length net.now.points }
    ensures { IfOk result (λ times. times.items ≡ executed_in net.now moments.now) }
{
    let mut times = Vec::new(alloc);
    for k in 0..net.points().len() {
        if !net.is_contingent(PointId(k as u32)) {
            times.push(moments[k])?;
        }
    }
    Ok(times)
}
