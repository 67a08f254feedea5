//! The certificates that a network has no strong schedule, made from a loop of edges.

ghost use Rattle.std.specs.Prelude.{◌≡◌, ◌<◌, length, map, IfOk};
ghost use Rattle.std.specs.List.{All};
ghost use Rattle.net_model.specs.Network.{IsPoint};
ghost use Rattle.earliest_times.specs.History.{AreWithin};
ghost use Rattle.earliest_times.specs.FirstLoops.{IsFirstLoop};
ghost use Rattle.strong_plan.specs.Numbers.{HasShownNumbers};
ghost use Rattle.strong_plan.specs.Answers.{down_edge, reduced_line, lines_at, names_at};
ghost use Rattle.strong_plan.specs.Answers.{AreReduced, HasNoRing, IsStrongRefutation};

use cert_format::{StrongCert, StrongLine};
use net_model::{Edge, Items, Name, Network};
use std::alloc::{AllocError, Global};

/// The certificate of a ring of links, by the first loop of their edges.
pub(crate) fn ring_certificate(
    alloc: Global,
    net: &Network,
    edges: &[Edge],
    places: &[usize],
) -> Result<StrongCert, AllocError>
    requires edges { edges.now ≡ map down_edge net.now.links }
    requires round { IsFirstLoop (length net.now.points) edges.now places.now }
    ensures { IfOk result (IsStrongRefutation net.now) }
{
    net.sound();
    let ring = names(alloc, net, edges, places)?;
    Ok(StrongCert {
        by: Items::new(Vec::new(alloc)),
        ring: Items::new(ring),
    })
}

/// The certificate of the first loop of the reduced edges of bounds, if the links have no ring.
pub(crate) fn bound_certificate(
    alloc: Global,
    net: &Network,
    edges: &[Edge],
    places: &[usize],
) -> Result<StrongCert, AllocError>
    requires edges { AreReduced net.now edges.now }
    requires round { IsFirstLoop (length net.now.points) edges.now places.now }
    requires no_ring { HasNoRing net.now }
    requires numbers { HasShownNumbers net.now }
    ensures { IfOk result (IsStrongRefutation net.now) }
{
    net.sound();
    let by = lines(alloc, net, edges, places)?;
    Ok(StrongCert {
        by: Items::new(by),
        ring: Items::new(Vec::new(alloc)),
    })
}

/// The names of the points in which the edges at these places begin.
fn names(
    alloc: Global,
    net: &Network,
    edges: &[Edge],
    places: &[usize],
) -> Result<Vec<Name>, AllocError>
    requires within { AreWithin (length net.now.points) edges.now }
    requires inside { All (λ place. place < length edges.now) places.now }
    ensures { IfOk result (λ names. names.items ≡ names_at net.now edges.now places.now) }
{
    let mut names = Vec::new(alloc);
    for place in places {
        names.push(*net.point_name(edges[*place].from))?;
    }
    Ok(names)
}

/// The lines for the bounds at these places.
fn lines(
    alloc: Global,
    net: &Network,
    edges: &[Edge],
    places: &[usize],
) -> Result<Vec<StrongLine>, AllocError>
    requires within { AreWithin (length net.now.points) edges.now }
    requires inside { All (λ place. place < length edges.now) places.now }
    requires bounds { length edges.now ≡ length net.now.bounds }
    ensures { IfOk result (λ lines. lines.items ≡ lines_at net.now edges.now places.now) }
{
    let mut lines = Vec::new(alloc);
    for place in places {
        lines.push(line_of(net, *place, &edges[*place]))?;
    }
    Ok(lines)
}

/// The line for the bound at a place, of which this is the reduced edge.
fn line_of(net: &Network, place: usize, edge: &Edge) -> StrongLine
    requires bound { place < length net.now.bounds }
    requires from { IsPoint net.now edge.now.from }
    requires to { IsPoint net.now edge.now.to }
    ensures { result ≡ reduced_line net.now place edge.now }
{
    StrongLine {
        bound: net.bounds()[place].name,
        from: *net.point_name(edge.from),
        to: *net.point_name(edge.to),
        weight: edge.weight,
    }
}
