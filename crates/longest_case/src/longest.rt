//! The edges of the situation in which every link takes its longest duration.

ghost use Rattle.std.specs.Prelude.{◌≡◌, ◌≤ℤ◌, ℕ, List, pos, true, IfOk};
ghost use Rattle.std.specs.List.{All};
ghost use Rattle.strategy_model.specs.Control.{IsControllable};
ghost use Rattle.strategy_model.specs.Edges.{HoldsIn};
ghost use Rattle.longest_case.specs.Longest.{HoldsAtLongest, LastsLongest};

use crate::loop_search::has_loop;
use net_model::{Edge, Link, Network, bound_edge};
use std::alloc::{AllocError, Global};
use strategy_model::laws::{law_completion_follows_activation, law_loops_exclude_schedules};

/// Whether a limited search finds that no schedule keeps the bounds of a network without a delay in
/// the situation in which every link takes its longest duration. If it says yes, no strategy
/// controls the network; if it says no, one may or may not. It says yes only if some edges of that
/// situation (Dechter, Meiri and Pearl 1991) are a closed walk of negative total: they hold in
/// every schedule that keeps the bounds there, and a strategy that controls the network plays one.
/// The search goes over the edges 32 times at most. That it finds what it is for is tested
/// (`example_strong`), not proved. `AllocError` comes only for want of memory.
pub fn is_excluded_at_longest(alloc: Global, net: &Network) -> Result<bool, AllocError>
    requires { net.now.delay ≡ 0 }
    ensures { IfOk result (λ is. is ≡ true → ¬ IsControllable net.now) }
{
    net.sound();
    law_completion_follows_activation();
    law_loops_exclude_schedules();
    let edges = longest_edges(alloc, net)?;
    has_loop(alloc, net.points().len(), edges.as_slice())
}

/// Edges that hold in every schedule that keeps the bounds of a network and in which each link
/// takes its longest duration: one for each bound, and two for each link.
fn longest_edges(alloc: Global, net: &Network) -> Result<Vec<Edge>, AllocError>
    ensures { IfOk result (λ edges. All (HoldsAtLongest net.now) edges.items) }
{
    let mut edges = Vec::new(alloc);
    for bound in net.bounds() {
        edges.push(bound_edge(bound))?;
    }
    for link in net.links() {
        edges.push(no_later(link))?;
        edges.push(no_sooner(link))?;
    }
    Ok(edges)
}

/// That the contingent point of a link comes no later than its longest duration after its
/// activation point.
fn no_later(link: &Link) -> Edge
    ensures { (schedule : List ℕ) → LastsLongest schedule link.now → HoldsIn schedule result }
{
    Edge {
        from: link.from,
        to: link.to,
        label: None,
        weight: link.high,
    }
}

/// That it comes no sooner than that.
fn no_sooner(link: &Link) -> Edge
    requires { pos 0 ≤ℤ link.now.high }
    ensures { (schedule : List ℕ) → LastsLongest schedule link.now → HoldsIn schedule result }
{
    Edge {
        from: link.to,
        to: link.from,
        label: None,
        weight: -link.high,
    }
}
