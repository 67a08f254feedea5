//! The links, lower bounds and waits by which a network is executed, as lists.

ghost use Rattle.std.specs.Prelude.{◌≡◌, IfOk, map, length, []};
ghost use Rattle.std.specs.List.{list_all, range_with_len};
ghost use Rattle.dispatch_net.specs.Dispatchable.{conditions_at};
ghost use Rattle.net_model.specs.Moments.{moment_of};
ghost use Rattle.execution_model.specs.Execution.{has_gone_by, link_to, meets_bound, meets_wait};
ghost use Rattle.execution_model.specs.Execution.{meets, is_due, points_of};

use dispatch_net::Dispatch;
use net_model::{Link, LinkId, Network, PointId, Weight};
use std::alloc::Global;
use std::marker::Model;
use std::test::Fail;

/// The links, the conditions and the points. Contracts see it as the links and the conditions.
#[derive(Drop)]
pub(crate) struct TestLists {
    dispatch: Dispatch,
    links: Vec<Link>,
    points: Vec<PointId>,
}

impl Model for TestLists {
    ghost use Rattle.std.specs.Prelude.{◌≡◌, length};
    ghost use Rattle.execution_model.specs.Execution.{Setting, points_of};

    ghost Value = { Setting };

    ghost view = { λ kept. record { links = kept.links.items; dispatch = kept.dispatch.kept } };

    ghost invariant = { λ kept. kept.points.items ≡ points_of
        (record { links = kept.links.items; dispatch = kept.dispatch.kept }) };
}

impl TestLists {
    /// The lists of a network, with the conditions that its dispatchable network keeps.
    pub(crate) fn new(alloc: Global, net: &Network, dispatch: Dispatch) -> Result<TestLists, Fail>
        requires { length dispatch.kept ≡ length net.now.points }
        ensures { IfOk result (λ lists. lists ≡ record {
          links = net.now.links;
          dispatch = dispatch.kept;
        }) }
    {
        let points = points(alloc, net.points().len() as u32)?;
        let links = Vec::from_slice(alloc, net.links())?;
        Ok(TestLists {
            dispatch,
            links,
            points,
        })
    }

    /// The points, in order of number.
    pub(crate) fn points(&self) -> &[PointId]
        ensures { result.now ≡ points_of self.now }
    {
        self.points.as_slice()
    }

    /// The link that ends in a point.
    pub(crate) fn link_to(&self, point: PointId) -> Option<Link>
        ensures { result ≡ link_to self.now point }
    {
        link_into(self.links.as_slice(), point)
    }

    fn lower_bounds(&self, point: PointId) -> &[(PointId, Weight)]
        ensures { result.now ≡ (conditions_at self.now.dispatch point).lower_bounds }
    {
        if (point.0 as usize) < self.points.len() {
            self.dispatch.lower_bounds(point)
        } else {
            [].as_slice()
        }
    }

    fn waits(&self, point: PointId) -> &[(LinkId, Weight)]
        ensures { result.now ≡ (conditions_at self.now.dispatch point).waits }
    {
        if (point.0 as usize) < self.points.len() {
            self.dispatch.waits(point)
        } else {
            [].as_slice()
        }
    }

    fn meets_wait(&self, moments: &[Option<u64>], t: u64, wait: (LinkId, Weight)) -> bool
        ensures { result ≡ meets_wait self.now moments.now t wait }
    {
        let Some(link) = self.links.get(wait.0.0 as usize) else {
            return false;
        };
        if moment_of(moments, link.from).is_none() {
            return false;
        }
        moment_of(moments, link.to).is_some() || has_gone_by(moments, t, link.from, wait.1)
    }

    fn meets_waits(&self, moments: &[Option<u64>], t: u64, waits: &[(LinkId, Weight)]) -> bool
        ensures { result ≡ list_all (meets_wait self.now moments.now t) waits.now }
    {
        waits.iter().all(|wait| self.meets_wait(moments, t, *wait))
    }

    /// Whether the lower bounds and waits of a point are met at t.
    fn meets(&self, moments: &[Option<u64>], t: u64, point: PointId) -> bool
        ensures { result ≡ meets self.now moments.now t (conditions_at self.now.dispatch point) }
    {
        if !meets_bounds(moments, t, self.lower_bounds(point)) {
            return false;
        }
        self.meets_waits(moments, t, self.waits(point))
    }

    /// Whether a point is to be executed at t.
    pub(crate) fn is_due(&self, moments: &[Option<u64>], t: u64, point: PointId) -> bool
        ensures { result ≡ is_due self.now moments.now t point }
    {
        if self.link_to(point).is_some() {
            return false;
        }
        if moment_of(moments, point).is_some() {
            return false;
        }
        self.meets(moments, t, point)
    }
}

fn points(alloc: Global, count: u32) -> Result<Vec<PointId>, Fail>
    ensures { IfOk result (λ points. points.items ≡ map (λ k. record { 0 = k })
        (range_with_len 0 count)) }
{
    let mut points = Vec::new(alloc);
    for point in 0..count {
        points.push(PointId(point))?;
    }
    Ok(points)
}

fn link_into(links: &[Link], point: PointId) -> Option<Link>
    ensures { result ≡ link_to (record { links = links.now; dispatch = [] }) point }
{
    for link in links {
        if link.to.0 == point.0 {
            return Some(*link);
        }
    }
    None
}

/// The moment that a point has so far.
pub(crate) fn moment_of(moments: &[Option<u64>], point: PointId) -> Option<u64>
    ensures { result ≡ moment_of moments.now point }
{
    match moments.get(point.0 as usize) {
        Some(moment) => *moment,
        None => None,
    }
}

/// Whether at t n moments have passed since a point came.
fn has_gone_by(moments: &[Option<u64>], t: u64, point: PointId, n: Weight) -> bool
    ensures { result ≡ has_gone_by moments.now t point n }
{
    let Some(moment) = moment_of(moments, point) else {
        return false;
    };
    match moment.checked_add(n.unsigned_abs()) {
        Some(met) => met <= t,
        None => false,
    }
}

fn meets_bounds(moments: &[Option<u64>], t: u64, bounds: &[(PointId, Weight)]) -> bool
    ensures { result ≡ list_all (meets_bound moments.now t) bounds.now }
{
    bounds
        .iter()
        .all(|bound| has_gone_by(moments, t, bound.0, bound.1))
}
