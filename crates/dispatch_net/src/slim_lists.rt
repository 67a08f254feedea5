//! Which lower bounds and waits others imply, and what is left without them. The points are visited
//! from the last in order to the first, so that each is tested against the whole lists of those
//! before it.

ghost use Rattle.std.specs.Prelude.{◌≡◌, ◌==◌, ◌&&◌, ◌||◌, ◌+ℤ◌, ◌<◌, ◌≤◌, ℤ, Bool, int_le, false};
ghost use Rattle.std.specs.Prelude.{◌≢◌, length, slice_get, slice_set, IfOk, None, vec_capacity};
ghost use Rattle.std.specs.List.{All, AllPairs, list_any, slice_index_or};
ghost use Rattle.std.specs.List.Sorted.{IsNonDecreasingBy};
ghost use Rattle.std.specs.Option.{option_map_or};
ghost use Rattle.net_model.specs.declared.ids.PointId.{PointId};
ghost use Rattle.net_model.specs.declared.ids.LinkId.{LinkId};
ghost use Rattle.dispatch_net.specs.Dispatchable.{conditions_at};
ghost use Rattle.dispatch_net.specs.Held.{Rise, AreInOrder, AreOnOthers, AreRanks};
ghost use Rattle.dispatch_net.specs.Held.{GoDown, HaveSame};
ghost use Rattle.dispatch_net.specs.Slim.{over_point, implied_over_link, over_end, over_wait};
ghost use Rattle.dispatch_net.specs.Slim.{slim_conditions, slimmed};

use crate::dispatch::Conditions;
use crate::held_lists::Held;
use net_model::{Items, Link, LinkId, PointId, Weight};
use std::alloc::{AllocError, Global};

/// Whether two numbers together are at least a third.
fn reaches(n: Weight, first: Weight, second: Weight) -> bool
    ensures { result ≡ int_le n (first +ℤ second) }
{
    i128::from(n) <= i128::from(first) + i128::from(second)
}

/// The moments of the lower bound on a point, if there is one.
fn bound_on(bounds: &[(PointId, Weight)], point: PointId) -> Option<Weight>
    requires { Rise (λ (bound : PointId × ℤ). bound.0.0) bounds.now }
    ensures { (test : ℤ → Bool) → list_any
        (λ (bound : PointId × ℤ). bound.0.0 == point.0 && test bound.1) bounds.now ≡ option_map_or
        test result false }
{
    let place = bounds.partition_point(|bound| bound.0.0 < point.0);
    if place == bounds.len() {
        return None;
    }
    let (other, moments) = bounds[place];
    if other.0 == point.0 {
        Some(moments)
    } else {
        None
    }
}

/// The moments of the wait for a link, if there is one.
fn wait_for(waits: &[(LinkId, Weight)], link: LinkId) -> Option<Weight>
    requires { Rise (λ (wait : LinkId × ℤ). wait.0.0) waits.now }
    ensures { (test : ℤ → Bool) → list_any
        (λ (wait : LinkId × ℤ). wait.0.0 == link.0 && test wait.1) waits.now ≡ option_map_or test
        result false }
{
    let place = waits.partition_point(|wait| wait.0.0 < link.0);
    if place == waits.len() {
        return None;
    }
    let (other, moments) = waits[place];
    if other.0 == link.0 {
        Some(moments)
    } else {
        None
    }
}

/// The link that ends in a point, if there is one.
fn end_at(ends: &[Option<Link>], point: PointId) -> Option<Link>
    ensures { result ≡ slice_index_or ends.now point.0 None }
{
    let place = point.0 as usize;
    if ends.len() <= place {
        return None;
    }
    ends[place]
}

/// Whether a lower bound is implied by another, on a point with these lists.
fn is_through_point(lists: &Conditions, bound: (PointId, Weight), other: (PointId, Weight)) -> bool
    requires { AreInOrder lists.now }
    ensures { result ≡ list_any (λ (inner : PointId × ℤ). inner.0.0 == bound.0.0 && int_le bound.1
        (other.1 +ℤ inner.1)) lists.now.lower_bounds }
{
    match bound_on(lists.lower_bounds.as_slice(), bound.0) {
        Some(inner) => reaches(bound.1, other.1, inner),
        None => false,
    }
}

/// Whether it is implied by one on the point in which this link ends.
fn is_through_link(link: &Link, bound: (PointId, Weight), other: (PointId, Weight)) -> bool
    ensures { result ≡ (link.now.from.0 == bound.0.0 && int_le bound.1 (other.1 +ℤ link.now.low)) }
{
    link.from.0 == bound.0.0 && reaches(bound.1, other.1, link.low)
}

/// Whether a wait is implied by a lower bound on a point with these lists.
fn is_through_wait(lists: &Conditions, wait: (LinkId, Weight), other: (PointId, Weight)) -> bool
    requires { AreInOrder lists.now }
    ensures { result ≡ list_any (λ (inner : LinkId × ℤ). inner.0.0 == wait.0.0 && int_le wait.1
        (other.1 +ℤ inner.1)) lists.now.waits }
{
    match wait_for(lists.waits.as_slice(), wait.0) {
        Some(inner) => reaches(wait.1, other.1, inner),
        None => false,
    }
}

/// Whether a wait of n moments for a link is implied by a lower bound on an end of the link.
fn is_over_end(n: Weight, other: (PointId, Weight), link: &Link) -> bool
    ensures { result ≡ over_end n other link.now }
{
    if other.0.0 == link.from.0 && n <= other.1 {
        return true;
    }
    other.0.0 == link.to.0
}

impl Held {
    /// Whether a lower bound is implied by another over a lower bound of its point.
    fn is_over_point(&self, bound: (PointId, Weight), other: (PointId, Weight)) -> bool
        ensures { result ≡ over_point self.now.lists bound other }
    {
        let place = other.0.0 as usize;
        if self.lists.len() <= place {
            return false;
        }
        is_through_point(&self.lists[place], bound, other)
    }

    /// Whether a lower bound is implied by another over the link that ends in its point.
    fn is_over_link(&self, bound: (PointId, Weight), other: (PointId, Weight)) -> bool
        ensures { result ≡ implied_over_link self.now.links bound other }
    {
        match end_at(self.ends.as_slice(), other.0) {
            Some(link) => is_through_link(&link, bound, other),
            None => false,
        }
    }

    /// Whether a lower bound is implied by another.
    fn is_over(&self, bound: (PointId, Weight), other: (PointId, Weight)) -> bool
        ensures { result ≡ (over_point self.now.lists bound other || implied_over_link
            self.now.links bound other) }
    {
        if self.is_over_point(bound, other) {
            return true;
        }
        self.is_over_link(bound, other)
    }

    /// Whether a lower bound is implied by others, which are tried from the last one back.
    fn is_bound_implied(&self, others: &[(PointId, Weight)], bound: (PointId, Weight)) -> bool
        ensures { result ≡ list_any (λ other. over_point self.now.lists bound
            other || implied_over_link self.now.links bound other) others.now }
    {
        let mut left = others.len();
        while left > 0 {
            left -= 1;
            if self.is_over(bound, others[left]) {
                return true;
            }
        }
        false
    }

    /// Whether a wait is implied by a lower bound on an end of its link.
    fn is_over_its_end(&self, wait: (LinkId, Weight), other: (PointId, Weight)) -> bool
        ensures { result ≡ option_map_or (over_end wait.1 other)
            (slice_get self.now.links wait.0.0) false }
    {
        match self.links.get(wait.0.0 as usize) {
            Some(link) => is_over_end(wait.1, other, link),
            None => false,
        }
    }

    /// Whether a wait is implied by a lower bound over a wait of its point for the same link.
    fn is_over_wait(&self, wait: (LinkId, Weight), other: (PointId, Weight)) -> bool
        ensures { result ≡ over_wait self.now.lists wait other }
    {
        let place = other.0.0 as usize;
        if self.lists.len() <= place {
            return false;
        }
        is_through_wait(&self.lists[place], wait, other)
    }

    /// Whether a wait is implied by a lower bound.
    fn is_wait_over(&self, wait: (LinkId, Weight), other: (PointId, Weight)) -> bool
        ensures { result ≡ (option_map_or (over_end wait.1 other)
            (slice_get self.now.links wait.0.0) false || over_wait self.now.lists wait other) }
    {
        if self.is_over_its_end(wait, other) {
            return true;
        }
        self.is_over_wait(wait, other)
    }

    /// Whether a wait is implied by lower bounds, which are tried from the last one back.
    fn is_wait_implied(&self, others: &[(PointId, Weight)], wait: (LinkId, Weight)) -> bool
        ensures { result ≡ list_any (λ other. option_map_or (over_end wait.1 other)
            (slice_get self.now.links wait.0.0) false || over_wait self.now.lists wait other)
            others.now }
    {
        let mut left = others.len();
        while left > 0 {
            left -= 1;
            if self.is_wait_over(wait, others[left]) {
                return true;
            }
        }
        false
    }

    /// What is left of the lower bounds and waits of a point without those that others imply. The
    /// others are all its lower bounds, in any order.
    fn thinned(&self, others: &[(PointId, Weight)], all: Conditions) -> Conditions
        requires { HaveSame others.now all.lower_bounds }
        ensures { result ≡ slim_conditions self.now.links self.now.lists all }
    {
        let Conditions {
            lower_bounds,
            waits,
        } = all;
        let mut bounds = lower_bounds.into_vec();
        bounds.retain(|bound| !self.is_bound_implied(others, *bound));
        let mut waits = waits.into_vec();
        waits.retain(|wait| !self.is_wait_implied(others, *wait));
        Conditions {
            lower_bounds: Items::new(bounds),
            waits: Items::new(waits),
        }
    }

    /// Keeps those lower bounds and waits of a point that no others imply.
    fn thin(&mut self, point: PointId, ranks: &[u32], others: &mut Vec<(PointId, Weight)>)
        requires within { point.0 < length self.old.lists }
        requires on_others { AreOnOthers (length self.old.lists) point
            (conditions_at self.old.lists point).lower_bounds }
        requires spare_capacity { length self.old.lists ≤ vec_capacity others.old }
        ensures links { self.new.links ≡ self.old.links }
        ensures lists { self.new.lists ≡ slice_set self.old.lists point.0
            (slim_conditions self.old.links self.old.lists (conditions_at self.old.lists point)) }
        ensures spare_capacity { vec_capacity others.new ≡ vec_capacity others.old }
    {
        let all = self.take(point);
        put_in_order(all.lower_bounds.as_slice(), ranks, others);
        let left = self.thinned(others.as_slice(), all);
        self.put(point, left);
    }

    /// Keeps those lower bounds and waits of each point that no others imply. It takes no memory.
    /// The ranks are the places in the order. Which others are tried first depends on them alone,
    /// and no clause depends on that.
    pub(crate) fn slim(
        &mut self,
        order: &[PointId],
        ranks: &[u32],
        others: &mut Vec<(PointId, Weight)>,
    )
        requires down { GoDown order.now self.old.lists }
        requires spare_capacity { length self.old.lists ≤ vec_capacity others.old }
        ensures links { self.new.links ≡ self.old.links }
        ensures lists { self.new.lists ≡ slimmed self.old.links self.old.lists }
        ensures spare_capacity { vec_capacity others.new ≡ vec_capacity others.old }
    {
        let mut left = order.len();
        while left > 0 {
            left -= 1;
            self.thin(order[left], ranks, others);
        }
    }
}

/// The rank of each of so many points: its place in an order of them.
pub(crate) fn ranks_of(
    alloc: Global,
    order: &[PointId],
    points: u32,
) -> Result<Vec<u32>, AllocError>
    requires points { All (λ point. point.0 < points) order.now }
    requires once { AllPairs (λ p q. p.0 ≢ q.0) order.now }
    ensures { IfOk result (λ ranks. AreRanks order.now ranks.items) }
{
    let mut ranks = vec![in alloc; 0; points as usize]?;
    for (rank, point) in order.iter().enumerate() {
        ranks[point.0 as usize] = rank as u32;
    }
    Ok(ranks)
}

/// The rank of a point.
fn rank_of(ranks: &[u32], point: PointId) -> u32
    ensures { result ≡ slice_index_or ranks.now point.0 0 }
{
    match ranks.get(point.0 as usize) {
        Some(rank) => *rank,
        None => 0,
    }
}

/// Puts the lower bounds of a point in the order of the ranks of their points. It takes no memory.
fn put_in_order(bounds: &[(PointId, Weight)], ranks: &[u32], ordered: &mut Vec<(PointId, Weight)>)
    requires { length bounds.now ≤ vec_capacity ordered.old }
    ensures same { HaveSame ordered.new.items bounds.now }
    ensures in_order { IsNonDecreasingBy
        (λ (bound : PointId × ℤ). slice_index_or ranks.now bound.0.0 0) ordered.new.items }
    ensures spare_capacity { vec_capacity ordered.new ≡ vec_capacity ordered.old }
{
    ordered.clear();
    for bound in bounds {
        ordered.push_reserved(*bound);
    }
    ordered.sort_unstable_by_key(|bound| rank_of(ranks, bound.0));
}
