//! The completions of a moment, and why they are refused.

ghost use Rattle.std.specs.Prelude.{◌≡◌, ◌+◌, IfOk, Ok, Err, find, unsigned_abs};
ghost use Rattle.std.specs.Option.{option_map_or};
ghost use Rattle.execution_model.specs.Feeds.{refusal_of_duration, activated_before};
ghost use Rattle.execution_model.specs.Feeds.{refusal_of_completion, refusal_of, completions_taken};
ghost use Rattle.execution_model.specs.Feeds.{latest_of, is_overdue, first_overdue, is_open};
ghost use Rattle.execution_model.specs.Feeds.{completed_at};
ghost use Rattle.execution_model.specs.Execution.{points_of};
ghost use Rattle.example_executions.specs.TimeSteps.{completed_by};

use crate::lists::{TestLists, moment_of};
use execution_model::Why;
use net_model::{Link, PointId, Weight};
use std::test::Fail;

/// So many moments after another.
pub(crate) fn later(moment: u64, count: u64) -> Result<u64, Fail>
    ensures { IfOk result (λ sum. sum ≡ moment + count) }
{
    match moment.checked_add(count) {
        Some(sum) => Ok(sum),
        None => Err(Fail::from("too late a moment")),
    }
}

/// A duration after a moment.
fn after(moment: u64, n: Weight) -> Result<u64, Fail>
    ensures { IfOk result (λ sum. sum ≡ moment + unsigned_abs n) }
{
    later(moment, n.unsigned_abs())
}

fn refusal_of_duration(
    moment: u64,
    point: PointId,
    link: &Link,
    activated: u64,
) -> Result<Option<Why>, Fail>
    ensures { IfOk result (λ why. why ≡ refusal_of_duration moment point link.now activated) }
{
    let earliest = after(activated, link.low)?;
    let latest = after(activated, link.high)?;
    if moment < earliest {
        return Ok(Some(Why::TooSoon(point, earliest)));
    }
    if latest < moment {
        return Ok(Some(Why::Overdue(point, latest)));
    }
    Ok(None)
}

/// The moment of the activation of a link, if it was before.
fn activated_before(moments: &[Option<u64>], moment: u64, link: &Link) -> Option<u64>
    ensures { result ≡ activated_before moments.now moment link.now }
{
    let activated = moment_of(moments, link.from)?;
    if activated < moment {
        Some(activated)
    } else {
        None
    }
}

fn refusal_of_completion(
    moments: &[Option<u64>],
    moment: u64,
    point: PointId,
    link: &Link,
) -> Result<Option<Why>, Fail>
    ensures { IfOk result (λ why. why ≡ refusal_of_completion moments.now moment point link.now) }
{
    if let Some(completed) = moment_of(moments, point) {
        return Ok(Some(Why::Twice(point, completed)));
    }
    match activated_before(moments, moment, link) {
        Some(activated) => refusal_of_duration(moment, point, link, activated),
        None => Ok(Some(Why::NotActive(point))),
    }
}

impl TestLists {
    /// Why a listed point is refused.
    fn refusal_of(
        &self,
        moments: &[Option<u64>],
        moment: u64,
        point: PointId,
    ) -> Result<Option<Why>, Fail>
        ensures { IfOk result (λ why. why ≡ refusal_of self.now moments.now moment point) }
    {
        match self.link_to(point) {
            Some(link) => refusal_of_completion(moments, moment, point, &link),
            None => Ok(Some(Why::NotContingent(point))),
        }
    }

    /// Completes the listed points, up to the first that is refused.
    pub(crate) fn complete(
        &self,
        moments: &mut [Option<u64>],
        moment: u64,
        listed: &[PointId],
    ) -> Result<Option<Why>, Fail>
        ensures { IfOk result (λ why. completions_taken self.now moments.old moment
            listed.now ≡ option_map_or Err why (Ok moments.new)) }
    {
        for point in listed {
            if let Some(why) = self.refusal_of(moments, moment, *point)? {
                return Ok(Some(why));
            }
            complete_at(moments, moment, *point);
        }
        Ok(None)
    }

    /// Completes the listed points, and gives the first refusal, or the lowest point that should
    /// have completed.
    pub(crate) fn settle(
        &self,
        moments: &mut [Option<u64>],
        moment: u64,
        listed: &[PointId],
    ) -> Result<Option<Why>, Fail>
        ensures { IfOk result (λ why. completed_by self.now moments.old moment
            listed.now ≡ option_map_or Err why (Ok moments.new)) }
    {
        if let Some(why) = self.complete(moments, moment, listed)? {
            return Ok(Some(why));
        }
        self.first_overdue(moments, moment)
    }

    /// The latest moment of a contingent point that has not completed, if its link is active.
    fn latest_of(&self, moments: &[Option<u64>], point: PointId) -> Result<Option<u64>, Fail>
        ensures { IfOk result (λ latest. latest ≡ latest_of self.now moments.now point) }
    {
        if moment_of(moments, point).is_some() {
            return Ok(None);
        }
        let Some(link) = self.link_to(point) else {
            return Ok(None);
        };
        let Some(activated) = moment_of(moments, link.from) else {
            return Ok(None);
        };
        let latest = after(activated, link.high)?;
        Ok(Some(latest))
    }

    /// Whether a point should have completed.
    fn is_overdue(&self, moments: &[Option<u64>], moment: u64, point: PointId) -> Result<bool, Fail>
        ensures { IfOk result (λ overdue. overdue ≡ is_overdue self.now moments.now moment point) }
    {
        match self.latest_of(moments, point)? {
            Some(latest) => Ok(latest <= moment),
            None => Ok(false),
        }
    }

    /// The lowest point that should have completed.
    fn lowest_overdue(&self, moments: &[Option<u64>], moment: u64) -> Result<Option<PointId>, Fail>
        ensures { IfOk result (λ point. point ≡ find (is_overdue self.now moments.now moment)
            (points_of self.now)) }
    {
        for point in self.points() {
            if self.is_overdue(moments, moment, *point)? {
                return Ok(Some(*point));
            }
        }
        Ok(None)
    }

    /// The lowest point that should have completed, as a refusal.
    pub(crate) fn first_overdue(
        &self,
        moments: &[Option<u64>],
        moment: u64,
    ) -> Result<Option<Why>, Fail>
        ensures { IfOk result (λ why. why ≡ first_overdue self.now moments.now moment) }
    {
        let Some(point) = self.lowest_overdue(moments, moment)? else {
            return Ok(None);
        };
        let Some(latest) = self.latest_of(moments, point)? else {
            return Ok(None);
        };
        Ok(Some(Why::Overdue(point, latest)))
    }

    fn is_open(&self, moments: &[Option<u64>], point: PointId) -> bool
        ensures { result ≡ is_open self.now moments.now point }
    {
        if moment_of(moments, point).is_some() {
            return false;
        }
        self.link_to(point).is_some()
    }

    /// The lowest contingent point that has not completed.
    pub(crate) fn first_open(&self, moments: &[Option<u64>]) -> Option<PointId>
        ensures { result ≡ find (is_open self.now moments.now) (points_of self.now) }
    {
        for point in self.points() {
            if self.is_open(moments, *point) {
                return Some(*point);
            }
        }
        None
    }
}

fn complete_at(moments: &mut [Option<u64>], moment: u64, point: PointId)
    ensures { moments.new ≡ completed_at moments.old moment point }
{
    let place = point.0 as usize;
    if place < moments.len() {
        moments[place] = Some(moment);
    }
}
