//! Fleets from the lines of plans, for the tests of this crate.

ghost use Rattle.std.specs.Prelude.{◌≡◌, ◌≤◌, length, IfOk};
ghost use Rattle.plan_fleet.specs.Limits.{most_plans};

use example_plans::network;
use net_model::{Name, Network};
use std::alloc::Global;
use std::test::Fail;

/// The plans of a fleet, each by its name and the lines of its plan, of which so many are taken at
/// most as a fleet may have.
pub(crate) fn plans(alloc: Global, lines: &[(&str, &str)]) -> Result<Vec<(Name, Network)>, Fail>
    requires { length lines.now ≤ most_plans }
    ensures { IfOk result (λ plans. length plans.items ≡ length lines.now) }
{
    let mut plans = Vec::new(alloc);
    for (name, plan) in lines {
        plans.push((Name::new(name.as_bytes())?, network(alloc, plan)?))?;
    }
    Ok(plans)
}
