//! The plans of a fleet by their names, and the networks that are opened.

ghost use Rattle.std.specs.Prelude.{◌≡◌, ◌≤◌, length, IfOk};
ghost use Rattle.plan_fleet.specs.Limits.{most_plans};
ghost use Rattle.fleet_command.specs.PlanDivision.{fleet_entries_of, nets_in};

use crate::entries::{FleetEntry, FleetSlot};
use crate::plan_or_refusal::PlanOrRefusal;
use net_model::{Name, Network};
use std::alloc::{AllocError, Global};

/// The plans by their names, and the networks of those of which no part was refused, in their
/// order.
#[derive(Drop)]
pub(crate) struct Divided {
    pub(crate) entries: Vec<FleetEntry>,
    pub(crate) nets: Vec<(Name, Network)>,
}

/// Divides plans. `AllocError` comes only for want of memory.
pub(crate) fn divide(
    alloc: Global,
    plans: Vec<(Name, PlanOrRefusal)>,
) -> Result<Divided, AllocError>
    requires { length plans.items ≤ most_plans }
    ensures entries { IfOk result (λ divided. divided.entries.items ≡ fleet_entries_of 0
        plans.items) }
    ensures nets { IfOk result (λ divided. divided.nets.items ≡ nets_in plans.items) }
{
    let mut entries = Vec::new(alloc);
    let mut nets = Vec::new(alloc);
    for plan in plans {
        let (name, plan_or_refusal) = plan;
        let slot = match plan_or_refusal {
            PlanOrRefusal::Refused(why) => FleetSlot::Refused(why),
            PlanOrRefusal::Network(net) => {
                let place = nets.len() as u32;
                nets.push((name, net.into_network()))?;
                FleetSlot::Opened(place)
            }
        };
        entries.push(FleetEntry {
            name,
            slot,
            count: 0,
        })?;
    }
    Ok(Divided { entries, nets })
}
