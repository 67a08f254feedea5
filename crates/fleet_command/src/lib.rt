//! The command `fleet`: many plans, each under a name, executed over one stream of lines, each
//! answered as if it were alone.
#![tactic(auto)]

mod entries;
mod fleet_phase;
mod fleet_question;
mod header;
mod laws;
mod own_lines;
mod plan_division;
mod plan_or_refusal;
mod plan_separators;
mod plans_text;

pub use entries::{FleetEntry, FleetSlot};
pub use fleet_phase::Serving;
pub use fleet_question::{FleetQuestion, FleetReading};
pub use header::FleetHeader;
pub use laws::{law_fleet_is_lawful, law_fleet_is_read_exactly};
pub use plan_or_refusal::{KeepRefusal, PlanOrRefusal, PlanOrRefusalText};
pub use plan_separators::PlanSeparators;
pub use plans_text::{FleetText, Plans, PlansText};
