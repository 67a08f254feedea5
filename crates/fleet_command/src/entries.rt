//! The plans of a fleet by their names.

ghost use Rattle.std.specs.Prelude.{MatchOption, length};
ghost use Rattle.fleet_command.specs.FleetStands.{HaveNone, IsFirstOfName};

use net_model::{BuildFault, Name};

/// How a plan is kept: by its place in the fleet, or as one of which a part was refused.
#[derive(Clone, Copy, Debug, PartialEq, Eq)]
pub enum FleetSlot {
    /// It was opened, at this place, counted from 0.
    Opened(u32),
    /// This part was refused, so it was never opened.
    Refused(BuildFault),
}

/// A plan by its name: how it is kept, and how many of its lines came.
#[derive(Clone, Copy, Debug)]
pub struct FleetEntry {
    pub(crate) name: Name,
    pub(crate) slot: FleetSlot,
    pub(crate) count: u32,
}

/// The place of the first of this name.
pub(crate) fn place_of(entries: &[FleetEntry], name: &[u8]) -> Option<usize>
    ensures { MatchOption result (HaveNone entries.now name.now (length entries.now))
        (IsFirstOfName entries.now name.now) }
{
    for place in 0..entries.len() {
        if entries[place].name.bytes() == name {
            return Some(place);
        }
    }
    None
}
