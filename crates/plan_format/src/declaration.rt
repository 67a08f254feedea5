//! The network of the parts that a plan text declares.

ghost use Rattle.std.specs.Prelude.{◌≡◌, ℕ, ◌<◌, ◌≤◌, ◌^◌, length, IfOk};
ghost use Rattle.net_model.specs.BuiltNetwork.{place_of};
ghost use Rattle.net_model.specs.Limits.{most_delay};
ghost use Rattle.net_model.specs.Network.{IsPlan, HasPlanNumbers};
ghost use Rattle.plan_format.specs.PlanNetwork.{BuildsParts, StatesLine};

use net_model::{BuildFault, Network, Part, Weight};
use std::alloc::Global;
use std::error::Error;
use std::fmt;

/// Why the declarations of a plan text give no network.
#[derive(Clone, Copy, Debug, PartialEq, Eq, Hash)]
pub enum DeclarationFault {
    /// A part is refused: the number of its line, and why, with the place of the part.
    Refused(u32, BuildFault),
    /// There was no memory.
    OutOfMemory,
}

impl fmt::Display for DeclarationFault {
    ghost use Rattle.std.specs.Prelude.{Some};
    ghost use Rattle.plan_format.specs.PlanNetwork.{declaration_fault_text};

    ghost output = { λ fault. Some (declaration_fault_text fault) };

    fn fmt<W: fmt::Write>(&self, f: &mut fmt::Formatter<W>) -> fmt::Result {
        match self {
            DeclarationFault::Refused(line, fault) => write!(f, "{fault} in line {line}"),
            DeclarationFault::OutOfMemory => f.write_str("out of memory"),
        }
    }
}

impl Error for DeclarationFault {}

/// The network of parts, each with the number of its line, with a delay, or the first part that is
/// refused.
pub(crate) fn build(
    alloc: Global,
    delay: u32,
    parts: &[Part],
    lines: &[u32],
) -> Result<Network, DeclarationFault>
    requires few { length parts.now < 2 ^ 32 }
    requires numbered { length lines.now ≡ length parts.now }
    requires short { delay ≤ most_delay }
    ensures builds { BuildsParts result delay parts.now lines.now }
    ensures sound { IfOk result IsPlan }
    ensures numbers { IfOk result HasPlanNumbers }
{
    match Network::build(alloc, parts) {
        Ok(net) => Ok(net.with_delay(Weight::from(delay))),
        Err(fault) => Err(refused(lines, fault)),
    }
}

/// The fault of a refused part, with the number of its line.
fn refused(lines: &[u32], fault: BuildFault) -> DeclarationFault
    requires { (place : ℕ) → place_of fault ≡ Some place
        → (0 < place) × (place ≤ length lines.now) }
    ensures { StatesLine result lines.now fault }
{
    match fault.place() {
        Some(place) => DeclarationFault::Refused(lines[place as usize - 1], fault),
        None => DeclarationFault::OutOfMemory,
    }
}
