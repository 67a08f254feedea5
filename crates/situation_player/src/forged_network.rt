//! Networks that are forged from a number.

ghost use Rattle.std.specs.Prelude.{◌≡◌, ◌+◌, ◌*◌, ◌≤◌, ◌<◌, ◌^◌, Ok, length, IfOk, IsOk};
ghost use Rattle.net_model.specs.BuiltNetwork.{built};
ghost use Rattle.net_model.specs.Network.{IsPlan, HasPlanNumbers};
ghost use Rattle.situation_player.specs.ForgedParts.{most_tasks, forged_parts};

use crate::generator::Generator;
use crate::parts::parts_of_tasks;
use crate::tasks::draw_tasks;
use net_model::{BuildFault, Network, Part};
use std::alloc::{AllocError, Global};

/// The network that is forged from a number: so many tasks, 1 to 333, drawn by the generator that
/// starts from the number. No part of it is ever refused: `AllocError` comes only if memory is
/// refused.
pub fn forge(alloc: Global, number: u32, tasks: u32) -> Result<Network, AllocError>
    requires some { 1 ≤ tasks }
    requires few { tasks ≤ most_tasks }
    ensures forged { IfOk result (λ net. built (forged_parts number tasks) ≡ Ok net) }
    ensures sound { IfOk result IsPlan }
    ensures numbers { IfOk result HasPlanNumbers }
{
    let mut generator = Generator::new(number);
    let drawn = draw_tasks(alloc, &mut generator, tasks)?;
    let cut = generator.draw(2);
    let parts = parts_of_tasks(alloc, drawn.as_slice(), cut)?;
    build(alloc, parts.as_slice())
}

/// The network of parts that build one.
fn build(alloc: Global, parts: &[Part]) -> Result<Network, AllocError>
    requires count { length parts.now < 2 ^ 32 }
    requires builds { IsOk (built parts.now) }
    ensures built { IfOk result (λ net. built parts.now ≡ Ok net) }
    ensures sound { IfOk result IsPlan }
    ensures numbers { IfOk result HasPlanNumbers }
{
    match Network::build(alloc, parts) {
        Ok(net) => Ok(net),
        Err(BuildFault::OutOfMemory) => Err(AllocError),
        Err(_) => unreachable!(),
    }
}
