//! The name of a goal.

ghost use Rattle.std.specs.Prelude.{◌≡◌, ◌<◌, ◌≤◌, ◌++◌, length, string_bytes, IfOk};
ghost use Rattle.std.specs.Fmt.{decimal};
ghost use Rattle.net_model.specs.Limits.{most_bounds};
ghost use Rattle.deadline_search.specs.Goals.{IsGoalName, goal_name};

use net_model::{MOST_BOUNDS, Name, Network};
use std::alloc::{AllocError, Global};

/// The first name of a goal that no bound of a network has.
pub(crate) fn free_name(alloc: Global, net: &Network) -> Result<Name, AllocError>
    requires { length net.now.bounds < most_bounds }
    ensures { IfOk result (IsGoalName net.now) }
{
    for place in 0..MOST_BOUNDS as u32 {
        let name = goal_name(alloc, place)?;
        if net.bound(name.bytes()).is_none() {
            return Ok(name);
        }
    }
    unreachable!()
}

/// The name of a goal of a place.
fn goal_name(alloc: Global, place: u32) -> Result<Name, AllocError>
    requires { place ≤ most_bounds }
    ensures { IfOk result (λ name. name ≡ goal_name place) }
{
    let text = goal_text(alloc, place)?;
    match Name::new(text.as_bytes()) {
        Ok(name) => Ok(name),
        Err(_) => unreachable!(),
    }
}

/// The text of the name of a goal of a place.
fn goal_text(alloc: Global, place: u32) -> Result<String, AllocError>
    ensures { IfOk result (λ text. string_bytes text ≡ goal_name place) }
{
    if place == 0 {
        String::from_str(alloc, "goal")
    } else {
        numbered_goal(alloc, "goal.", place)
    }
}

/// A text and a number after it.
fn numbered_goal(alloc: Global, prefix: &str, number: u32) -> Result<String, AllocError>
    ensures { IfOk result (λ text. string_bytes text ≡ prefix.now ++ decimal number) }
{
    format!(in alloc; "{prefix}{number}")
}
