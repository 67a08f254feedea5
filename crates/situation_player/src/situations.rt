//! Situations by number.

ghost use Rattle.std.specs.Prelude.{◌≡◌, ◌+◌, ◌≤◌, ◌^◌, map, IfOk};
ghost use Rattle.strategy_model.specs.Situations.{IsSituation};
ghost use Rattle.situation_player.specs.Numbered.{numbered, shortest_of, longest_of, choices};

use crate::laws::law_numbers_are_situations;
use net_model::{Link, Network};
use std::alloc::{AllocError, Global};
use strategy_model::Situation;

/// The situation of a number. From the first link on, each link lasts so much longer than its
/// shortest duration as the number leaves over when it is divided by the count of the link's
/// durations, and the quotient is the number for the links after it. `AllocError` comes only if
/// memory is refused.
pub fn situation(alloc: Global, number: u64, net: &Network) -> Result<Situation, AllocError>
    ensures numbered { IfOk result (λ situation. situation.items ≡ numbered number net.now.links) }
    ensures situation { IfOk result (λ situation. IsSituation net.now situation.items) }
{
    law_numbers_are_situations();
    let links = net.links();
    let mut rest = number;
    let mut durations = Vec::new(alloc);
    for link in links {
        let choices = choices(link);
        durations.push(shortest_of(link) + rest % choices)?;
        rest /= choices;
    }
    Ok(durations)
}

/// The situation in which each link lasts its shortest duration: that of the number 0. `AllocError`
/// comes only if memory is refused.
pub fn shortest(alloc: Global, net: &Network) -> Result<Situation, AllocError>
    ensures low { IfOk result (λ situation. situation.items ≡ map shortest_of net.now.links) }
    ensures first { IfOk result (λ situation. situation.items ≡ numbered 0 net.now.links) }
    ensures situation { IfOk result (λ situation. IsSituation net.now situation.items) }
{
    let durations = shortest_durations(alloc, net.links())?;
    Ok(durations)
}

/// The situation in which each link lasts its longest duration. `AllocError` comes only if memory
/// is refused.
pub fn longest(alloc: Global, net: &Network) -> Result<Situation, AllocError>
    ensures high { IfOk result (λ situation. situation.items ≡ map longest_of net.now.links) }
    ensures situation { IfOk result (λ situation. IsSituation net.now situation.items) }
{
    let durations = longest_durations(alloc, net.links())?;
    Ok(durations)
}

fn shortest_durations(alloc: Global, links: &[Link]) -> Result<Vec<u64>, AllocError>
    ensures { IfOk result (λ durations. durations.items ≡ map shortest_of links.now) }
{
    links.iter().map(shortest_of).collect(alloc)
}

fn longest_durations(alloc: Global, links: &[Link]) -> Result<Vec<u64>, AllocError>
    ensures { IfOk result (λ durations. durations.items ≡ map longest_of links.now) }
{
    links.iter().map(longest_of).collect(alloc)
}

/// The shortest duration of a link.
fn shortest_of(link: &Link) -> u64
    ensures { result ≡ shortest_of link.now }
{
    link.low.unsigned_abs()
}

/// The longest duration of a link.
fn longest_of(link: &Link) -> u64
    ensures { result ≡ longest_of link.now }
{
    link.high.unsigned_abs()
}

/// How many durations a link may last.
fn choices(link: &Link) -> u64
    ensures choices { result ≡ choices link.now }
    ensures fits { shortest_of link.now + result ≤ 2 ^ 63 + 1 }
{
    let shortest = link.low.unsigned_abs();
    let longest = link.high.unsigned_abs();
    longest.saturating_sub(shortest) + 1
}
