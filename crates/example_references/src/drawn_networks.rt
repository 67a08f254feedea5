//! Drawn networks, by the lines of their parts.

use std::alloc::Global;
use std::test::Fail;

/// Pseudo-random numbers, the same in each run.
#[derive(Drop)]
pub(crate) struct Draws {
    pub(crate) state: u64,
}

impl Draws {
    /// A number below another, and 0 if that is 0.
    pub(crate) fn draw(&mut self, below: u64) -> u64 {
        self.state = (self.state % 2_147_483_648 * 1_103_515_245 + 12_345) % 2_147_483_648;
        (self.state / 65_536).checked_rem(below).unwrap_or(0)
    }
}

/// How much a network has of each: its points are numbered from 0, and its links end in the last of
/// them.
#[derive(Clone, Copy)]
struct NetworkSize {
    points: u64,
    links: u64,
    bounds: u64,
}

/// The lines of a network of 3 points and up to `spare` more, with `|` between them: it has a link
/// at least.
pub(crate) fn drawn(alloc: Global, draws: &mut Draws, spare: u64) -> Result<String, Fail> {
    let size = drawn_size(draws, spare);
    let mut lines = String::new(alloc);
    push_points(alloc, size, &mut lines)?;
    push_links(alloc, draws, size, &mut lines)?;
    push_bounds(alloc, draws, size, &mut lines)?;
    Ok(lines)
}

fn drawn_size(draws: &mut Draws, spare: u64) -> NetworkSize {
    let points = draws.draw(spare.saturating_add(1)).saturating_add(3);
    NetworkSize {
        points,
        links: draws.draw(points / 3).saturating_add(1),
        bounds: draws.draw(points).saturating_add(points / 2),
    }
}

fn push_points(alloc: Global, size: NetworkSize, lines: &mut String) -> Result<(), Fail> {
    lines.push_str("point p0")?;
    for number in 1..size.points {
        lines.push_str(format!(in alloc; "|point p{number}")?.as_str())?;
    }
    Ok(())
}

/// Links, each from any other point.
fn push_links(
    alloc: Global,
    draws: &mut Draws,
    size: NetworkSize,
    lines: &mut String,
) -> Result<(), Fail> {
    for number in 0..size.links {
        let to = size.points.saturating_sub(number.saturating_add(1));
        let from = other(draws, size.points, to);
        let low = draws.draw(6).saturating_add(1);
        let high = draws.draw(8).saturating_add(low);
        lines.push_str(format!(in alloc; "|link p{from} {low} {high} p{to}")?.as_str())?;
    }
    Ok(())
}

/// Bounds between any two points, of which about a third are below 0.
fn push_bounds(
    alloc: Global,
    draws: &mut Draws,
    size: NetworkSize,
    lines: &mut String,
) -> Result<(), Fail> {
    for number in 0..size.bounds {
        let from = draws.draw(size.points);
        let to = other(draws, size.points, from);
        let below = draws.draw(3) == 0;
        let most = draws.draw(12);
        let sign = if below && most > 0 { "-" } else { "" };
        lines.push_str(format!(in alloc; "|bound b{number} p{from} p{to} {sign}{most}")?.as_str())?;
    }
    Ok(())
}

/// A point that is another one.
fn other(draws: &mut Draws, points: u64, point: u64) -> u64 {
    let next = draws.draw(points.saturating_sub(1)).saturating_add(1);
    point.saturating_add(next).checked_rem(points).unwrap_or(0)
}
