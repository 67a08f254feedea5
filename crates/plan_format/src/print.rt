//! Printing a network as a plan text.

ghost use Rattle.std.specs.Prelude.{◌≡◌, ◌++◌, IfOk, OnOk};
ghost use Rattle.std.specs.List.{flat_map};
ghost use Rattle.net_model.specs.Network.{HasPlanNumbers, IsBound, IsLink};
ghost use Rattle.texts.specs.PrintedLines.{printed, printed_line};
ghost use Rattle.net_model.specs.NetworkParts.{bound_part, link_part};
ghost use Rattle.plan_format.specs.PlanParts.{part_words};
ghost use Rattle.plan_format.specs.PlanPrinting.{ReadsBack, delay_lines, printed_plan};

use net_model::{Bound, Link, Name, Network, Part};
use std::alloc::{AllocError, Global};
use texts::push_line;

/// The plan text of a network, in version 2: the header, the delay if it is not 0, the points, the
/// bounds and the links, each list in its order, and `end`, with one blank between words and a line
/// end after each line. If the numbers of the network are at most 1,000,000,000 in size, as those
/// of a built network are, it reads back to the same three lists and the same delay. `AllocError`
/// comes only for want of memory.
#[tactic(auto, unfolding(crate::specs::PlanPrinting::printed_plan))]
pub fn print_plan(alloc: Global, net: &Network) -> Result<Vec<u8>, AllocError>
    ensures text { IfOk result (λ text. text.items ≡ printed_plan net.now) }
    ensures read_back { HasPlanNumbers net.now
        → IfOk result (λ text. ReadsBack text.items net.now) }
{
    let mut out = Vec::new(alloc);
    push_line(&mut out, b"stnu", &[b"2".as_slice()])?;
    push_delay(alloc, &mut out, net)?;
    push_points(&mut out, net.points())?;
    push_bounds(alloc, &mut out, net)?;
    push_links(alloc, &mut out, net)?;
    push_line(&mut out, b"end", &[])?;
    Ok(out)
}

/// The line of the delay, if it is not 0.
fn push_delay(alloc: Global, out: &mut Vec<u8>, net: &Network) -> Result<(), AllocError>
    ensures { OnOk result (out.new.items ≡ out.old.items ++ printed (delay_lines net.now.delay)) }
{
    let delay = net.delay();
    if delay == 0 {
        return Ok(());
    }
    let moments = delay.to_string(alloc)?;
    push_line(out, b"delay", &[moments.as_bytes()])
}

fn push_points(out: &mut Vec<u8>, points: &[Name]) -> Result<(), AllocError>
    ensures { OnOk result (out.new.items ≡ out.old.items ++ flat_map
        (λ name. printed_line (part_words (Part.Point name))) points.now) }
{
    for name in points {
        push_line(out, b"point", &[name.bytes()])?;
    }
    Ok(())
}

fn push_bounds(alloc: Global, out: &mut Vec<u8>, net: &Network) -> Result<(), AllocError>
    ensures { OnOk result (out.new.items ≡ out.old.items ++ flat_map
        (λ bound. printed_line (part_words (bound_part net.now.points bound))) net.now.bounds) }
{
    for bound in net.bounds() {
        push_bound(alloc, out, net, bound)?;
    }
    Ok(())
}

fn push_bound(
    alloc: Global,
    out: &mut Vec<u8>,
    net: &Network,
    bound: &Bound,
) -> Result<(), AllocError>
    requires { IsBound net.now bound.now }
    ensures { OnOk result (out.new.items ≡ out.old.items ++ printed_line
        (part_words (bound_part net.now.points bound.now))) }
{
    let from = net.point_name(bound.from).bytes();
    let to = net.point_name(bound.to).bytes();
    let most = bound.most.to_string(alloc)?;
    push_line(
        out,
        b"bound",
        &[bound.name.bytes(), from, to, most.as_bytes()],
    )
}

fn push_links(alloc: Global, out: &mut Vec<u8>, net: &Network) -> Result<(), AllocError>
    ensures { OnOk result (out.new.items ≡ out.old.items ++ flat_map
        (λ link. printed_line (part_words (link_part net.now.points link))) net.now.links) }
{
    for link in net.links() {
        push_link(alloc, out, net, link)?;
    }
    Ok(())
}

fn push_link(alloc: Global, out: &mut Vec<u8>, net: &Network, link: &Link) -> Result<(), AllocError>
    requires { IsLink net.now link.now }
    ensures { OnOk result (out.new.items ≡ out.old.items ++ printed_line
        (part_words (link_part net.now.points link.now))) }
{
    let from = net.point_name(link.from).bytes();
    let to = net.point_name(link.to).bytes();
    let low = link.low.to_string(alloc)?;
    let high = link.high.to_string(alloc)?;
    push_line(out, b"link", &[from, low.as_bytes(), high.as_bytes(), to])
}
