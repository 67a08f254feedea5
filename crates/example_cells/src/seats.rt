//! What the seats of cells answer, and what is left of cells.

ghost use Rattle.std.specs.Prelude.{◌≡◌, length};
ghost use Rattle.cell_table.specs.SweepSeats.{IsAt};

use cell_table::{CellSeat, Cells};
use example_plans::network;
use labelled_graph::Table;
use net_model::{Edge, LinkId, Network, PointId, Weight};
use network_closure::over_link;
use std::alloc::Global;
use std::test::Fail;

/// The points A, C and D have the numbers 0, 1 and 2.
const PLAN: &str = "point A|point C|point D|bound b1 D C 1|bound b2 C D -1|link A 3 8 C";

/// What is loaded of the cells of the plan: from D to C, from A to C, and from C with the label of
/// the link.
const LOADED: [Option<Weight>; 3] = [Some(1), None, Some(-8)];

/// Whether the cells of the base table of a network give it back.
fn are_given_back(alloc: Global, net: &Network) -> Result<bool, Fail> {
    let base = Table::of(alloc, net)?;
    let (cells, seat) = Cells::of_table(alloc, net, &base, 1)?;
    let left = cells.close(seat)?;
    for point in 0..net.points().len() as u32 {
        let row = base.row_into(alloc, PointId(point))?;
        let left_row = left.row_into(alloc, PointId(point))?;
        if row.as_slice() != left_row.as_slice() {
            return Ok(false);
        }
    }
    Ok(true)
}

/// What two seats load of the cells of the plan.
fn loaded(alloc: Global, net: &Network) -> Result<[Option<Weight>; 3], Fail>
    requires points { length net.now.points ≡ 3 }
    requires links { length net.now.links ≡ 1 }
{
    let (cells, mut first) = Cells::new(alloc, net, 2)?;
    let mut other = cells.split(&mut first);
    let from_d = cells.load(&mut first, PointId(2), PointId(1));
    let from_a = cells.load(&mut other, PointId(0), PointId(1));
    cells.join(&mut first, other);
    let upper = cells.load_upper(&mut first, PointId(1), LinkId(0));
    Ok([from_d, from_a, upper])
}

/// Whether what follows over the link from the edge from C to D improves when its cell is relaxed
/// first, and does not when it is relaxed again.
fn improves_once(cells: &Cells, net: &Network, seat: &mut CellSeat) -> bool
    requires at { IsAt net.now cells.now seat.old }
    requires points { length net.now.points ≡ 3 }
{
    let (from, to) = (PointId(1), PointId(2));
    let Some(weight) = cells.load(seat, from, to) else {
        return false;
    };
    let edge = Edge {
        from,
        to,
        label: None,
        weight,
    };
    match over_link(net, &edge) {
        None => false,
        Some(edge) => cells.lower(seat, &edge) && !cells.lower(seat, &edge),
    }
}

/// Whether an edge that follows improves exactly once at the cells of a network.
fn an_edge_improves(alloc: Global, net: &Network) -> Result<bool, Fail>
    requires points { length net.now.points ≡ 3 }
{
    let (cells, mut seat) = Cells::new(alloc, net, 1)?;
    Ok(improves_once(&cells, net, &mut seat))
}

#[test]
fn cells_of_the_base_table_give_it_back(rt: HostRuntime) -> Result<(), Fail> {
    let net = network(rt.alloc(), PLAN)?;
    assert!(rt; are_given_back(rt.alloc(), &net)?);
    Ok(())
}

#[test]
fn seats_answer_what_they_find(rt: HostRuntime) -> Result<(), Fail> {
    let net = network(rt.alloc(), PLAN)?;
    if net.points().len() != 3 || net.links().len() != 1 {
        return Err("the network has other points or links".into());
    }
    assert_eq!(rt; loaded(rt.alloc(), &net)?, LOADED);
    assert!(rt; an_edge_improves(rt.alloc(), &net)?);
    Ok(())
}
