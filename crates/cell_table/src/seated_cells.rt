//! Cells in which one worker relaxes edges, by a seat.

ghost use Rattle.std.specs.Prelude.{◌≡◌, ◌<◌, length, true, IfSome, Some, slice_get};
ghost use Rattle.closure_model.specs.Derivable.{IsDerivable, IsDerivableFor};
ghost use Rattle.closure_model.specs.Keys.{labelled_key, ordinary_key, shape_of};
ghost use Rattle.network_closure.specs.Progress.{ProgressGoesOn};
ghost use Rattle.cell_table.specs.SweepSeats.{IsAt};

use crate::cells::Cells;
use crate::seat::CellSeat;
use net_model::{Edge, LinkId, Network, PointId, Weight};
use network_closure::Relaxable;
use std::marker::Model;

/// The cells of a network, and the seat with which one worker relaxes derivable edges in them.
/// Contracts see the network and the cells, and how far the weights that the seat has noted can
/// still be lowered.
#[derive(Drop)]
pub(crate) struct SeatedCells<'a> {
    net: &'a Network,
    cells: &'a Cells,
    seat: CellSeat,
}

impl<'a> Model for SeatedCells<'a> {
    ghost use Rattle.std.specs.Coded.{codes};
    ghost use Rattle.network_closure.specs.Progress.{Progress};
    ghost use Rattle.cell_table.specs.Seats.{cells_code};
    ghost use Rattle.cell_table.specs.Shared.{CellsSeen};
    ghost use Rattle.cell_table.specs.SweepSeats.{IsAt};
    ghost use Rattle.cell_table.specs.SweepProgress.{relaxing_of};

    ghost Value = { Progress CellsSeen };

    ghost coded = { Prim.hlevel (codes, cells_code) };

    ghost view = { λ seated. relaxing_of seated.net.now seated.cells.now seated.seat };

    ghost invariant = { λ seated. IsAt seated.net.now seated.cells.now seated.seat };
}

impl<'a> SeatedCells<'a> {
    /// Cells of a network, with a seat at them.
    pub(crate) fn of(net: &'a Network, cells: &'a Cells, seat: CellSeat) -> SeatedCells<'a>
        requires { IsAt net.now cells.now seat }
        ensures net { result.net ≡ net.now }
        ensures cells { result.place ≡ cells.now }
    {
        SeatedCells { net, cells, seat }
    }

    /// The seat as it is.
    pub(crate) fn into_seat(self) -> CellSeat
        ensures { IsAt self.entry.net self.entry.place result }
    {
        self.seat
    }

    /// The weight that the ordinary key between two points has at this step, if it has one.
    fn ordinary(&mut self, from: PointId, to: PointId) -> Option<Weight>
        requires from_point { from.0 < length self.old.net.points }
        requires to_point { to.0 < length self.old.net.points }
        ensures goes_on { ProgressGoesOn self.old self.new }
        ensures derivable { IfSome result (IsDerivableFor self.old.net (ordinary_key from to)) }
    {
        self.cells.load(&mut self.seat, from, to)
    }

    /// The weight that the key from a point that is labelled by a link that begins in another has at
    /// this step, if it has one.
    fn labelled(&mut self, from: PointId, to: PointId, link: LinkId) -> Option<Weight>
        requires from_point { from.0 < length self.old.net.points }
        requires link { slice_get (shape_of self.old.net).activations link.0 ≡ Some to }
        ensures goes_on { ProgressGoesOn self.old self.new }
        ensures derivable { IfSome result (IsDerivableFor self.old.net
            (labelled_key from to link)) }
    {
        self.cells.load_upper(&mut self.seat, from, link)
    }

    /// The weight that the cells have at this step for the key of an edge, if there is one.
    fn weight_of(&mut self, edge: &Edge) -> Option<Weight>
        requires { IsDerivable self.old.net edge.now }
        ensures { ProgressGoesOn self.old self.new }
    {
        match edge.label {
            None => self.cells.load(&mut self.seat, edge.from, edge.to),
            Some(link) => self.cells.load_upper(&mut self.seat, edge.from, link),
        }
    }

    /// Lowers the cells to an edge, and says whether its key improved: then less is left.
    fn lower(&mut self, edge: &Edge) -> bool
        requires { IsDerivable self.old.net edge.now }
        ensures goes_on { ProgressGoesOn self.old self.new }
        ensures improved { result ≡ true → self.new.left < self.old.left }
    {
        self.cells.lower(&mut self.seat, edge)
    }
}

impl<'a> Relaxable for SeatedCells<'a> {
    type Place = Cells;

    const IS_SHARED: bool = true;

    ghost progress = { λ seated. seated };

    fn net(&self) -> &Network {
        self.net
    }

    fn weight(&mut self, from: PointId, to: PointId, label: Option<LinkId>) -> Option<Weight> {
        match label {
            None => self.ordinary(from, to),
            Some(link) => self.labelled(from, to, link),
        }
    }

    fn lower_to(&mut self, edge: &Edge) -> bool {
        let stands = self.weight_of(edge);
        if stands.is_some_and(|weight| weight <= edge.weight) {
            return false;
        }
        self.lower(edge)
    }

    fn may_improve(&self, _edge: &Edge, _from: u32, _end: u32) -> bool {
        true
    }
}
