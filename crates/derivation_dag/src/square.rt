//! A number for each ordinary key between some points, each at its place.

ghost use Rattle.std.specs.Prelude.{◌≡◌, ◌<◌, [], length, slice_index_or, slice_set, IfOk, IfSome};
ghost use Rattle.std.specs.Prelude.{replicate, ◌*◌};
ghost use Rattle.closure_model.specs.Keys.{key_of};
ghost use Rattle.derivation_dag.specs.Places.{dense_place, recorded};

use crate::marks::Marks;
use closure_model::NodeId;
use net_model::Edge;
use std::alloc::{AllocError, Global};
use std::marker::Model;

/// The numbers of nodes by the places of ordinary keys between so many points, in the order of
/// their targets and then of their sources, in 8 bytes each. A number is counted from 1, and 0
/// stands where there is none.
#[derive(Debug, Drop)]
pub(crate) struct Square {
    points: u32,
    counted: Vec<u64>,
}

impl Model for Square {
    ghost use Rattle.std.specs.Prelude.{◌≡◌, ◌*◌, length};
    ghost use Rattle.derivation_dag.specs.Places.{Counted};

    ghost Value = { Counted };

    ghost view = { λ square. record { points = square.points; counted = square.counted.items } };

    ghost invariant = { λ square. length square.counted.items ≡ square.points * square.points };
}

impl Square {
    /// The places of no points. It takes no memory.
    pub(crate) fn empty(alloc: Global) -> Square
        ensures { result.counted ≡ [] }
    {
        Square {
            points: 0,
            counted: Vec::new(alloc),
        }
    }

    /// The places of so many points, without numbers. `AllocError` comes only for want of memory.
    pub(crate) fn of(alloc: Global, points: u32) -> Result<Square, AllocError>
        ensures { IfOk result (λ square. square.counted ≡ replicate (points * points) 0) }
    {
        let counted = vec![in alloc; 0; points as usize * points as usize]?;
        Ok(Square { points, counted })
    }

    /// The place of the key of an edge, if it is an ordinary one between the points.
    pub(crate) fn place_of(&self, edge: &Edge) -> Option<usize>
        ensures place { result ≡ dense_place self.now.points (key_of edge.now) }
        ensures inside { IfSome result (λ place. place < length self.now.counted) }
    {
        let (from, to) = (edge.from.0, edge.to.0);
        if edge.label.is_some() || from >= self.points || to >= self.points {
            return None;
        }
        Some(to as usize * self.points as usize + from as usize)
    }

    /// The number at a place, if it has one.
    pub(crate) fn get(&self, place: usize) -> Option<NodeId>
        requires { place < length self.now.counted }
        ensures { result ≡ recorded (slice_index_or self.now.counted place 0) }
    {
        recorded(self.counted[place])
    }

    /// Sets the number at a place, which is given counted from 1.
    pub(crate) fn set(&mut self, place: usize, counted: u64)
        requires { place < length self.old.counted }
        ensures { self.new ≡ record self.old {
          counted =
              slice_set self.old.counted place counted;
        } }
    {
        self.counted[place] = counted;
    }

    /// Marks all numbers, which is no clause.
    pub(crate) fn mark_all(&self, marks: &mut Marks) {
        for counted in self.counted.as_slice() {
            if let Some(number) = recorded(*counted) {
                marks.mark(number);
            }
        }
    }
}

/// The number that is counted from 1, or none for 0.
fn recorded(counted: u64) -> Option<NodeId>
    ensures { result ≡ recorded counted }
{
    if counted == 0 {
        None
    } else {
        Some(NodeId(counted - 1))
    }
}
