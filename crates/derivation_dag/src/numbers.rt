//! The numbers of nodes by the keys of their edges: in a square, or found by hash.

ghost use Rattle.std.specs.Prelude.{◌≡◌, ◌≢◌, ◌<◌, IfOk, OnOk};
ghost use Rattle.closure_model.specs.Keys.{Key, key_of};
ghost use Rattle.derivation_dag.specs.Places.{recorded};
ghost use Rattle.derivation_dag.specs.Numbers.{number_of, AreSame, HasCapacity, IsWithout};

use crate::key::EdgeKey;
use crate::marks::Marks;
use crate::square::Square;
use closure_model::NodeId;
use net_model::Edge;
use std::alloc::{AllocError, Global};
use std::collections::HashMap;

/// A number of a node for each key that has one. An ordinary key between the points for which it is
/// made has a place of its own; any other is found by its hash.
#[derive(Debug, Drop)]
pub(crate) struct Numbers {
    ordinary: Square,
    others: HashMap<EdgeKey, NodeId>,
}

impl Numbers {
    /// No numbers, and no places. It takes no memory.
    pub(crate) fn new(alloc: Global) -> Numbers
        ensures { IsWithout result }
    {
        Numbers {
            ordinary: Square::empty(alloc),
            others: HashMap::new(alloc),
        }
    }

    /// No numbers, with places for ordinary keys between so many points. `AllocError` comes only
    /// for want of memory.
    pub(crate) fn of(alloc: Global, points: u32) -> Result<Numbers, AllocError>
        ensures { IfOk result IsWithout }
    {
        Ok(Numbers {
            ordinary: Square::of(alloc, points)?,
            others: HashMap::new(alloc),
        })
    }

    /// The number of the key of an edge, if it has one.
    pub(crate) fn get(&self, edge: &Edge) -> Option<NodeId>
        ensures { result ≡ number_of self.now (key_of edge.now) }
    {
        match self.ordinary.place_of(edge) {
            Some(place) => self.ordinary.get(place),
            None => self.others.get(&EdgeKey::of(edge)).copied(),
        }
    }

    /// Reserves capacity for the number of the key of an edge. No number changes. `AllocError`
    /// comes only for want of memory.
    pub(crate) fn reserve(&mut self, edge: &Edge) -> Result<(), AllocError>
        ensures same { AreSame self.old self.new }
        ensures spare_capacity { OnOk result (HasCapacity self.new (key_of edge.now)) }
    {
        if self.ordinary.place_of(edge).is_none() {
            self.others.reserve(1)?;
        }
        Ok(())
    }

    /// Sets the number of the key of an edge, which is given counted from 1. There is capacity for
    /// it.
    pub(crate) fn put(&mut self, edge: &Edge, counted: u64)
        requires spare_capacity { HasCapacity self.old (key_of edge.now) }
        requires some { 0 < counted }
        ensures here { number_of self.new (key_of edge.now) ≡ recorded counted }
        ensures others { (key : Key) → key ≢ key_of edge.now
            → number_of self.new key ≡ number_of self.old key }
    {
        match self.ordinary.place_of(edge) {
            Some(place) => self.ordinary.set(place, counted),
            None => {
                let put: Result<_, _> = self.others.insert(EdgeKey::of(edge), NodeId(counted - 1));
                put.unwrap();
            }
        }
    }

    /// Marks all numbers, which is no clause.
    pub(crate) fn mark_all(&self, marks: &mut Marks) {
        self.ordinary.mark_all(marks);
        for number in self.others.values() {
            marks.mark(*number);
        }
    }
}
