//! The dense table: a word of four bytes for each key.

ghost use Rattle.std.specs.Prelude.{◌≡◌, ◌<◌, ◌≤◌, ◌<ℤ◌, ℕ, pos, false, not, length, IfOk, None};
ghost use Rattle.std.specs.Prelude.{Some, slice_get, replicate};
ghost use Rattle.closure_model.specs.Keys.{IsKey, shape_of, key_of, ordinary_key, labelled_key};
ghost use Rattle.closure_model.specs.Tables.{weight_of, with_edge, no_edges, has_at_most, lowered};
ghost use Rattle.labelled_graph.specs.Words.{FitsWord, SaturatesHeld};

use labelled_graph::DenseRow;
use net_model::{Edge, LinkId, Network, PointId, Weight};
use std::alloc::{AllocError, Global};
use std::marker::Model;

/// A table of the labelled distance graph (Morris and Muscettola 2005, in this project's form) in
/// which each key has a word of four bytes. Contracts see it as the map from keys to weights that
/// it is, with the points and links that it is for.
#[derive(Drop)]
pub(crate) struct DenseTable {
    ordinary: Vec<DenseRow>,
    labelled: Vec<DenseRow>,
    activations: Vec<PointId>,
}

impl Model for DenseTable {
    ghost use Rattle.closure_model.specs.Tables.{Graph};
    ghost use Rattle.closure_model.specs.Codes.{graph_code};

    ghost Value = { Graph };

    ghost coded = { graph_code };

    ghost use Rattle.network_closure.specs.Dense.{dense_graph_of, IsDense};

    ghost view = { dense_graph_of };

    ghost invariant = { IsDense };
}

impl DenseTable {
    /// The table of a network without edges.
    pub(crate) fn without_edges(alloc: Global, net: &Network) -> Result<DenseTable, AllocError>
        ensures { IfOk result (λ table. table ≡ no_edges (shape_of net.now)) }
    {
        let points = net.points().len();
        let links = net.links();
        let mut activations = Vec::new(alloc);
        for link in links {
            activations.push(link.from)?;
        }
        Ok(DenseTable {
            ordinary: absent_rows(alloc, points, points)?,
            labelled: absent_rows(alloc, links.len(), points)?,
            activations,
        })
    }

    /// The weight of the ordinary edge between two points, if there is one.
    pub(crate) fn weight(&self, from: PointId, to: PointId) -> Option<Weight>
        requires from_point { from.0 < self.now.shape.points }
        requires to_point { to.0 < self.now.shape.points }
        ensures { result ≡ weight_of self.now (ordinary_key from to) }
    {
        let row = &self.ordinary[to.0 as usize];
        row.get(from)
    }

    /// The weight of the edge from a point that is labelled by a link, if there is one. It ends in
    /// the point in which the link begins.
    pub(crate) fn upper(&self, from: PointId, link: LinkId) -> Option<Weight>
        requires from_point { from.0 < self.now.shape.points }
        requires link { link.0 < length self.now.shape.activations }
        ensures { (to : PointId) → slice_get self.now.shape.activations link.0 ≡ Some to
            → result ≡ weight_of self.now (labelled_key from to link) }
    {
        let row = &self.labelled[link.0 as usize];
        row.get(from)
    }

    /// The weight of the key of an edge, if it has one.
    pub(crate) fn weight_at(&self, edge: &Edge) -> Option<Weight>
        requires { IsKey self.now.shape (key_of edge.now) }
        ensures { result ≡ weight_of self.now (key_of edge.now) }
    {
        match edge.label {
            None => self.weight(edge.from, edge.to),
            Some(label) => self.upper(edge.from, label),
        }
    }

    /// Gives the key of an edge its weight if the key has none or a greater one, and says whether
    /// it did. Nothing else changes.
    pub(crate) fn lower_to(&mut self, edge: &Edge) -> bool
        requires key { IsKey self.old.shape (key_of edge.now) }
        requires weight { FitsWord edge.now.weight }
        ensures improved { result ≡ not (has_at_most self.old edge.now) }
        ensures lowered { self.new ≡ lowered self.old edge.now }
    {
        let has_at_most = self
            .weight_at(edge)
            .is_some_and(|weight| weight <= edge.weight);
        if !has_at_most {
            self.put(edge);
        }
        !has_at_most
    }

    /// Whether an ordinary edge from a point of a range, with a negative edge after it, may make an
    /// unsaturated edge.
    pub(crate) fn improves_before(&self, edge: &Edge, from: u32, end: u32) -> bool
        requires key { IsKey self.now.shape (key_of edge.now) }
        requires negative { edge.now.weight <ℤ pos 0 }
        requires weight { FitsWord edge.now.weight }
        requires range { end ≤ self.now.shape.points }
        ensures { result ≡ false → (first : PointId) → from ≤ first.0 → first.0 < end
            → SaturatesHeld (weight_of self.now (ordinary_key first edge.now.from))
            (weight_of self.now (record {
              to = edge.now.to;
              from = first;
              label = edge.now.label;
            })) edge.now.weight }
    {
        let firsts = &self.ordinary[edge.from.0 as usize];
        match edge.label {
            None => {
                let row = &self.ordinary[edge.to.0 as usize];
                firsts.improves_in(row, from as usize, end as usize, edge.weight)
            }
            Some(label) => {
                let row = &self.labelled[label.0 as usize];
                firsts.improves_in(row, from as usize, end as usize, edge.weight)
            }
        }
    }

    /// Sets the weight of the key of an edge.
    fn put(&mut self, edge: &Edge)
        requires key { IsKey self.old.shape (key_of edge.now) }
        requires weight { FitsWord edge.now.weight }
        ensures { self.new ≡ with_edge self.old edge.now }
    {
        match edge.label {
            None => {
                let row = &mut self.ordinary[edge.to.0 as usize];
                row.set(edge.from, edge.weight);
            }
            Some(label) => {
                let row = &mut self.labelled[label.0 as usize];
                row.set(edge.from, edge.weight);
            }
        }
    }
}

/// Rows without weights.
fn absent_rows(alloc: Global, count: usize, points: usize) -> Result<Vec<DenseRow>, AllocError>
    ensures { IfOk result (λ rows. rows.items ≡ replicate count (replicate points None)) }
{
    let mut rows = Vec::new(alloc);
    for _row in 0..count {
        rows.push(DenseRow::absent(alloc, points)?)?;
    }
    Ok(rows)
}
