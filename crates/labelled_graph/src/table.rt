//! The table of the labelled distance graph: a row for each point.

ghost use Rattle.std.specs.Prelude.{◌≡◌, ◌<◌, ◌≤◌, ◌<ℤ◌, pos, false, not, length, fold, map};
ghost use Rattle.std.specs.Prelude.{filter, IfOk, IsSome, OnOk, OnErr, Some, slice_get};
ghost use Rattle.std.specs.Prelude.{slice_index_or};
ghost use Rattle.std.specs.List.{All, enumerate_from, range_with_len};
ghost use Rattle.net_model.specs.Limits.{most_links, IsWeight};
ghost use Rattle.net_model.specs.Rules.{bound_edge, link_edge};
ghost use Rattle.closure_model.specs.Keys.{IsKey, shape_of, key_of, ordinary_key, labelled_key};
ghost use Rattle.closure_model.specs.ReferenceRow.{ordinary_into, with_made};
ghost use Rattle.closure_model.specs.Tables.{weight_of, row_of, with_edge, without_key, no_edges};
ghost use Rattle.closure_model.specs.Tables.{has_at_most, lowered, base_table, IsFor, IsGraph};
ghost use Rattle.labelled_graph.specs.Changes.{IsEdgeFor};
ghost use Rattle.labelled_graph.specs.Entries.{edge_into, is_ordinary};
ghost use Rattle.labelled_graph.specs.MergedRows.{no_shape, AreMadeFor};
ghost use Rattle.labelled_graph.specs.Rows.{empty_row};
ghost use Rattle.labelled_graph.specs.Words.{held, AllFitWords, AreWordsOfColumn, FitsWord};
ghost use Rattle.labelled_graph.specs.Words.{SaturatesHeld};

use crate::entry::Entry;
use crate::ordered_entries::{ordered, rise};
use crate::row::Row;
use closure_model::rows::Made;
use net_model::{Bound, Edge, Link, LinkId, Network, PointId, Weight, bound_edge, link_edge};
use std::alloc::{AllocError, Global};
use std::marker::Model;

/// A table of the labelled distance graph (Morris and Muscettola 2005, in this project's form): a
/// finite map from keys to weights. A key is a source and a target, for an ordinary edge, or a
/// source and a label, which is a link, for an upper-case edge; that ends where the link begins.
/// Contracts see it as that map with the points and links that it is for. For each point it keeps
/// the keys that have a weight and whose edges end there, in their order, in 16 bytes each; a point
/// without such keys takes the memory of an empty list. The list of a point grows by a quarter, so
/// an entry takes at most 20 bytes; a list from which entries were taken keeps its capacity. Once
/// it has more than a twelfth as many entries as there are points a word of four bytes for each
/// point is kept too, so 24 bytes an entry if the list is full. That words are kept only then is no
/// clause.
#[derive(Debug, Drop)]
pub struct Table {
    rows: Vec<Row>,
    activations: Vec<PointId>,
}

impl Model for Table {
    ghost use Rattle.closure_model.specs.Tables.{Graph};
    ghost use Rattle.closure_model.specs.Codes.{graph_code};

    ghost Value = { Graph };

    ghost coded = { graph_code };

    ghost use Rattle.labelled_graph.specs.StoredRows.{graph_of, IsStoredTable};

    ghost view = { graph_of };

    ghost invariant = { IsStoredTable };
}

/// From so many edges on, those that a row made come into a table by going over its row once. Fewer
/// come one after another, which moves less.
const MANY: usize = 4;

impl Table {
    /// The table of no points. It takes no memory.
    pub fn empty(alloc: Global) -> Table
        ensures { result ≡ no_edges no_shape }
    {
        Table {
            rows: Vec::new(alloc),
            activations: Vec::new(alloc),
        }
    }

    /// The base table of a network: for each key the least weight of the edges of its bounds and
    /// links. `AllocError` comes only for want of memory.
    pub fn of(alloc: Global, net: &Network) -> Result<Table, AllocError>
        ensures base { IfOk result (λ table. table ≡ base_table net.now) }
        ensures shape { IfOk result (IsFor net.now) }
        ensures sound { IfOk result IsGraph }
    {
        let mut table = Table::without_edges(alloc, net)?;
        table.lower_to_bounds(net.bounds())?;
        table.lower_to_links(net.links())?;
        Ok(table)
    }

    /// The table of a network without edges. `AllocError` comes only for want of memory.
    pub fn without_edges(alloc: Global, net: &Network) -> Result<Table, AllocError>
        ensures { IfOk result (λ table. table ≡ no_edges (shape_of net.now)) }
    {
        let points = net.points();
        let links = net.links();
        let mut activations = Vec::new(alloc);
        for link in links {
            activations.push(link.from)?;
        }
        let rows = empty_rows(alloc, points.len() as u32)?;
        Ok(Table { rows, activations })
    }

    /// Every table is sound. This does nothing: a body calls it if its proof needs the law.
    pub fn sound(&self)
        ensures { IsGraph self.now }
    {
        let _ = &self.rows;
    }

    /// The weight of the ordinary edge between two points, and `None` exactly if there is none. It
    /// takes no memory.
    pub fn weight(&self, from: PointId, to: PointId) -> Option<Weight>
        requires from_point { from.0 < self.now.shape.points }
        requires to_point { to.0 < self.now.shape.points }
        ensures weight { result ≡ weight_of self.now (ordinary_key from to) }
        ensures sound { IsGraph self.now }
    {
        let row = &self.rows[to.0 as usize];
        row.get(from, None)
    }

    /// The weight of the edge from a point that is labelled by a link, which ends in the point in
    /// which the link begins, and `None` exactly if there is none. It takes no memory.
    pub fn upper(&self, from: PointId, link: LinkId) -> Option<Weight>
        requires from_point { from.0 < self.now.shape.points }
        requires link { link.0 < length self.now.shape.activations }
        ensures weight { (to : PointId) → slice_get self.now.shape.activations link.0 ≡ Some to
            → result ≡ weight_of self.now (labelled_key from to link) }
        ensures sound { IsGraph self.now }
    {
        let to = self.activations[link.0 as usize];
        let row = &self.rows[to.0 as usize];
        row.get(from, Some(link))
    }

    /// Whether the key of an edge has a weight that is no greater.
    pub fn has_at_most(&self, edge: &Edge) -> bool
        requires { IsKey self.now.shape (key_of edge.now) }
        ensures { result ≡ has_at_most self.now edge.now }
    {
        self.weight_at(edge)
            .is_some_and(|weight| weight <= edge.weight)
    }

    /// Gives the key of an edge its weight if the key has none or a greater one, and says whether
    /// it did. Nothing else changes. `AllocError` comes only for want of memory, and changes
    /// nothing.
    pub fn lower_to(&mut self, edge: &Edge) -> Result<bool, AllocError>
        requires key { IsKey self.old.shape (key_of edge.now) }
        requires weight { IsWeight edge.now.weight }
        ensures lowered { IfOk result (λ improved. (improved ≡ not (has_at_most self.old edge.now))
            × (self.new ≡ lowered self.old edge.now)) }
        ensures unchanged { OnErr result (self.new ≡ self.old) }
    {
        if self.has_at_most(edge) {
            return Ok(false);
        }
        let points = self.rows.len() as u32;
        let row = &mut self.rows[edge.to.0 as usize];
        row.set(edge, points)?;
        Ok(true)
    }

    /// Gives the keys of the edges that a row made for a target their weights, each of which is
    /// below what the table has (`AreMadeFor`). It goes over the edges that end in the target once,
    /// which is no clause. Nothing else changes. `AllocError` comes only for want of memory; then
    /// some of the edges may have come in.
    pub fn lower_all(&mut self, to: PointId, made: &[Made]) -> Result<(), AllocError>
        requires { AreMadeFor self.old to made.now }
        ensures { OnOk result (self.new ≡ with_made self.old made.now) }
    {
        if made.len() < MANY {
            return self.lower_each(made);
        }
        let new = ordered(*self.rows.allocator(), made)?;
        // Of two edges of one key the lesser stays.
        if !rise(new.as_slice()) {
            return self.lower_each(made);
        }
        let points = self.rows.len() as u32;
        let row = &mut self.rows[to.0 as usize];
        row.merge(new.as_slice(), points)
    }

    /// The same, edge by edge.
    fn lower_each(&mut self, made: &[Made]) -> Result<(), AllocError>
        requires { All (λ one. IsEdgeFor self.old.shape one.edge) made.now }
        ensures { OnOk result (self.new ≡ with_made self.old made.now) }
    {
        for one in made {
            self.lower_to(&one.edge)?;
        }
        Ok(())
    }

    /// Sets the weight of a key that has one. Nothing else changes. It takes no memory.
    pub fn raise_to(&mut self, edge: &Edge)
        requires present { IsSome (weight_of self.old (key_of edge.now)) }
        requires weight { IsWeight edge.now.weight }
        ensures { self.new ≡ with_edge self.old edge.now }
    {
        let row = &mut self.rows[edge.to.0 as usize];
        row.replace(edge);
    }

    /// Takes away the weight of a key that has one. Nothing else changes. It takes no memory.
    pub fn clear(&mut self, edge: &Edge)
        requires { IsSome (weight_of self.old (key_of edge.now)) }
        ensures { self.new ≡ without_key self.old (key_of edge.now) }
    {
        let row = &mut self.rows[edge.to.0 as usize];
        row.remove(edge);
    }

    /// The words of the ordinary edges that end in a point, by the points in which they begin. A
    /// word is the weight itself if it fits, the greatest if there is none, and else the nearest.
    /// If few edges end there none are kept: there may be fewer words than points. It takes no
    /// memory.
    pub fn words(&self, to: PointId) -> &[i32]
        requires { to.0 < self.now.shape.points }
        ensures { AreWordsOfColumn self.now to None result.now }
    {
        let row = &self.rows[to.0 as usize];
        row.words()
    }

    /// Whether the weight of an ordinary edge from a point of a range, counted as 0 if it is below,
    /// plus that of a negative edge after it may be less than what words hold at the point. If the
    /// answer is no, and every weight of the table fits a word (`AllFitWords`), it is not less. The
    /// answer may be yes whenever the table keeps no words of the edges that end where the edge
    /// begins; that it is no whenever it could be is no clause.
    pub fn improves_before(&self, edge: &Edge, there: &[i32], from: u32, end: u32) -> bool
        requires begins { edge.now.from.0 < self.now.shape.points }
        requires negative { edge.now.weight <ℤ pos 0 }
        requires weight { FitsWord edge.now.weight }
        ensures { AllFitWords self.now → result ≡ false → (first : PointId) → from ≤ first.0
            → first.0 < end → SaturatesHeld (weight_of self.now (ordinary_key first edge.now.from))
            (held (slice_index_or there.now first.0 (pos 0))) edge.now.weight }
    {
        let row = &self.rows[edge.from.0 as usize];
        row.improves_before(there, from as usize, end as usize, edge.weight)
    }

    /// The entries of the edges that end in a point, in the order of their keys: by the number of
    /// the point in which they begin, the ordinary edge before the labelled ones, those by the
    /// number of their label. It takes no memory.
    pub fn entries(&self, to: PointId) -> &[Entry]
        requires { to.0 < self.now.shape.points }
        ensures row { map (edge_into to) result.now ≡ row_of self.now to }
        ensures ordinary { map (edge_into to) (filter is_ordinary result.now) ≡ ordinary_into
            self.now to }
        ensures sound { IsGraph self.now }
    {
        let row = &self.rows[to.0 as usize];
        row.entries()
    }

    /// The edges that end in a point, in the order of their keys, as `entries` has them.
    /// `AllocError` comes only for want of memory.
    pub fn row_into(&self, alloc: Global, target: PointId) -> Result<Vec<Edge>, AllocError>
        requires { target.0 < self.now.shape.points }
        ensures { IfOk result (λ row. row.items ≡ row_of self.now target) }
    {
        let entries = self.entries(target);
        let mut row = Vec::new(alloc);
        for entry in entries {
            row.push(entry.edge_into(target))?;
        }
        Ok(row)
    }

    /// The same table once more. `AllocError` comes only for want of memory.
    pub fn copy(&self, alloc: Global) -> Result<Table, AllocError>
        ensures { IfOk result (λ table. table ≡ self.now) }
    {
        let rows = copied_rows(alloc, self.rows.as_slice())?;
        let mut activations = Vec::new(alloc);
        activations.extend_from_slice(self.activations.as_slice())?;
        Ok(Table { rows, activations })
    }

    fn lower_to_bounds(&mut self, bounds: &[Bound]) -> Result<(), AllocError>
        requires { All (λ bound. IsEdgeFor self.old.shape (bound_edge bound)) bounds.now }
        ensures { OnOk result (self.new ≡ fold lowered self.old (map bound_edge bounds.now)) }
    {
        for bound in bounds {
            self.lower_to(&bound_edge(bound))?;
        }
        Ok(())
    }

    fn lower_to_links(&mut self, links: &[Link]) -> Result<(), AllocError>
        requires sound { All (λ e. IsEdgeFor self.old.shape (link_edge (record { 0 = e.0 }) e.1))
            (enumerate_from 0 links.now) }
        requires few { length links.now ≤ most_links }
        ensures { OnOk result (self.new ≡ fold lowered self.old
            (map (λ e. link_edge (record { 0 = e.0 }) e.1) (enumerate_from 0 links.now))) }
    {
        for (place, link) in links.iter().enumerate() {
            self.lower_to(&link_edge(LinkId(place as u32), link))?;
        }
        Ok(())
    }

    /// The weight of the key of an edge, if it has one.
    fn weight_at(&self, edge: &Edge) -> Option<Weight>
        requires { IsKey self.now.shape (key_of edge.now) }
        ensures { result ≡ weight_of self.now (key_of edge.now) }
    {
        match edge.label {
            None => self.weight(edge.from, edge.to),
            Some(label) => self.upper(edge.from, label),
        }
    }
}

/// The rows of so many points, without edges.
fn empty_rows(alloc: Global, points: u32) -> Result<Vec<Row>, AllocError>
    ensures { IfOk result (λ rows. rows.items ≡ map empty_row (range_with_len 0 points)) }
{
    let mut rows = Vec::new(alloc);
    for point in 0..points {
        rows.push(Row::empty(alloc, PointId(point)))?;
    }
    Ok(rows)
}

fn copied_rows(alloc: Global, rows: &[Row]) -> Result<Vec<Row>, AllocError>
    ensures { IfOk result (λ copied. copied.items ≡ rows.now) }
{
    let mut copied = Vec::new(alloc);
    for row in rows {
        copied.push(row.copy(alloc)?)?;
    }
    Ok(copied)
}
