//! The rows of a table as lists of sources.

ghost use Rattle.std.specs.Prelude.{◌≡◌, ◌<◌, ◌+◌, length, None, IfOk, OnOk};
ghost use Rattle.network_closure.specs.Saturation.{IsPartialClosure};
ghost use Rattle.forward_closure.specs.Sources.{source_of};
ghost use Rattle.forward_closure.specs.SparseRows.{rows_without_edges, rows_with, HaveRoomFor};
ghost use Rattle.forward_closure.specs.SparseRows.{AreRowsAmong, AreRowsOf};

use crate::source::Source;
use crate::source_lists::SourceLists;
use labelled_graph::Table;
use net_model::{Edge, Network, PointId};
use std::alloc::{AllocError, Global};

/// The rows of a table: for each point the ordinary edges into it, those of weight 0 or more apart
/// from the negative ones, and for each link the edges that it labels; 8 bytes for each edge.
#[derive(Drop)]
pub(crate) struct SparseRows {
    /// For each point the ordinary edges into it of weight 0 or more.
    pub(crate) firsts: SourceLists,
    /// For each point the negative ordinary edges into it.
    pub(crate) negative: SourceLists,
    /// For each link the edges that it labels.
    pub(crate) labelled: SourceLists,
}

impl SparseRows {
    /// The rows of a table. `AllocError` comes only for want of memory.
    pub(crate) fn of(alloc: Global, table: &Table, net: &Network) -> Result<SparseRows, AllocError>
        requires { IsPartialClosure net.now table.now }
        ensures { IfOk result (AreRowsOf net.now table.now) }
    {
        let mut rows = SparseRows::without_edges(alloc, net)?;
        for to in 0..net.points().len() as u32 {
            rows.add_row(table, net, PointId(to))?;
        }
        Ok(rows)
    }

    /// The rows of a table of a network without edges.
    fn without_edges(alloc: Global, net: &Network) -> Result<SparseRows, AllocError>
        ensures { IfOk result (λ rows. rows ≡ rows_without_edges net.now) }
    {
        let points = net.points().len();
        Ok(SparseRows {
            firsts: SourceLists::empty(alloc, points)?,
            negative: SourceLists::empty(alloc, points)?,
            labelled: SourceLists::empty(alloc, net.links().len())?,
        })
    }

    /// Adds each edge of a table into a point.
    fn add_row(&mut self, table: &Table, net: &Network, to: PointId) -> Result<(), AllocError>
        requires partial_closure { IsPartialClosure net.now table.now }
        requires to_point { to.0 < length net.now.points }
        requires rows { AreRowsAmong net.now table.now (λ edge. edge.to.0 < to.0) self.old }
        ensures { OnOk result (AreRowsAmong net.now table.now (λ edge. edge.to.0 < to.0 + 1)
            self.new) }
    {
        for entry in table.entries(to) {
            self.add(&entry.edge_into(to))?;
        }
        Ok(())
    }

    /// Adds an edge to its row.
    fn add(&mut self, edge: &Edge) -> Result<(), AllocError>
        requires { HaveRoomFor self.old edge.now }
        ensures { OnOk result (self.new ≡ rows_with self.old edge.now edge.now.label) }
    {
        let source = Source::of(edge);
        match edge.label {
            Some(label) => self.labelled.add(label.0 as usize, source),
            None => self.add_ordinary(edge, source),
        }
    }

    fn add_ordinary(&mut self, edge: &Edge, source: Source) -> Result<(), AllocError>
        requires room { HaveRoomFor self.old edge.now }
        requires source { source ≡ source_of edge.now }
        ensures { OnOk result (self.new ≡ rows_with self.old edge.now None) }
    {
        let to = edge.to.0 as usize;
        if edge.weight < 0 {
            self.negative.add(to, source)
        } else {
            self.firsts.add(to, source)
        }
    }
}
