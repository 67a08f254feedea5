//! A row in progress: the edges that end in one point, while it is relaxed.

ghost use Rattle.std.specs.Prelude.{◌≡◌, ◌<◌, ◌≤ℤ◌, ◌<ℤ◌, ◌+ℤ◌, pos, length, IfOk};
ghost use Rattle.std.specs.Prelude.{IfSome, IsPermutation};
ghost use Rattle.std.specs.List.{All};
ghost use Rattle.net_model.specs.Network.{Plan};
ghost use Rattle.net_model.specs.declared.ids.PointId.{PointId};
ghost use Rattle.closure_model.specs.Derivable.{IsDerivable};
ghost use Rattle.labelled_graph.specs.Words.{FitsWord};
ghost use Rattle.network_closure.specs.Saturation.{IsPartialClosure};
ghost use Rattle.forward_closure.specs.Rows.{row_edge_into, AreDerivedInto, IsFirstInto};

use crate::least_words::{LeastWords, lower_word};
use crate::source::Source;
use labelled_graph::Table;
use net_model::{Edge, LinkId, Network, PointId};
use network_closure::{over_link, without_label};
use std::alloc::{AllocError, Global};
use std::cmp::Reverse;
use std::collections::BinaryHeap;
use std::marker::Model;

/// An edge of a row, in 16 bytes: where it begins, its label if it has one, and its weight. The row
/// says where it ends.
#[derive(Clone, Copy, Debug)]
pub(crate) struct RowEdge {
    pub from: PointId,
    pub label: Option<LinkId>,
    pub weight: i32,
}

impl RowEdge {
    /// What a row keeps of an edge.
    fn of(edge: &Edge) -> RowEdge
        requires { FitsWord edge.now.weight }
        ensures { row_edge_into edge.now.to result ≡ edge.now }
    {
        RowEdge {
            from: edge.from,
            label: edge.label,
            weight: edge.weight as i32,
        }
    }

    /// The edge in the row of a point, in which it ends.
    pub(crate) fn edge_into(&self, to: PointId) -> Edge
        ensures { result ≡ row_edge_into to self.now }
    {
        Edge {
            from: self.from,
            to,
            label: self.label,
            weight: self.weight as i64,
        }
    }
}

/// The queued negative edges of a row, the least first: the weight of each, and its place.
type EdgeQueue = BinaryHeap<Reverse<(i32, usize)>>;

/// A row in progress: the derivable edges that it was lowered to, of which those of one key fall,
/// and the queue of the negative ones that are not settled. Contracts see its network, and the
/// point in which its edges end.
#[derive(Drop)]
pub(crate) struct OpenRow<'a> {
    net: &'a Network,
    target: PointId,
    edges: Vec<RowEdge>,
    queue: EdgeQueue,
}

impl<'a> Model for OpenRow<'a> {
    ghost use Rattle.forward_closure.specs.Rows.{RowOf, AreDerivedInto};

    ghost Value = { RowOf };

    ghost view = { λ row. record { net = row.net.now; target = row.target } };

    ghost invariant = { λ row. AreDerivedInto row.net.now row.target row.edges.items };
}

impl<'a> OpenRow<'a> {
    /// The row of a point, with the edges that a table has for it.
    pub(crate) fn begun(
        alloc: Global,
        net: &'a Network,
        target: PointId,
        table: &Table,
        words: &mut LeastWords,
    ) -> Result<OpenRow<'a>, AllocError>
        requires table { IsPartialClosure net.now table.now }
        requires target { target.0 < length net.now.points }
        ensures { IfOk result (λ row. row ≡ record { net = net.now; target = target }) }
    {
        let mut row = OpenRow {
            net,
            target,
            edges: Vec::new(alloc),
            queue: BinaryHeap::new(alloc),
        };
        let edges = table.row_into(alloc, target)?;
        row.relax_all(words, edges.as_slice())?;
        Ok(row)
    }

    /// The point in which its edges end.
    pub(crate) fn target(&self) -> PointId
        ensures { result ≡ self.now.target }
    {
        self.target
    }

    fn relax_all(&mut self, words: &mut LeastWords, edges: &[Edge]) -> Result<(), AllocError>
        requires { All (IsDerivable self.old.net) edges.now }
        ensures { self.new ≡ self.old }
    {
        for edge in edges {
            self.relax(words, edge)?;
        }
        Ok(())
    }

    /// Relaxes what a rule gave, if it gave something.
    fn relax_given(&mut self, words: &mut LeastWords, given: Option<Edge>) -> Result<(), AllocError>
        requires { IfSome given (IsDerivable self.old.net) }
        ensures { self.new ≡ self.old }
    {
        match given {
            None => Ok(()),
            Some(edge) => self.relax(words, &edge),
        }
    }

    /// Keeps a derivable edge if it ends in the row's point and is below what the row has.
    fn relax(&mut self, words: &mut LeastWords, edge: &Edge) -> Result<(), AllocError>
        requires { IsDerivable self.old.net edge.now }
        ensures { self.new ≡ self.old }
    {
        let net = self.net;
        net.sound();
        if edge.to == self.target {
            let edge = RowEdge::of(edge);
            if words.lower_to(&edge) {
                self.keep(edge)?;
            }
        }
        Ok(())
    }

    /// Keeps an edge, which is queued if it is negative.
    fn keep(&mut self, edge: RowEdge) -> Result<(), AllocError>
        requires { IsDerivable self.old.net (row_edge_into self.old.target edge) }
        ensures { self.new ≡ self.old }
    {
        if edge.weight < 0 {
            self.queue.push(Reverse((edge.weight, self.edges.len())))?;
        }
        self.edges.push(edge)?;
        Ok(())
    }

    /// The next negative edge of the row: the least of those that are queued and have not been
    /// lowered since.
    pub(crate) fn next(&mut self, words: &LeastWords) -> Option<RowEdge>
        ensures row { self.new ≡ self.old }
        ensures edge { IfSome result (λ edge. IsDerivable self.old.net
            (row_edge_into self.old.target edge)) }
    {
        next_of(&mut self.queue, self.edges.as_slice(), words)
    }

    /// Relaxes whatever follows from a negative edge of the row: without its label, over a link,
    /// and after the first edges of the row of the point in which it begins.
    pub(crate) fn settle(
        &mut self,
        words: &mut LeastWords,
        firsts: &[Source],
        edge: &RowEdge,
    ) -> Result<(), AllocError>
        requires edge { IsDerivable self.old.net (row_edge_into self.old.target edge.now) }
        requires firsts { All (IsFirstInto self.old.net edge.now.from) firsts.now }
        ensures { self.new ≡ self.old }
    {
        let whole = edge.edge_into(self.target);
        let without = without_label(self.net, &whole);
        let over = over_link(self.net, &whole);
        self.relax_given(words, without)?;
        self.relax_given(words, over)?;
        if edge.weight < 0 {
            if let Some(words) = words.of_label(edge.label) {
                self.relax_after(words.as_mut_slice(), firsts, edge)?;
            }
        }
        Ok(())
    }

    /// Relaxes the edges over a first edge and then a negative one of the row.
    fn relax_after(
        &mut self,
        words: &mut [i32],
        firsts: &[Source],
        edge: &RowEdge,
    ) -> Result<(), AllocError>
        requires edge { IsDerivable self.old.net (row_edge_into self.old.target edge.now) }
        requires negative { edge.now.weight <ℤ pos 0 }
        requires firsts { All (IsFirstInto self.old.net edge.now.from) firsts.now }
        ensures { self.new ≡ self.old }
    {
        for first in firsts {
            let weight = weight_over(first, edge);
            if lower_word(words, first.from, weight) {
                self.keep(RowEdge {
                    from: first.from,
                    label: edge.label,
                    weight,
                })?;
            }
        }
        Ok(())
    }

    /// Relaxes what the removal of its label gives from each edge that is not negative.
    pub(crate) fn remove_labels(&mut self, words: &mut LeastWords) -> Result<(), AllocError>
        ensures { self.new ≡ self.old }
    {
        for place in 0..self.edges.len() {
            let given = self.without_label(place);
            self.relax_given(words, given)?;
        }
        Ok(())
    }

    /// What the removal of its label gives from the edge at a place, if that is not negative.
    fn without_label(&self, place: usize) -> Option<Edge>
        ensures { IfSome result (IsDerivable self.now.net) }
    {
        let edge = self.edges.get(place)?;
        if edge.weight < 0 {
            return None;
        }
        without_label(self.net, &edge.edge_into(self.target))
    }

    /// The least edge of each key of the row, in the order of the points in which they begin, in
    /// which a table takes them with the least moves. The words have no weights then.
    pub(crate) fn least(
        &self,
        alloc: Global,
        words: &mut LeastWords,
    ) -> Result<Vec<RowEdge>, AllocError>
        ensures { IfOk result (λ least. AreDerivedInto self.now.net self.now.target least.items) }
    {
        let mut least = standing(alloc, self.edges.as_slice(), words)?;
        put_in_order(&mut least);
        Ok(least)
    }

    /// Queues an edge again that is not settled, and takes the weights of the row from the words, so
    /// that another row may be relaxed.
    pub(crate) fn suspend_before(
        &mut self,
        words: &mut LeastWords,
        edge: RowEdge,
    ) -> Result<(), AllocError>
        requires { IsDerivable self.old.net (row_edge_into self.old.target edge) }
        ensures { self.new ≡ self.old }
    {
        self.keep(edge)?;
        for edge in &self.edges {
            words.clear(edge);
        }
        Ok(())
    }

    /// Gives the words its weights again.
    pub(crate) fn resume(&self, words: &mut LeastWords) {
        for edge in &self.edges {
            words.set(edge);
        }
    }

    /// Lowers a table to the negative edges of the row, and to what the removal of their labels
    /// gives.
    pub(crate) fn lower_to_negative(&self, table: &mut Table) -> Result<(), AllocError>
        requires { IsPartialClosure self.now.net table.old }
        ensures { IsPartialClosure self.now.net table.new }
    {
        lower_to_negative(table, self.net, self.target, self.edges.as_slice())
    }
}

/// The weight of the edge over a first edge and a negative one.
fn weight_over(first: &Source, edge: &RowEdge) -> i32
    requires first { pos 0 ≤ℤ first.now.weight }
    requires negative { edge.now.weight <ℤ pos 0 }
    ensures { result ≡ first.now.weight +ℤ edge.now.weight }
{
    first.weight + edge.weight
}

/// The first of the queued edges that the words have.
fn next_of(queue: &mut EdgeQueue, edges: &[RowEdge], words: &LeastWords) -> Option<RowEdge>
    ensures { (net : Plan) (to : PointId) → AreDerivedInto net to edges.now
        → IfSome result (λ edge. IsDerivable net (row_edge_into to edge)) }
{
    for _queued in 0..queue.len() {
        let Reverse((_, place)) = queue.pop()?;
        if let Some(edge) = edges.get(place) {
            if words.has(edge) {
                return Some(*edge);
            }
        }
    }
    None
}

/// The edges that the words have, each once; these are taken from the words.
fn standing(
    alloc: Global,
    edges: &[RowEdge],
    words: &mut LeastWords,
) -> Result<Vec<RowEdge>, AllocError>
    ensures { (net : Plan) (to : PointId) → AreDerivedInto net to edges.now
        → IfOk result (λ standing. AreDerivedInto net to standing.items) }
{
    let mut standing = Vec::with_capacity(alloc, edges.len())?;
    for edge in edges {
        if words.has(edge) {
            words.clear(edge);
            standing.push(*edge)?;
        }
    }
    Ok(standing)
}

/// Puts the edges of a row into the order of the points in which they begin.
fn put_in_order(edges: &mut Vec<RowEdge>)
    ensures { IsPermutation edges.old.items edges.new.items }
{
    edges.sort_unstable_by_key(|edge| edge.from.0);
}

/// Lowers a table to the negative edges of the row of a point, and to what the removal of their
/// labels gives.
fn lower_to_negative(
    table: &mut Table,
    net: &Network,
    target: PointId,
    edges: &[RowEdge],
) -> Result<(), AllocError>
    requires table { IsPartialClosure net.now table.old }
    requires edges { AreDerivedInto net.now target edges.now }
    ensures { IsPartialClosure net.now table.new }
{
    for edge in edges {
        if edge.weight < 0 {
            let edge = edge.edge_into(target);
            lower_to_given(table, net, Some(edge))?;
            lower_to_given(table, net, without_label(net, &edge))?;
        }
    }
    Ok(())
}

/// Lowers a table to the edges of the row of a point.
pub(crate) fn lower_to_row(
    table: &mut Table,
    net: &Network,
    target: PointId,
    edges: &[RowEdge],
) -> Result<(), AllocError>
    requires table { IsPartialClosure net.now table.old }
    requires edges { AreDerivedInto net.now target edges.now }
    ensures { IsPartialClosure net.now table.new }
{
    for edge in edges {
        lower_to_given(table, net, Some(edge.edge_into(target)))?;
    }
    Ok(())
}

/// Lowers a table to a derivable edge, if there is one.
fn lower_to_given(table: &mut Table, net: &Network, given: Option<Edge>) -> Result<(), AllocError>
    requires table { IsPartialClosure net.now table.old }
    requires given { IfSome given (IsDerivable net.now) }
    ensures { IsPartialClosure net.now table.new }
{
    match given {
        None => Ok(()),
        Some(edge) => lower_to(table, net, &edge),
    }
}

fn lower_to(table: &mut Table, net: &Network, edge: &Edge) -> Result<(), AllocError>
    requires table { IsPartialClosure net.now table.old }
    requires edge { IsDerivable net.now edge.now }
    ensures { IsPartialClosure net.now table.new }
{
    match table.lower_to(edge) {
        Ok(_) => Ok(()),
        Err(error) => Err(error),
    }
}
