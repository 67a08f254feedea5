//! The first edges of the rows that are made: their ordinary edges that are not negative.

ghost use Rattle.std.specs.Prelude.{◌≡◌, IfOk, IfSome};
ghost use Rattle.std.specs.List.{All};
ghost use Rattle.net_model.specs.Network.{Plan};
ghost use Rattle.net_model.specs.declared.ids.PointId.{PointId};
ghost use Rattle.closure_model.specs.Derivable.{IsDerivable};
ghost use Rattle.forward_closure.specs.Rows.{row_edge_into, AreDerivedInto, IsFirstInto};

use crate::open_row::RowEdge;
use crate::source::Source;
use net_model::{Network, PointId};
use std::alloc::{AllocError, Global};
use std::marker::Model;

/// For each point of a network the first edges of its row, once it is made: derivable ordinary
/// edges that are not negative, over which later rows are relaxed. Contracts see the network.
#[derive(Drop)]
pub(crate) struct FirstEdges<'a> {
    net: &'a Network,
    lists: Vec<Vec<Source>>,
}

impl<'a> Model for FirstEdges<'a> {
    ghost use Rattle.net_model.specs.Network.{Plan};
    ghost use Rattle.forward_closure.specs.Rows.{AreFirstEdges};

    ghost Value = { Plan };

    ghost view = { λ firsts. firsts.net.now };

    ghost invariant = { λ firsts. AreFirstEdges firsts.net.now firsts.lists.items };
}

impl<'a> FirstEdges<'a> {
    /// No first edges.
    pub(crate) fn none(alloc: Global, net: &'a Network) -> Result<FirstEdges<'a>, AllocError>
        ensures { IfOk result (λ firsts. firsts ≡ net.now) }
    {
        let mut lists = Vec::new(alloc);
        for _point in net.points() {
            lists.push(Vec::new(alloc))?;
        }
        Ok(FirstEdges { net, lists })
    }

    /// The first edges of the row of a point.
    pub(crate) fn into_point(&self, to: PointId) -> &[Source]
        ensures { All (IsFirstInto self.now to) result.now }
    {
        let place = to.0 as usize;
        if place < self.lists.len() {
            let list = &self.lists[place];
            list.as_slice()
        } else {
            &[]
        }
    }

    /// Sets the first edges of the row of a point.
    pub(crate) fn set(&mut self, to: PointId, list: Vec<Source>)
        requires { All (IsFirstInto self.old to) list.items }
        ensures { self.new ≡ self.old }
    {
        let place = to.0 as usize;
        if place < self.lists.len() {
            self.lists[place] = list;
        }
    }
}

/// The first edges among the edges of a row.
pub(crate) fn first_edges(alloc: Global, edges: &[RowEdge]) -> Result<Vec<Source>, AllocError>
    ensures { (net : Plan) (to : PointId) → AreDerivedInto net to edges.now
        → IfOk result (λ firsts. All (IsFirstInto net to) firsts.items) }
{
    let mut firsts = Vec::with_capacity(alloc, edges.len())?;
    for edge in edges {
        if let Some(first) = first_edge(edge) {
            firsts.push(first)?;
        }
    }
    firsts.shrink_to_fit();
    Ok(firsts)
}

/// The first edge that an edge of a row is, if it has no label and is not negative.
fn first_edge(edge: &RowEdge) -> Option<Source>
    ensures { (net : Plan) (to : PointId) → IsDerivable net (row_edge_into to edge.now)
        → IfSome result (IsFirstInto net to) }
{
    match edge.label {
        None if edge.weight >= 0 => Some(Source {
            from: edge.from,
            weight: edge.weight,
        }),
        _ => None,
    }
}
