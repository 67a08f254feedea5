//! The least weight of each key among entries.

ghost use Rattle.std.specs.Prelude.{◌≡◌, ◌<◌, ◌≤◌, ◌<ℤ◌, ℕ, List, pos, length, IfOk, OnOk};
ghost use Rattle.std.specs.Prelude.{replicate, unsigned_abs};
ghost use Rattle.net_model.specs.Limits.{most_weight};
ghost use Rattle.net_model.specs.Edges.{IsEdge};
ghost use Rattle.net_model.specs.Network.{Plan};
ghost use Rattle.cert_checker.specs.Least.{IsSizedFor, IsSmallEdge, IsLeastTable, HasPlaceInTable};
ghost use Rattle.cert_checker.specs.Least.{IsPlacedBefore, absent, improves_in, least_of};
ghost use Rattle.cert_checker.specs.Least.{no_weights, row_in, row_of_words, with_entry};
ghost use Rattle.cert_checker.specs.Sound.{AreSound};
ghost use Rattle.cert_checker.specs.Tables.{stands_among};

use crate::row::WeightRow;
use crate::shown::ShownNetwork;
use net_model::Edge;
use std::alloc::{AllocError, Global};
use std::marker::Model;

/// The least weight of each key among entries. Contracts see it as its rows of words.
#[derive(Drop)]
pub(crate) struct LeastWeights {
    ordinary: Vec<WeightRow>,
    labelled: Vec<WeightRow>,
}

impl Model for LeastWeights {
    ghost use Rattle.cert_checker.specs.Least.{Weights};

    ghost Value = { Weights };

    ghost view = { λ least. record {
      ordinary = least.ordinary.items;
      labelled = least.labelled.items;
    } };
}

impl LeastWeights {
    /// Those of edges of a network.
    pub(crate) fn of(
        alloc: Global,
        net: &ShownNetwork,
        edges: &[Edge],
    ) -> Result<LeastWeights, AllocError>
        requires { AreSound net.now edges.now }
        ensures least { IfOk result (λ least. least ≡ least_of net.now edges.now) }
        ensures shape { IfOk result (IsSizedFor (length net.now.points) (length net.now.links)) }
    {
        let mut least = LeastWeights::without_entries(alloc, net)?;
        for edge in edges {
            least.lower(alloc, edge)?;
        }
        Ok(least)
    }

    fn without_entries(alloc: Global, net: &ShownNetwork) -> Result<LeastWeights, AllocError>
        ensures { IfOk result (λ least. least ≡ no_weights (length net.now.points)
            (length net.now.links)) }
    {
        let points = net.points().len();
        Ok(LeastWeights {
            ordinary: absent_rows(alloc, points, points as u32)?,
            labelled: absent_rows(alloc, net.link_count(), points as u32)?,
        })
    }

    /// Lowers the key of an edge to its weight.
    fn lower(&mut self, alloc: Global, edge: &Edge) -> Result<(), AllocError>
        requires { HasPlaceInTable self.old edge.now }
        ensures { OnOk result (self.new ≡ with_entry self.old edge.now) }
    {
        match edge.label {
            None => {
                let row = &mut self.ordinary[edge.to.0 as usize];
                row.lower(alloc, edge)
            }
            Some(label) => {
                let row = &mut self.labelled[label.0 as usize];
                row.lower(alloc, edge)
            }
        }
    }

    /// The row of the edges that end where an edge ends, or that have its label.
    fn row_of_words(&self, edge: &Edge) -> &WeightRow
        requires { HasPlaceInTable self.now edge.now }
        ensures { result.now ≡ row_of_words self.now edge.now }
    {
        match edge.label {
            None => &self.ordinary[edge.to.0 as usize],
            Some(label) => &self.labelled[label.0 as usize],
        }
    }

    /// Whether an edge stands among the entries, of which these are the least weights.
    pub(crate) fn has_word_at_most(&self, edge: &Edge) -> bool
        requires { HasPlaceInTable self.now edge.now }
        ensures { (net : Plan) (first : ℕ) (edges : List Edge)
            → IsLeastTable net first edges self.now → IsSmallEdge net edge.now
            → result ≡ stands_among edges edge.now }
    {
        self.row_of_words(edge).get(edge.from) <= edge.weight
    }

    /// Whether, at some point, the word of the row of the edges that end where a negative edge
    /// begins, counted as 0 if it is below, and then that edge go below the word of its own row.
    pub(crate) fn improves_before(&self, second: &Edge) -> bool
        requires placed { HasPlaceInTable self.now second.now }
        requires before { IsPlacedBefore self.now second.now }
        requires negative { second.now.weight <ℤ pos 0 }
        requires weight { unsigned_abs second.now.weight ≤ most_weight }
        ensures { result ≡ improves_in (row_in self.now.ordinary second.now.from.0)
            (row_of_words self.now second.now) second.now.weight }
    {
        let firsts = &self.ordinary[second.from.0 as usize];
        firsts.improves_in(self.row_of_words(second), second)
    }
}

/// Rows without weights.
fn absent_rows(alloc: Global, count: usize, points: u32) -> Result<Vec<WeightRow>, AllocError>
    ensures { IfOk result (λ rows. rows.items ≡ replicate count (replicate points absent)) }
{
    let mut rows = Vec::new(alloc);
    for _row in 0..count {
        rows.push(WeightRow::absent(alloc, points))?;
    }
    Ok(rows)
}
