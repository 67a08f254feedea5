//! A store of derivations that gives up the nodes on which nothing rests any more.

ghost use Rattle.std.specs.Prelude.{◌≡◌, [], IfOk, IfSome};
ghost use Rattle.closure_model.specs.Derivations.{StandsOn, base_support};
ghost use Rattle.closure_model.specs.Tables.{no_edges};
ghost use Rattle.labelled_graph.specs.MergedRows.{no_shape};
ghost use Rattle.derivation_dag.specs.Pruned.{AreAncestorsIn};

use crate::found::are_ancestors;
use crate::node_list::NodeList;
use crate::plain::{push_bounds, push_links, take_node, take_row};
use crate::pruned_dag::{Numbered, PrunedDag};
use crate::supports::{MadeRow, Supports};
use closure_model::{Node, NodeId};
use labelled_graph::Table;
use net_model::{Edge, Network, PointId};
use std::alloc::{AllocError, Global};
use std::marker::Model;

/// So many nodes are held before any are given up.
const FEW: usize = 1_000;

/// A derivation list with the table of the least edges of its nodes. It gives up, when a round
/// begins, the nodes that are no node of their keys and on which no such node rests, so it takes
/// memory for those alone that the rounds still need; which are given up is no clause. Contracts
/// see it as the whole list and the table. A node takes 56 bytes.
#[derive(Debug, Drop)]
pub struct Pruned {
    list: PrunedDag,
    table: Table,
    /// The target of the last row that came.
    last: PointId,
    /// How many nodes are held before the next are given up.
    due: usize,
}

impl Model for Pruned {
    ghost use Rattle.closure_model.specs.Derivations.{Support};
    ghost use Rattle.derivation_dag.specs.SupportCode.{support_code};

    ghost Value = { Support };

    ghost coded = { support_code };

    ghost use Rattle.derivation_dag.specs.SupportedTables.{IsSupported};

    ghost view = { λ pruned. record { nodes = pruned.list; table = pruned.table } };

    ghost invariant = { λ pruned. IsSupported
        (record { nodes = pruned.list; table = pruned.table }) };
}

impl Pruned {
    /// The base nodes and the base table of a network, as `Plain::of` has them. They stand on the
    /// network. `AllocError` comes only for want of memory.
    pub fn of(alloc: Global, net: &Network) -> Result<Pruned, AllocError>
        ensures base { IfOk result (λ pruned. pruned ≡ base_support net.now) }
        ensures stands { IfOk result (StandsOn net.now) }
    {
        net.sound();
        let table = Table::of(alloc, net)?;
        let mut list = PrunedDag::of(alloc, net.points().len() as u32)?;
        push_bounds(&mut list, net)?;
        push_links(&mut list, net)?;
        Ok(Pruned {
            list,
            table,
            last: PointId(0),
            due: FEW,
        })
    }

    /// The given nodes of the list and all on which they rest, in order of making, each once, if
    /// they are held. `AllocError` comes only for want of memory.
    pub fn ancestors(
        &self,
        alloc: Global,
        ids: &[NodeId],
    ) -> Result<Option<Vec<Numbered>>, AllocError>
        ensures { IfOk result (λ held. IfSome held (λ found. AreAncestorsIn self.now.nodes ids.now
            found.items)) }
    {
        let found = self.list.ancestors(alloc, ids)?;
        if are_ancestors(alloc, found.as_slice(), ids)? {
            Ok(Some(found))
        } else {
            Ok(None)
        }
    }

    /// If a row for the target begins a round, and enough nodes came, those are given up that are
    /// needed no longer: the first premises of the rows of a round are the nodes of their keys when
    /// it begins.
    fn before_row(&mut self, target: PointId) -> Result<(), AllocError>
        ensures { self.new ≡ self.old }
    {
        let begins = target.0 <= self.last.0;
        self.last = target;
        if begins && self.list.held() >= self.due {
            self.list.give_up()?;
            self.due = self.list.held().saturating_mul(2).max(FEW);
        }
        Ok(())
    }
}

impl Supports for Pruned {
    ghost support = { λ pruned. pruned };

    fn table(&self) -> &Table {
        &self.table
    }

    fn newest(&self, edge: &Edge) -> Option<NodeId> {
        self.list.newest(edge)
    }

    fn accept(&mut self, net: &Network, node: Node) -> Result<NodeId, AllocError> {
        net.sound();
        let first = self.list.len();
        match take_node(net, &mut self.list, &mut self.table, node, first) {
            Ok(id) => Ok(id),
            Err(error) => {
                lose(&mut self.list, &mut self.table);
                Err(error)
            }
        }
    }

    fn accept_row(&mut self, net: &Network, row: &MadeRow<'_>) -> Result<(), AllocError> {
        net.sound();
        self.before_row(row.target)?;
        match take_row(net, &mut self.list, &mut self.table, row) {
            Ok(()) => Ok(()),
            Err(error) => {
                lose(&mut self.list, &mut self.table);
                Err(error)
            }
        }
    }
}

/// Empties a list and a table: after a failure the list may have nodes whose edges are not in the
/// table.
fn lose(list: &mut PrunedDag, table: &mut Table)
    ensures list { list.new ≡ [] }
    ensures table { table.new ≡ no_edges no_shape }
{
    let alloc = list.allocator();
    *list = PrunedDag::new(alloc);
    *table = Table::empty(alloc);
}
