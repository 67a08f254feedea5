//! A store of derivations that follows edits of the network.

ghost use Rattle.std.specs.Prelude.{◌≡◌, ◌+◌, ◌≤◌, IfOk};
ghost use Rattle.closure_model.specs.Derivations.{base_support, StandsOn};
ghost use Rattle.support_records.specs.FollowedStores.{IsFollowed};

use crate::kept_nodes::follow_into;
use crate::moves::Moves;
use closure_model::{Node, NodeId};
use derivation_dag::{Dag, MadeRow, Plain, Supports};
use labelled_graph::Table;
use net_model::{Edge, Edit, Network};
use std::alloc::{AllocError, Global};
use std::marker::Model;

/// How many nodes were kept, and how many withdrawn, when a store followed an edit.
#[derive(Clone, Copy, Debug, PartialEq, Eq)]
pub struct Withdrawn {
    pub kept: u64,
    pub withdrawn: u64,
}

impl Withdrawn {
    /// The report if so many of the earlier nodes are kept.
    fn counted(kept: u64, earlier: u64) -> Withdrawn
        requires { kept ≤ earlier }
        ensures kept { result.kept ≡ kept }
        ensures all { result.kept + result.withdrawn ≡ earlier }
    {
        Withdrawn {
            kept,
            withdrawn: earlier - kept,
        }
    }
}

/// A derivation list with the table of the least edges of its nodes, which follows edits of the
/// network. Older versions of an entry stay in the list. Contracts see it as the list and the
/// table. Its calls as `Supports` are those of `Plain`.
#[derive(Debug, Drop)]
pub struct Store {
    plain: Plain,
}

impl Model for Store {
    ghost use Rattle.closure_model.specs.Derivations.{Support};
    ghost use Rattle.derivation_dag.specs.SupportCode.{support_code};

    ghost Value = { Support };

    ghost coded = { support_code };

    ghost view = { λ store. store.plain };
}

impl Store {
    /// The base nodes and the base table of a network, as `Plain::of` makes them. They stand on the
    /// network. `AllocError` comes only for want of memory.
    pub fn of(alloc: Global, net: &Network) -> Result<Store, AllocError>
        ensures base { IfOk result (λ store. store ≡ base_support net.now) }
        ensures stands { IfOk result (StandsOn net.now) }
    {
        let plain = Plain::of(alloc, net)?;
        Ok(Store { plain })
    }

    /// Follows an edit of the network on which the store stands: exactly the nodes that rest on
    /// nothing taken away are kept, in their old order and with the numbers that they have then;
    /// after them come the base nodes of what is new, of bounds and then of links, each in order.
    /// The store stands on the new network then. A bound or a link is taken away if the edit sets
    /// it, or if the new network has none of its name, or has it with another number or between
    /// other points; a link is named by the point in which it ends. Nothing is required of the edit
    /// and of the two networks. The table is that of the list: each key has the least weight of its
    /// nodes, and `newest` gives the first node that has it. The answer counts the earlier nodes,
    /// those that were kept and those that were not. `AllocError` comes only for want of memory;
    /// then the store is lost, and the caller drops it.
    ///
    /// Only read in the code, and in no clause: it goes over the earlier list once, and looks up
    /// the name of each point and each bound of the old network, and of each bound and each link of
    /// the new one, once.
    pub fn follow(
        &mut self,
        alloc: Global,
        old: &Network,
        edit: &Edit,
        new: &Network,
    ) -> Result<Withdrawn, AllocError>
        requires { StandsOn old.now self.old }
        ensures { IfOk result (IsFollowed old.now edit.now new.now self.old self.new) }
    {
        old.sound();
        new.sound();
        let mut after = Plain::without_nodes(alloc, new)?;
        let moves = Moves::of(alloc, old, edit, new)?;
        let kept = follow_into(alloc, &moves, self.plain.dag(), &mut after)?;
        let answer = Withdrawn::counted(kept, self.plain.dag().len());
        self.plain = after;
        Ok(answer)
    }

    /// The list.
    pub fn dag(&self) -> &Dag
        ensures { result.now ≡ self.now.nodes }
    {
        self.plain.dag()
    }
}

impl Supports for Store {
    ghost support = { λ store. store };

    fn table(&self) -> &Table {
        self.plain.table()
    }

    fn newest(&self, edge: &Edge) -> Option<NodeId> {
        self.plain.newest(edge)
    }

    fn accept(&mut self, net: &Network, node: Node) -> Result<NodeId, AllocError> {
        self.plain.accept(net, node)
    }

    fn accept_row(&mut self, net: &Network, row: &MadeRow<'_>) -> Result<(), AllocError> {
        self.plain.accept_row(net, row)
    }
}
