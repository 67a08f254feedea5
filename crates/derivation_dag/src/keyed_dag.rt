//! A derivation list that finds the node of a key.

ghost use Rattle.std.specs.Prelude.{◌≡◌, [], IfOk, int_lt};
ghost use Rattle.std.specs.Bool.{MatchBool};
ghost use Rattle.derivation_dag.specs.Numbers.{IsBelowAll, IsBelowFirst, HasNodeAtMost};

use crate::dag::Dag;
use crate::node_list::NodeList;
use crate::numbers::Numbers;
use closure_model::{Node, NodeId};
use net_model::{Edge, Network};
use std::alloc::{AllocError, Global};
use std::marker::Model;

/// A derivation list that finds the node of a key: the first of least weight among its nodes.
#[derive(Debug, Drop)]
pub(crate) struct KeyedDag {
    dag: Dag,
    numbers: Numbers,
}

impl Model for KeyedDag {
    ghost use Rattle.std.specs.Prelude.{List};
    ghost use Rattle.closure_model.specs.declared.derivation.Node.{Node};

    ghost Value = { List Node };

    ghost use Rattle.derivation_dag.specs.Numbers.{NumbersNodes};

    ghost view = { λ keyed. keyed.dag };

    ghost invariant = { λ keyed. NumbersNodes keyed.dag keyed.numbers };
}

impl KeyedDag {
    /// The list without nodes. It takes no memory.
    pub(crate) fn new(alloc: Global) -> KeyedDag
        ensures { result ≡ [] }
    {
        KeyedDag {
            dag: Dag::new(alloc),
            numbers: Numbers::new(alloc),
        }
    }

    /// The list without nodes, with 8 bytes for each ordinary key between so many points.
    /// `AllocError` comes only for want of memory.
    pub(crate) fn of(alloc: Global, points: u32) -> Result<KeyedDag, AllocError>
        ensures { IfOk result (λ list. list ≡ []) }
    {
        let numbers = Numbers::of(alloc, points)?;
        Ok(KeyedDag {
            dag: Dag::new(alloc),
            numbers,
        })
    }

    /// The allocator that it keeps for its growth.
    pub(crate) fn allocator(&self) -> Global {
        self.dag.allocator()
    }

    /// The list.
    pub(crate) fn dag(&self) -> &Dag
        ensures { result.now ≡ self.now }
    {
        &self.dag
    }

    /// Whether an edge is below every node of its key. It is below those among so many first ones.
    fn is_below_all(&self, edge: &Edge, first: u64) -> bool
        requires { IsBelowFirst self.now first edge.now }
        ensures { MatchBool result (IsBelowAll self.now edge.now)
            (HasNodeAtMost self.now edge.now) }
    {
        let Some(id) = self.numbers.get(edge) else {
            return true;
        };
        if id.0 < first {
            return true;
        }
        is_below(edge, &self.dag.node(id).edge)
    }
}

impl NodeList for KeyedDag {
    ghost nodes = { λ keyed. keyed };

    fn len(&self) -> u64 {
        self.dag.len()
    }

    fn newest(&self, edge: &Edge) -> Option<NodeId> {
        self.numbers.get(edge)
    }

    fn push_below(&mut self, net: &Network, node: Node, first: u64) -> Result<NodeId, AllocError> {
        let below = self.is_below_all(&node.edge, first);
        self.numbers.reserve(&node.edge)?;
        let id = self.dag.push(net, node)?;
        if below {
            self.numbers.put(&node.edge, self.dag.len());
        }
        Ok(id)
    }
}

pub(crate) fn is_below(edge: &Edge, other: &Edge) -> bool
    ensures { result ≡ int_lt edge.now.weight other.now.weight }
{
    edge.weight < other.weight
}
