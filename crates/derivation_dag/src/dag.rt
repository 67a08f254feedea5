//! A derivation list: nodes in the order of making.

ghost use Rattle.std.specs.Prelude.{◌≡◌, ◌<◌, ◌↔◌, [], ◌∷◌, ◌++◌, length, Some, IsTrue, IfOk};
ghost use Rattle.std.specs.Prelude.{OnErr};
ghost use Rattle.std.specs.List.{All};
ghost use Rattle.closure_model.specs.Derivations.{node_at, IsGiven, AreAncestors, RestsOn};

use crate::ancestors::{mark_ancestors, marked};
use crate::rest_marks::resting_marks;
use closure_model::{Item, Node, NodeId};
use net_model::Network;
use std::alloc::{AllocError, Global};
use std::marker::Model;
use std::mem::size_of;

// A node takes 48 bytes.
const _: () = prove!(size_of::<Node>() == 48);

/// A derivation list (Morris and Muscettola 2005, in this project's form): nodes in the order of
/// making, each from nodes that stand earlier. Contracts see it as the list of its nodes. It has no
/// limit of its own. A node takes 48 bytes.
#[derive(Debug, Drop)]
pub struct Dag {
    nodes: Vec<Node>,
}

impl Model for Dag {
    ghost use Rattle.std.specs.Prelude.{List};
    ghost use Rattle.closure_model.specs.declared.derivation.Node.{Node};

    ghost Value = { List Node };

    ghost use Rattle.closure_model.specs.Derivations.{PremisesStandEarlier};

    ghost view = { λ dag. dag.nodes.items };

    ghost invariant = { λ dag. PremisesStandEarlier dag.nodes.items };
}

impl Dag {
    /// The list without nodes. It keeps the allocator for its growth.
    pub fn new(alloc: Global) -> Dag
        ensures { result ≡ [] }
    {
        Dag {
            nodes: Vec::new(alloc),
        }
    }

    /// The allocator that it keeps for its growth.
    pub(crate) fn allocator(&self) -> Global {
        *self.nodes.allocator()
    }

    /// Puts a node at the end of the list, and gives its number. Its premises are nodes of the
    /// list, and its rule gives its edge from them in the network. `AllocError` comes only for want
    /// of memory, and changes nothing.
    pub fn push(&mut self, net: &Network, node: Node) -> Result<NodeId, AllocError>
        requires { IsGiven net.now self.old node }
        ensures pushed { IfOk result (λ id. (id.0 ≡ length self.old)
            × (self.new ≡ self.old ++ node ∷ [])) }
        ensures refused { OnErr result (self.new ≡ self.old) }
    {
        let _ = net;
        let id = NodeId(self.nodes.len() as u64);
        self.nodes.push(node)?;
        Ok(id)
    }

    /// The node of a number of the list.
    pub fn node(&self, id: NodeId) -> &Node
        requires { id.0 < length self.now }
        ensures { node_at self.now id ≡ Some result.now }
    {
        &self.nodes[id.0 as usize]
    }

    /// How many nodes the list has.
    pub fn len(&self) -> u64
        ensures { result ≡ length self.now }
    {
        self.nodes.len() as u64
    }

    /// The given nodes of the list and all on which they rest, in order of making, each once.
    /// `AllocError` comes only for want of memory.
    pub fn ancestors(&self, alloc: Global, ids: &[NodeId]) -> Result<Vec<NodeId>, AllocError>
        requires { All (λ id. id.0 < length self.now) ids.now }
        ensures { IfOk result (λ found. AreAncestors self.now ids.now found.items) }
    {
        let nodes = self.nodes.as_slice();
        let mut marks = vec![in alloc; false; nodes.len()]?;
        mark_ancestors(nodes, ids, marks.as_mut_slice());
        marked(alloc, marks.as_slice())
    }

    /// Whether a node of the list rests on a bound or a link: it or a node under it uses it.
    /// `AllocError` comes only for want of memory.
    pub fn rests_on(&self, alloc: Global, id: NodeId, item: Item) -> Result<bool, AllocError>
        requires { id.0 < length self.now }
        ensures { IfOk result (λ rests. IsTrue rests ↔ RestsOn self.now id item) }
    {
        let place = id.0 as usize;
        let rests = resting_marks(alloc, self.nodes.as_slice(), place + 1, item)?;
        Ok(rests[place])
    }
}
