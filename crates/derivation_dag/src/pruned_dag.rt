//! A derivation list that can give up nodes that are needed no longer.

ghost use Rattle.std.specs.Prelude.{◌≡◌, [], List, Some, IfOk, IfSome};
ghost use Rattle.std.specs.Bool.{MatchBool};
ghost use Rattle.closure_model.specs.declared.derivation.Node.{Node as OneNode};
ghost use Rattle.closure_model.specs.Derivations.{node_at};
ghost use Rattle.derivation_dag.specs.Numbers.{IsBelowAll, IsBelowFirst, HasNodeAtMost};
ghost use Rattle.derivation_dag.specs.Pruned.{AreNumbered};

use crate::dag::Dag;
use crate::keyed_dag::is_below;
use crate::marks::Marks;
use crate::node_list::NodeList;
use crate::numbers::Numbers;
use crate::trail::Trail;
use closure_model::{Node, NodeId, Rule};
use net_model::{Edge, Network};
use std::alloc::{AllocError, Global};
use std::marker::Model;
use std::mem::size_of;

// A node with its number takes 56 bytes.
const _: () = prove!(size_of::<Numbered>() == 56);

/// A node with its number in a derivation list. It takes 56 bytes.
#[derive(Clone, Copy, Debug)]
pub struct Numbered {
    pub id: NodeId,
    pub node: Node,
}

/// A derivation list that finds the node of a key, of which some nodes are held. Contracts see it
/// as the whole list.
#[derive(Debug, Drop)]
pub(crate) struct PrunedDag {
    held: Vec<Numbered>,
    numbers: Numbers,
    /// How many nodes the whole list has.
    count: u64,
    whole: Trail,
}

impl Model for PrunedDag {
    ghost use Rattle.std.specs.Prelude.{List};
    ghost use Rattle.closure_model.specs.declared.derivation.Node.{Node};

    ghost Value = { List Node };

    ghost use Rattle.derivation_dag.specs.Pruned.{IsHeld};

    ghost view = { λ pruned. pruned.whole.nodes };

    ghost invariant = { λ pruned. IsHeld pruned.whole.nodes pruned.held.items pruned.count
        pruned.numbers };
}

impl PrunedDag {
    /// The list without nodes. It takes no memory.
    pub(crate) fn new(alloc: Global) -> PrunedDag
        ensures { result ≡ [] }
    {
        PrunedDag {
            held: Vec::new(alloc),
            numbers: Numbers::new(alloc),
            count: 0,
            whole: Trail::of(&Dag::new(alloc)),
        }
    }

    /// The list without nodes, with 8 bytes for each ordinary key between so many points.
    /// `AllocError` comes only for want of memory.
    pub(crate) fn of(alloc: Global, points: u32) -> Result<PrunedDag, AllocError>
        ensures { IfOk result (λ list. list ≡ []) }
    {
        Ok(PrunedDag {
            held: Vec::new(alloc),
            numbers: Numbers::of(alloc, points)?,
            count: 0,
            whole: Trail::of(&Dag::new(alloc)),
        })
    }

    /// The allocator that it keeps for its growth.
    pub(crate) fn allocator(&self) -> Global {
        *self.held.allocator()
    }

    /// How many nodes are held, which is no clause.
    pub(crate) fn held(&self) -> usize {
        self.held.len()
    }

    /// Gives up the nodes that are no node of their keys and on which no such node rests; which
    /// these are is no clause.
    pub(crate) fn give_up(&mut self) -> Result<(), AllocError>
        ensures { self.new ≡ self.old }
    {
        let needed = self.needed()?;
        self.held.retain(|numbered| needed.has(numbered.id));
        Ok(())
    }

    /// The nodes of the keys and all that is held on which they rest.
    fn needed(&self) -> Result<Marks, AllocError> {
        let mut needed = Marks::of(self.allocator(), self.count)?;
        self.numbers.mark_all(&mut needed);
        mark_under(self.held.as_slice(), &mut needed);
        Ok(needed)
    }

    /// What is held of the given nodes and of all on which they rest, in order of making, which is
    /// no clause.
    pub(crate) fn ancestors(
        &self,
        alloc: Global,
        ids: &[NodeId],
    ) -> Result<Vec<Numbered>, AllocError>
        ensures { IfOk result (λ found. AreNumbered self.now found.items) }
    {
        let mut under = Marks::of(alloc, self.count)?;
        for id in ids {
            under.mark(*id);
        }
        mark_under(self.held.as_slice(), &mut under);
        marked(alloc, self.held.as_slice(), &under)
    }

    /// Whether an edge is below every node of its key, if that is known: it is below those among so
    /// many first ones, and one that came since is held.
    fn is_below_all(&self, edge: &Edge, first: u64) -> Option<bool>
        requires { IsBelowFirst self.now first edge.now }
        ensures { IfSome result (λ below. MatchBool below (IsBelowAll self.now edge.now)
            (HasNodeAtMost self.now edge.now)) }
    {
        let Some(id) = self.numbers.get(edge) else {
            return Some(true);
        };
        if id.0 < first {
            return Some(true);
        }
        let node = self.late(id)?;
        Some(is_below(edge, &node.edge))
    }

    /// A node that came since nodes were given up. It is found, which is no clause.
    fn late(&self, id: NodeId) -> Option<&Node>
        ensures { IfSome result (λ node. node_at self.now id ≡ Some node.now) }
    {
        let back = self.count.checked_sub(id.0)? as usize;
        let place = self.held.len().checked_sub(back)?;
        let numbered = self.held.get(place)?;
        if numbered.id == id {
            Some(&numbered.node)
        } else {
            None
        }
    }
}

impl NodeList for PrunedDag {
    ghost nodes = { λ pruned. pruned };

    fn len(&self) -> u64 {
        self.count
    }

    fn newest(&self, edge: &Edge) -> Option<NodeId> {
        self.numbers.get(edge)
    }

    fn push_below(&mut self, net: &Network, node: Node, first: u64) -> Result<NodeId, AllocError> {
        let _ = net;
        let Some(below) = self.is_below_all(&node.edge, first) else {
            return Err(AllocError);
        };
        let Some(count) = self.count.checked_add(1) else {
            return Err(AllocError);
        };
        self.numbers.reserve(&node.edge)?;
        let id = NodeId(self.count);
        self.held.push(Numbered { id, node })?;
        if below {
            self.numbers.put(&node.edge, count);
        }
        self.count = count;
        self.whole = self.whole.with(&node);
        Ok(id)
    }
}

/// Those that are marked.
fn marked(alloc: Global, held: &[Numbered], marks: &Marks) -> Result<Vec<Numbered>, AllocError>
    ensures { IfOk result (λ found. (whole : List OneNode) → AreNumbered whole held.now
        → AreNumbered whole found.items) }
{
    let mut found = Vec::new(alloc);
    for numbered in held {
        if marks.has(numbered.id) {
            found.push(*numbered)?;
        }
    }
    Ok(found)
}

/// Marks the nodes among some of a list on which marked ones rest. From the last to the first,
/// since premises stand earlier.
fn mark_under(held: &[Numbered], marks: &mut Marks) {
    for numbered in held.iter().rev() {
        if marks.has(numbered.id) {
            mark_premises(marks, &numbered.node.rule);
        }
    }
}

fn mark_premises(marks: &mut Marks, rule: &Rule) {
    match rule {
        Rule::Bound(_) | Rule::Link(_) => {}
        Rule::No(first, second) | Rule::Up(first, second) => {
            marks.mark(*first);
            marks.mark(*second);
        }
        Rule::Low(_, premise) | Rule::Cross(_, premise) | Rule::Drop(premise) => {
            marks.mark(*premise);
        }
    }
}
