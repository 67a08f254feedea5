//! The improved edges of a row, each with its rule and its premises, in few bytes.

ghost use Rattle.std.specs.Prelude.{◌≡◌, ◌++◌, ◌∷◌, [], ◌==◌, ◌<◌, Some, true, length, slice_get};
ghost use Rattle.std.specs.Prelude.{IfOk, OnOk};
ghost use Rattle.labelled_graph.specs.Entries.{wide_label};
ghost use Rattle.back_propagation.specs.MadeEdges.{made_of, why_of, edge_of};

use closure_model::rows::{Made, Why};
use labelled_graph::nearest_word;
use net_model::{Edge, LinkId, PointId, Weight};
use std::alloc::{AllocError, Global};
use std::marker::Model;
use std::mem::size_of;

// What is stored of an edge takes 32 bytes.
const _: () = prove!(size_of::<Held>() == 32);

/// The edges that improved in the row of a target, each with its rule and its premises, in the
/// order in which they were pushed. Contracts see them as their list. An edge takes 32 bytes, and
/// 80 more if a weight does not fit 32 bits, a label does not fit 16 bits, or the premises do not
/// meet as the rules have them. That most take 32 is no clause.
#[derive(Debug, Drop)]
pub struct MadeEdges {
    target: PointId,
    held: Vec<Held>,
    whole: Vec<Made>,
}

impl Model for MadeEdges {
    ghost use Rattle.std.specs.Prelude.{List};
    ghost use Rattle.closure_model.specs.declared.rows.Made.{Made};

    ghost Value = { List Made };

    ghost use Rattle.back_propagation.specs.MadeEdges.{made_edges, AreHeld};

    ghost view = { made_edges };

    ghost invariant = { AreHeld };
}

/// What is stored of an edge.
#[derive(Clone, Copy, Debug)]
enum Held {
    /// All that does not follow from the target.
    Short(ShortMade),
    /// Its place among the edges that are stored whole.
    Whole(usize),
}

/// An edge that improved in a row whose target is known.
#[derive(Clone, Copy, Debug)]
struct ShortMade {
    from: PointId,
    label: Option<u16>,
    weight: i32,
    how: ShortWhy,
}

/// How such an edge got its weight: what of its premises does not follow from the edge and the
/// target. A first premise is ordinary; it begins where the edge begins, and ends between that and
/// the target. The other premise, or the only one, ends in the target.
#[derive(Clone, Copy, Debug)]
enum ShortWhy {
    No {
        first: i32,
        between: PointId,
        second: i32,
    },
    /// The second premise has the label of the edge.
    Up {
        first: i32,
        between: PointId,
        second: i32,
    },
    Low {
        link: LinkId,
        from: PointId,
        weight: i32,
    },
    /// The premise has the label of the edge.
    Cross {
        link: LinkId,
        from: PointId,
        weight: i32,
    },
    /// The premise begins where the edge begins.
    Drop {
        label: Option<LinkId>,
        weight: i32,
    },
}

impl MadeEdges {
    /// No edges yet, into this target.
    pub(crate) fn new(alloc: Global, target: PointId) -> MadeEdges
        ensures { result ≡ [] }
    {
        MadeEdges {
            target,
            held: Vec::new(alloc),
            whole: Vec::new(alloc),
        }
    }

    /// Puts an edge after the others. `AllocError` comes only for want of memory.
    pub(crate) fn push(&mut self, one: &Made) -> Result<(), AllocError>
        ensures { OnOk result (self.new ≡ self.old ++ one.now ∷ []) }
    {
        let short = ShortMade::of(one);
        let held = if is_same(&short.made(self.target), one) {
            Held::Short(short)
        } else {
            self.whole.push(*one)?;
            Held::Whole(self.whole.len() - 1)
        };
        self.held.push(held)?;
        Ok(())
    }

    /// How many there are.
    pub fn len(&self) -> usize
        ensures { result ≡ length self.now }
    {
        self.held.len()
    }

    /// Whether there are none.
    pub fn is_empty(&self) -> bool
        ensures { result ≡ (length self.now == 0) }
    {
        self.held.is_empty()
    }

    /// The edge at a place.
    pub fn get(&self, place: usize) -> Made
        requires { place < length self.now }
        ensures { slice_get self.now place ≡ Some result }
    {
        match self.held[place] {
            Held::Short(short) => short.made(self.target),
            Held::Whole(place) => self.whole[place],
        }
    }

    /// The edge at a place, without its rule and its premises.
    pub fn edge(&self, place: usize) -> Edge
        requires { place < length self.now }
        ensures { (one : Made) → slice_get self.now place ≡ Some one → result ≡ one.edge }
    {
        match self.held[place] {
            Held::Short(short) => edge_of(
                short.from,
                self.target,
                wide_label(short.label),
                short.weight,
            ),
            Held::Whole(place) => self.whole[place].edge,
        }
    }

    /// All of them. `AllocError` comes only for want of memory.
    pub fn to_vec(&self, alloc: Global) -> Result<Vec<Made>, AllocError>
        ensures { IfOk result (λ made. made.items ≡ self.now) }
    {
        let mut made = Vec::with_capacity(alloc, self.len())?;
        for place in 0..self.len() {
            made.push(self.get(place))?;
        }
        Ok(made)
    }
}

impl ShortMade {
    /// The short form of an edge, or that of another edge if it has none.
    fn of(one: &Made) -> ShortMade {
        ShortMade {
            from: one.edge.from,
            label: short_label(one.edge.label),
            weight: nearest_word(one.edge.weight),
            how: ShortWhy::of(&one.why),
        }
    }

    /// The edge that this stands for, in the row of a target.
    fn made(&self, target: PointId) -> Made
        ensures { result ≡ made_of target self.now }
    {
        let edge = edge_of(self.from, target, wide_label(self.label), self.weight);
        Made {
            edge,
            why: self.how.why(&edge),
        }
    }
}

impl ShortWhy {
    fn of(why: &Why) -> ShortWhy {
        match why {
            Why::No(first, second) => ShortWhy::No {
                first: nearest_word(first.weight),
                between: second.from,
                second: nearest_word(second.weight),
            },
            Why::Up(first, second) => ShortWhy::Up {
                first: nearest_word(first.weight),
                between: second.from,
                second: nearest_word(second.weight),
            },
            Why::Low(link, premise) => ShortWhy::Low {
                link: *link,
                from: premise.from,
                weight: nearest_word(premise.weight),
            },
            Why::Cross(link, premise) => ShortWhy::Cross {
                link: *link,
                from: premise.from,
                weight: nearest_word(premise.weight),
            },
            Why::Drop(premise) => ShortWhy::Drop {
                label: premise.label,
                weight: nearest_word(premise.weight),
            },
        }
    }

    /// How an edge got its weight by this.
    fn why(&self, edge: &Edge) -> Why
        ensures { result ≡ why_of edge.now self.now }
    {
        match *self {
            ShortWhy::No {
                first,
                between,
                second,
            } => Why::No(
                edge_of(edge.from, between, None, first),
                edge_of(between, edge.to, None, second),
            ),
            ShortWhy::Up {
                first,
                between,
                second,
            } => Why::Up(
                edge_of(edge.from, between, None, first),
                edge_of(between, edge.to, edge.label, second),
            ),
            ShortWhy::Low { link, from, weight } => {
                Why::Low(link, edge_of(from, edge.to, None, weight))
            }
            ShortWhy::Cross { link, from, weight } => {
                Why::Cross(link, edge_of(from, edge.to, edge.label, weight))
            }
            ShortWhy::Drop { label, weight } => {
                Why::Drop(edge_of(edge.from, edge.to, label, weight))
            }
        }
    }
}

fn edge_of(from: PointId, to: PointId, label: Option<LinkId>, weight: i32) -> Edge
    ensures { result ≡ edge_of from to label weight }
{
    Edge {
        from,
        to,
        label,
        weight: weight as Weight,
    }
}

/// The number of a label in two bytes, or the nearest one.
fn short_label(label: Option<LinkId>) -> Option<u16> {
    match label {
        Some(label) => Some(label.0.min(u16::MAX as u32) as u16),
        None => None,
    }
}

/// The label of a number.
fn wide_label(label: Option<u16>) -> Option<LinkId>
    ensures { result ≡ wide_label label }
{
    match label {
        Some(label) => Some(LinkId(label as u32)),
        None => None,
    }
}

/// Whether two edges are the same, with their rules and premises.
fn is_same(one: &Made, other: &Made) -> bool
    ensures { result ≡ true → one.now ≡ other.now }
{
    is_same_edge(&one.edge, &other.edge) && is_same_why(&one.why, &other.why)
}

fn is_same_why(one: &Why, other: &Why) -> bool
    ensures { result ≡ true → one.now ≡ other.now }
{
    match (one, other) {
        (Why::No(first, second), Why::No(other_first, other_second)) => {
            is_same_edge(first, other_first) && is_same_edge(second, other_second)
        }
        (Why::Up(first, second), Why::Up(other_first, other_second)) => {
            is_same_edge(first, other_first) && is_same_edge(second, other_second)
        }
        (Why::Low(link, premise), Why::Low(other_link, other_premise)) => {
            *link == *other_link && is_same_edge(premise, other_premise)
        }
        (Why::Cross(link, premise), Why::Cross(other_link, other_premise)) => {
            *link == *other_link && is_same_edge(premise, other_premise)
        }
        (Why::Drop(premise), Why::Drop(other_premise)) => is_same_edge(premise, other_premise),
        _ => false,
    }
}

fn is_same_edge(one: &Edge, other: &Edge) -> bool
    ensures { result ≡ true → one.now ≡ other.now }
{
    *one == *other
}
