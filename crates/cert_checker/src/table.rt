//! The judgement of a table proof.

ghost use Rattle.std.specs.Prelude.{◌≡◌, ◌+◌, ◌<◌, ◌<ℤ◌, ◌^◌, ℕ, Bool, List, IfOk, IfSome, length};
ghost use Rattle.std.specs.Prelude.{not, pos};
ghost use Rattle.std.specs.List.{All, position};
ghost use Rattle.net_model.specs.Network.{IsPlan, IsPoint};
ghost use Rattle.cert_checker.specs.TestOutcomes.{Ends, IsAcceptedTable, JudgesTable, NoneRefused};
ghost use Rattle.cert_checker.specs.TestOutcomes.{RefusesBase};
ghost use Rattle.cert_checker.specs.Least.{IsSmallEdge};
ghost use Rattle.cert_checker.specs.OpenEntries.{is_open_before};
ghost use Rattle.cert_checker.specs.Sound.{AreSound, IsSoundEdge};
ghost use Rattle.cert_checker.specs.TableRefusals.{IsNone, IsRead, IsRefusedTable};
ghost use Rattle.cert_checker.specs.Tables.{base_of, is_missing, has_open_conclusion, rises};
ghost use Rattle.cert_checker.specs.Tables.{stands_among};

use crate::base::{Base, base_of};
use crate::closure::opens;
use crate::entries::{read_edges, read_points};
use crate::judgement::{CertFault, Claim, Failure, Judgement, RefusedLine};
use crate::least::LeastWeights;
use crate::order::Order;
use crate::scan::first_refused;
use crate::shown::ShownNetwork;
use cert_format::Entry;
use net_model::{Edge, Name, PointId};
use std::alloc::{AllocError, Global};
use std::marker::Model;
use std::thread::Threads;

/// The edges of a network that the entries of a table proof state, the line of the first, and the
/// least weight of each key.
#[derive(Drop)]
pub(crate) struct ProofTable<'a> {
    net: ShownNetwork<'a>,
    first: u64,
    edges: Vec<Edge>,
    least: LeastWeights,
}

impl<'a> Model for ProofTable<'a> {
    ghost use Rattle.cert_checker.specs.Sound.{Stated};
    ghost use Rattle.cert_checker.specs.Least.{IsLeastTable};

    ghost Value = { Stated };

    ghost view = { λ table. record {
      net = table.net;
      first = table.first;
      edges = table.edges.items;
    } };

    ghost invariant = { λ table. IsLeastTable table.net table.first table.edges.items table.least };
}

impl<'a> ProofTable<'a> {
    /// The table of these edges of a network, of which the first stands at this line.
    fn of(
        alloc: Global,
        net: ShownNetwork<'a>,
        first: u64,
        edges: Vec<Edge>,
    ) -> Result<ProofTable<'a>, AllocError>
        requires sound { AreSound net edges.items }
        requires lines { first + length edges.items < 2 ^ 64 }
        ensures { IfOk result (λ table. table ≡ record {
          net = net.entry;
          first = first;
          edges = edges.items;
        }) }
    {
        net.sound();
        let least = LeastWeights::of(alloc, &net, edges.as_slice())?;
        Ok(ProofTable {
            net,
            first,
            edges,
            least,
        })
    }

    /// The network.
    pub(crate) fn net(&self) -> &ShownNetwork<'a>
        ensures net { result.now ≡ self.now.net }
        ensures sound { IsPlan self.now.net }
    {
        &self.net
    }

    /// The edges that the entries state.
    fn edges(&self) -> &[Edge]
        ensures edges { result.now ≡ self.now.edges }
        ensures sound { AreSound self.now.net self.now.edges }
    {
        self.edges.as_slice()
    }

    /// Whether an edge does not stand among the entries.
    pub(crate) fn lacks(&self, edge: &Edge) -> bool
        requires { IsSmallEdge self.now.net edge.now }
        ensures { result ≡ not (stands_among self.now.edges edge.now) }
    {
        !self.least.has_word_at_most(edge)
    }

    /// Whether an ordinary entry and then a negative edge give one that does not stand among the
    /// entries.
    pub(crate) fn opens_before(&self, second: &Edge) -> bool
        requires sound { IsSoundEdge self.now.net second.now }
        requires negative { second.now.weight <ℤ pos 0 }
        ensures { result ≡ is_open_before self.now.edges second.now }
    {
        self.least.improves_before(second)
    }

    /// Each edge of a bound or of a link stands among the entries.
    fn has_base<R: Threads + Sync>(&self, rt: &R, alloc: Global) -> Result<(), Failure>
        ensures { Ends result (λ passed. IsNone (λ place. is_missing self.now.edges)
            (base_of self.now.net)) (RefusesBase self.now.net self.now.edges) }
    {
        let base = base_of(alloc, self.net())?;
        match self.missing(rt, base.as_slice()) {
            None => Ok(()),
            Some(place) => {
                let why = base[place].missing;
                Err(Failure::Refused(RefusedLine { line: 0, why }))
            }
        }
    }

    /// The place of the first of these edges that does not stand among the entries.
    fn missing<R: Threads + Sync>(&self, rt: &R, base: &[Base]) -> Option<usize>
        requires { All (λ (base : Base). IsSmallEdge self.now.net base.edge) base.now }
        ensures { result ≡ position (is_missing self.now.edges) base.now }
    {
        first_refused(
            rt,
            base,
            &|base: &Base| -> bool
                requires { IsSmallEdge self.now.net base.now.edge }
                ensures { result ≡ is_missing self.entry.now.edges base.entry.now }
            { self.lacks(&base.edge) },
        )
    }

    /// Each negative ordinary entry goes from a later point of an order to an earlier one.
    fn descends_along<R: Threads + Sync>(&self, rt: &R, order: &Order) -> Result<(), RefusedLine>
        ensures { NoneRefused (rises order.now) self.now.first CertFault.OrderBroken self.now.edges
            result }
    {
        let found = first_refused(
            rt,
            self.edges(),
            &|edge: &Edge| -> bool
                ensures { result ≡ rises order.entry.now edge.entry.now }
            { order.rises(edge) },
        );
        self.refused_at(CertFault::OrderBroken, found)
    }

    /// Of no entry does a rule give, with the others, an edge that does not stand among them.
    fn is_closed<R: Threads + Sync>(&self, rt: &R) -> Result<(), RefusedLine>
        ensures { NoneRefused (has_open_conclusion self.now.net self.now.edges) self.now.first
            CertFault.NotClosed self.now.edges result }
    {
        let found = first_refused(
            rt,
            self.edges(),
            &|edge: &Edge| -> bool
                requires { IsSoundEdge self.now.net edge.now }
                ensures { result ≡ has_open_conclusion self.entry.now.net self.entry.now.edges
                    edge.entry.now }
            { opens(self, edge) },
        );
        self.refused_at(CertFault::NotClosed, found)
    }

    /// The refusal of the entry at a place, if there is one.
    fn refused_at(&self, why: CertFault, found: Option<usize>) -> Result<(), RefusedLine>
        requires { IfSome found (λ place. place < length self.now.edges) }
        ensures { (test : Edge → Bool) → found ≡ position test self.now.edges
            → NoneRefused test self.now.first why self.now.edges result }
    {
        match found {
            None => Ok(()),
            Some(place) => Err(RefusedLine {
                line: self.first + place as u64,
                why,
            }),
        }
    }

    /// What is judged of the entries once they are read, with these points as their order: their
    /// base, the order, and their closure.
    fn passes<R: Threads + Sync>(
        &self,
        rt: &R,
        alloc: Global,
        points: Vec<PointId>,
    ) -> Result<(), Failure>
        requires { All (IsPoint self.now.net) points.items }
        ensures { (order : List (List ℕ)) (entries : List Entry)
            → IsRead self.now.net order entries points.items self.now.edges
            → self.now.first ≡ length order + 1
            → Ends result (λ passed. IsAcceptedTable self.now.net order entries)
            (λ refused. IsRefusedTable self.now.net order entries refused.line refused.why) }
    {
        self.has_base(rt, alloc)?;
        let order = Order::of(alloc, self.net(), points)?;
        self.descends_along(rt, &order)?;
        self.is_closed(rt)?;
        Ok(())
    }
}

/// What is judged of a table proof: its lines, each for itself, and then all together.
fn table_passes<R: Threads + Sync>(
    rt: &R,
    alloc: Global,
    net: ShownNetwork,
    order: &[Name],
    entries: &[Entry],
) -> Result<(), Failure>
    ensures { Ends result (λ passed. IsAcceptedTable net.entry order.now entries.now)
        (λ refused. IsRefusedTable net.entry order.now entries.now refused.line refused.why) }
{
    net.sound();
    let points = read_points(alloc, &net, order)?;
    let first = order.len() as u64 + 1;
    let edges = read_edges(alloc, &net, first, entries)?;
    let table = ProofTable::of(alloc, net, first, edges)?;
    table.passes(rt, alloc, points)
}

/// Judges a table proof. `AllocError` comes only for want of memory.
pub(crate) fn judge_table<R: Threads + Sync>(
    rt: &R,
    alloc: Global,
    net: ShownNetwork,
    order: &[Name],
    entries: &[Entry],
) -> Result<Judgement, AllocError>
    ensures { IfOk result (JudgesTable net.entry order.now entries.now) }
{
    match table_passes(rt, alloc, net, order, entries) {
        Ok(()) => Ok(Judgement::Accepted(Claim::Controllable)),
        Err(Failure::Refused(RefusedLine { line, why })) => Ok(Judgement::Refused { line, why }),
        Err(Failure::OutOfMemory) => Err(AllocError),
    }
}
