//! The refutation of a network by a cycle of its table.

ghost use Rattle.std.specs.Prelude.{◌≡◌, map, IfOk, IfSome, IsSome};
ghost use Rattle.std.specs.List.{All, AllZip, Contains, AllByRecursion};
ghost use Rattle.closure_model.specs.Derivations.{StandsOn, IsNodeOf};
ghost use Rattle.closure_model.specs.Keys.{ordinary_key};
ghost use Rattle.closure_model.specs.Orders.{IsCycle};
ghost use Rattle.closure_model.specs.ReferenceRounds.{cycle_keys, line_of};
ghost use Rattle.closure_model.specs.Tables.{weight_of};
ghost use Rattle.cert_format.specs.CertificateWords.{HasWeights};
ghost use Rattle.cert_checker.specs.Judgement.{judgement_of};
ghost use Rattle.cert_checker.specs.declared.judgement.Judgement.TheVariants.{Accepted};
ghost use Rattle.cert_checker.specs.declared.judgement.Claim.TheVariants.{NotControllable};
ghost use Rattle.derivation_dag.specs.Pruned.{numbers_in};
ghost use Rattle.refutation_certificates.specs.Certificates.{IsCertificateBy};
ghost use Rattle.refutation_certificates.specs.RuleLines.{AreInOrderOfMaking, HasWeight};

use crate::lines::{line_of, lines_by, lines_of};
use cert_format::Certificate;
use derivation_dag::{Dag, NodeId, Numbered, Pruned, Supports};
use net_model::{Edge, Items, Network, PointId};
use std::alloc::{AllocError, Global};

/// The certificate that refutes a network by a cycle: its lines are the nodes of the edges of the
/// cycle and all on which they rest, in order of making, each with the names of the network and
/// with its premises by the numbers of their lines; its walk are the numbers of the lines of the
/// cycle's edges. The store stands on the network, `dag` is its list, and the cycle is one of
/// negative ordinary edges of its table. The judge accepts it. `AllocError` comes only for want of
/// memory.
pub fn refutation<S: Supports>(
    alloc: Global,
    net: &Network,
    store: &S,
    dag: &Dag,
    cycle: &[PointId],
) -> Result<Certificate, AllocError>
    requires stands { StandsOn net.now (S.support store.now) }
    requires list { dag.now ≡ (S.support store.now).nodes }
    requires cycle { IsCycle (S.support store.now).table cycle.now }
    ensures refutes { IfOk result (IsCertificateBy net.now (S.support store.now).nodes cycle.now) }
    ensures accepted { IfOk result
        (λ certificate. judgement_of net.now certificate ≡ Accepted NotControllable) }
    ensures weights { IfOk result HasWeights }
{
    net.sound();
    let steps = steps_of(alloc, store, cycle)?;
    let ids = dag.ancestors(alloc, steps.as_slice())?;
    let lines = lines_by(alloc, net, dag, ids.as_slice())?;
    let walk = walk_by(alloc, ids.as_slice(), steps.as_slice())?;
    Ok(Certificate::Refutation {
        lines: Items::new(lines),
        walk: Items::new(walk),
    })
}

/// The same of a store that gives up nodes, if it holds those that are lines.
pub fn refutation_if_held(
    alloc: Global,
    net: &Network,
    store: &Pruned,
    cycle: &[PointId],
) -> Result<Option<Certificate>, AllocError>
    requires stands { StandsOn net.now store.now }
    requires cycle { IsCycle store.now.table cycle.now }
    ensures refutes { IfOk result (λ held. IfSome held (IsCertificateBy net.now store.now.nodes
        cycle.now)) }
    ensures accepted { IfOk result (λ held. IfSome held
        (λ certificate. judgement_of net.now certificate ≡ Accepted NotControllable)) }
    ensures weights { IfOk result (λ held. IfSome held HasWeights) }
{
    net.sound();
    let steps = steps_of(alloc, store, cycle)?;
    let Some(found) = store.ancestors(alloc, steps.as_slice())? else {
        return Ok(None);
    };
    let ids = ids_of(alloc, found.as_slice())?;
    let lines = lines_of(alloc, net, store, ids.as_slice(), found.as_slice())?;
    let walk = walk_by(alloc, ids.as_slice(), steps.as_slice())?;
    Ok(Some(Certificate::Refutation {
        lines: Items::new(lines),
        walk: Items::new(walk),
    }))
}

/// The numbers of nodes.
fn ids_of(alloc: Global, found: &[Numbered]) -> Result<Vec<NodeId>, AllocError>
    ensures { IfOk result (λ ids. ids.items ≡ numbers_in found.now) }
{
    found.iter().map(|numbered| numbered.id).collect(alloc)
}

/// The nodes of the edges of a cycle, in order.
fn steps_of<S: Supports>(
    alloc: Global,
    store: &S,
    cycle: &[PointId],
) -> Result<Vec<NodeId>, AllocError>
    requires { AllByRecursion (HasWeight (S.support store.now).table) (cycle_keys cycle.now) }
    ensures { IfOk result (λ steps. AllZip (IsNodeOf (S.support store.now).nodes)
        (cycle_keys cycle.now) steps.items) }
{
    let mut steps = Vec::new(alloc);
    let Some((first, points)) = cycle.split_first() else {
        return Ok(steps);
    };
    let mut last = *first;
    for point in points {
        steps.push(node_of(store, last, *point))?;
        last = *point;
    }
    steps.push(node_of(store, last, *first))?;
    Ok(steps)
}

/// The node of the ordinary edge between two points, which the table has.
fn node_of<S: Supports>(store: &S, from: PointId, to: PointId) -> NodeId
    requires { HasWeight (S.support store.now).table (ordinary_key from to) }
    ensures { IsNodeOf (S.support store.now).nodes (ordinary_key from to) result }
{
    let edge = Edge {
        from,
        to,
        label: None,
        weight: 0,
    };
    match store.newest(&edge) {
        Some(id) => id,
        None => unreachable!(),
    }
}

/// The numbers of the lines of the steps of a walk.
fn walk_by(alloc: Global, lines: &[NodeId], steps: &[NodeId]) -> Result<Vec<u64>, AllocError>
    requires in_order { AreInOrderOfMaking lines.now }
    requires there { All (Contains lines.now) steps.now }
    ensures { IfOk result (λ walk. walk.items ≡ map (line_of lines.now) steps.now) }
{
    let mut walk = Vec::new(alloc);
    for step in steps {
        walk.push(line_of(lines, *step))?;
    }
    Ok(walk)
}
