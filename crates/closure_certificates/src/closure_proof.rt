//! The table proof of a network, made from its closure.

ghost use Rattle.std.specs.Prelude.{◌≡◌, IfOk};
ghost use Rattle.closure_model.specs.Closure.{IsClosure};
ghost use Rattle.closure_model.specs.Orders.{IsOrder};
ghost use Rattle.cert_format.specs.CertificateWords.{HasWeights};
ghost use Rattle.cert_checker.specs.Judgement.{judgement_of};
ghost use Rattle.cert_checker.specs.declared.judgement.Judgement.TheVariants.{Accepted};
ghost use Rattle.cert_checker.specs.declared.judgement.Claim.TheVariants.{Controllable};
ghost use Rattle.closure_certificates.specs.TableProofs.{table_proof_of};

use crate::entries::entries_of;
use crate::names::point_names;
use cert_format::Certificate;
use labelled_graph::Table;
use net_model::{Items, Network, PointId};
use std::alloc::{AllocError, Global};

/// The table proof of a network, by its closure and an order of the points of that: its order lines
/// are the points in that order, and its entries are the edges of the closure, by the number of the
/// point in which they end, then by that of the point in which they begin, the ordinary one before
/// the labelled ones, and those by the number of their link. The judge accepts it. What is required
/// here `close` of network_closure gives. `AllocError` comes only for want of memory.
pub fn table_proof(
    alloc: Global,
    net: &Network,
    table: &Table,
    order: &[PointId],
) -> Result<Certificate, AllocError>
    requires closure { IsClosure net.now table.now }
    requires order { IsOrder table.now order.now }
    ensures proof { IfOk result (λ certificate. certificate ≡ table_proof_of net.now table.now
        order.now) }
    ensures accepted { IfOk result
        (λ certificate. judgement_of net.now certificate ≡ Accepted Controllable) }
    ensures weights { IfOk result HasWeights }
{
    net.sound();
    let names = point_names(alloc, net, order)?;
    let entries = entries_of(alloc, net, table)?;
    Ok(Certificate::TableProof {
        order: Items::new(names),
        entries: Items::new(entries),
    })
}
