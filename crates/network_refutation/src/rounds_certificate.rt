//! The certificate that decides a network, by rounds from its base.

ghost use Rattle.std.specs.Prelude.{◌≡◌, IfOk, IfSome};
ghost use Rattle.closure_model.specs.Derivations.{base_support};
ghost use Rattle.parallel_rounds.specs.Propagated.{IsPropagated};
ghost use Rattle.closure_certificates.specs.Certified.{Certifies};

use crate::proving::prove;
use cert_format::Certificate;
use closure_laws::laws::law_standing_cycles_exclude;
use derivation_dag::{Plain, Pruned, Supports};
use net_model::Network;
use parallel_rounds::{Gate, Outcome, Workers};
use refutation_certificates::{refutation, refutation_if_held};
use std::alloc::{AllocError, Global};
use std::thread::Threads;

/// The certificate that decides a network without a delay, by the rounds of workers from its base:
/// the table proof if they close the table, else the refutation by their cycle. The gate is called
/// before each row. Of the derivation list that only is held that the rounds still need, which is
/// no clause. `AllocError` comes only for want of memory.
pub fn certify<R: Threads + Sync, G: Gate>(
    workers: &Workers<'_, R, G>,
    net: &Network,
) -> Result<Certificate, AllocError>
    requires no_delay { net.now.delay ≡ 0 }
    ensures { IfOk result (Certifies net.now) }
{
    let alloc = workers.alloc();
    let mut store = Pruned::of(alloc, net)?;
    let outcome = workers.propagate(net, &mut store)?;
    match certificate_if_held(alloc, net, &store, &outcome)? {
        Some(certificate) => Ok(certificate),
        None => certify_by_whole_list(workers, net),
    }
}

/// The certificate by rounds that ended, if the store holds what it takes.
fn certificate_if_held(
    alloc: Global,
    net: &Network,
    store: &Pruned,
    outcome: &Outcome,
) -> Result<Option<Certificate>, AllocError>
    requires no_delay { net.now.delay ≡ 0 }
    requires propagated { IsPropagated net.now (base_support net.now) store.now outcome.now }
    ensures { IfOk result (λ held. IfSome held (Certifies net.now)) }
{
    law_standing_cycles_exclude();
    net.sound();
    match outcome {
        Outcome::Closed { order, .. } => {
            let certificate = prove(alloc, net, store.table(), order.as_slice())?;
            Ok(Some(certificate))
        }
        Outcome::Looped { cycle, .. } => refutation_if_held(alloc, net, store, cycle.as_slice()),
    }
}

/// The same by a store that holds the whole list.
fn certify_by_whole_list<R: Threads + Sync, G: Gate>(
    workers: &Workers<'_, R, G>,
    net: &Network,
) -> Result<Certificate, AllocError>
    requires no_delay { net.now.delay ≡ 0 }
    ensures { IfOk result (Certifies net.now) }
{
    law_standing_cycles_exclude();
    net.sound();
    let alloc = workers.alloc();
    let mut store = Plain::of(alloc, net)?;
    match workers.propagate(net, &mut store)? {
        Outcome::Closed { order, .. } => prove(alloc, net, store.table(), order.as_slice()),
        Outcome::Looped { cycle, .. } => {
            refutation(alloc, net, &store, store.dag(), cycle.as_slice())
        }
    }
}
