//! The certificates that decide a network, by its closure or by rounds.

ghost use Rattle.std.specs.Prelude.{◌≡◌, IfOk};
ghost use Rattle.net_model.specs.ShownForm.{shown_form};
ghost use Rattle.closure_certificates.specs.Certified.{Certifies};

use cert_format::Certificate;
use net_model::Network;
use network_closure::close;
use network_refutation::{certify, prove};
use parallel_rounds::{Gate, NoGate, Workers};
use std::alloc::AllocError;
use std::thread::Threads;

/// The certificate that decides the shown form of a network, for those who expect it to be
/// controllable: the table proof by its closure, which the workers test, or, if the network is not
/// controllable, the refutation by the rounds of one worker, before whose rows no gate is called.
/// `AllocError` comes only if memory is refused.
pub fn certify_by_closure<R: Threads + Sync, G: Gate>(
    workers: &Workers<'_, R, G>,
    net: &Network,
) -> Result<Certificate, AllocError>
    ensures { IfOk result (Certifies (shown_form net.now)) }
{
    let rt = workers.rt();
    let alloc = workers.alloc();
    let shown = net.shown(alloc)?;
    match close(rt, alloc, &shown, workers.count())? {
        Some(closed) => prove(alloc, &shown, &closed.table, closed.order.as_slice()),
        None => certify(&Workers::of(rt, alloc, 1, &NoGate), &shown),
    }
}

/// The certificate that decides the shown form of a network, for those who expect it not to be
/// controllable: the refutation by the rounds of the workers, or the table proof if these close the
/// table; the gate is called before each row. `AllocError` comes only if memory is refused.
pub fn certify_by_rounds<R: Threads + Sync, G: Gate>(
    workers: &Workers<'_, R, G>,
    net: &Network,
) -> Result<Certificate, AllocError>
    ensures { IfOk result (Certifies (shown_form net.now)) }
{
    let shown = net.shown(workers.alloc())?;
    certify(workers, &shown)
}
