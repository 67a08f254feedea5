//! What a session asks of its network as it stands: whether it is controllable, the certificate that
//! decides it, and by what it is executed.

ghost use Rattle.std.specs.Prelude.{IfOk};
ghost use Rattle.net_model.specs.ShownForm.{shown_form};
ghost use Rattle.closure_certificates.specs.Certified.{Certifies};
ghost use Rattle.session_command.specs.EditHistory.{IsDispatched, IsDispatchedByClosure, IsVerdict};

use cert_format::Certificate;
use closure_laws::laws::{law_cycles_of_tables_exclude, law_ordered_closures_are_controllable};
use dispatch_net::Dispatch;
use dispatch_net::laws::law_closures_may_dispatch;
use net_model::Network;
use network_closure::close;
use parallel_rounds::{NoGate, Workers};
use std::alloc::AllocError;
use std::thread::Threads;
use strategy_model::laws::shown::law_controllable_is_shown;
use verdicts::{certify_by_closure, certify_by_rounds, dispatch_by, forward_table_if_controllable};

/// Whether a network is controllable, by a forward closed table of its shown form, which the
/// workers test. `AllocError` comes only for want of memory.
pub(crate) fn is_controllable<R: Threads + Sync>(
    workers: &Workers<'_, R, NoGate>,
    net: &Network,
) -> Result<bool, AllocError>
    ensures { IfOk result (IsVerdict net.now) }
{
    law_controllable_is_shown();
    net.sound();
    let shown = net.shown(workers.alloc())?;
    match forward_table_if_controllable(workers, &shown)? {
        Some(_) => Ok(true),
        None => Ok(false),
    }
}

/// The shown form of a network with the dispatchable network of a forward closed table of it,
/// exactly if the network is controllable. `AllocError` comes only for want of memory.
pub(crate) fn dispatch_if_controllable<R: Threads + Sync>(
    workers: &Workers<'_, R, NoGate>,
    net: &Network,
) -> Result<Option<(Network, Dispatch)>, AllocError>
    ensures { IfOk result (IsDispatched net.now) }
{
    law_controllable_is_shown();
    net.sound();
    let alloc = workers.alloc();
    let shown = net.shown(alloc)?;
    match forward_table_if_controllable(workers, &shown)? {
        Some(closed) => {
            let dispatch = dispatch_by(alloc, &shown, &closed)?;
            Ok(Some((shown, dispatch)))
        }
        None => Ok(None),
    }
}

/// The shown form of a network with the dispatchable network of its closure, exactly if the network
/// is controllable. `AllocError` comes only for want of memory.
pub(crate) fn dispatch_of_closure<R: Threads + Sync>(
    workers: &Workers<'_, R, NoGate>,
    net: &Network,
) -> Result<Option<(Network, Dispatch)>, AllocError>
    ensures { IfOk result (IsDispatchedByClosure net.now) }
{
    law_closures_may_dispatch();
    law_controllable_is_shown();
    law_cycles_of_tables_exclude();
    law_ordered_closures_are_controllable();
    net.sound();
    let alloc = workers.alloc();
    let shown = net.shown(alloc)?;
    match close(workers.rt(), alloc, &shown, workers.count())? {
        Some(closed) => {
            let dispatch = Dispatch::of(alloc, &shown, &closed.table, closed.order.as_slice())?;
            Ok(Some((shown, dispatch)))
        }
        None => Ok(None),
    }
}

/// The certificate that decides the shown form of a network: by its closure if the network is
/// controllable, else by rounds. `AllocError` comes only for want of memory.
pub(crate) fn certificate<R: Threads + Sync>(
    workers: &Workers<'_, R, NoGate>,
    net: &Network,
    controllable: bool,
) -> Result<Certificate, AllocError>
    ensures { IfOk result (Certifies (shown_form net.now)) }
{
    if controllable {
        certify_by_closure(workers, net)
    } else {
        certify_by_rounds(workers, net)
    }
}
