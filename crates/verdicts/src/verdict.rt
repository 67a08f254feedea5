//! The verdict of a network: whoever needs one decides it here.

ghost use Rattle.std.specs.Prelude.{◌≡◌, ◌≤◌, IfOk};
ghost use Rattle.net_model.specs.ShownForm.{shown_form};
ghost use Rattle.cell_table.specs.Limits.{key_count, most_keys};
ghost use Rattle.verdicts.specs.Decisions.{IsDecidedBy, IsOrderedClosure, IsOrderedForwardTable};
ghost use Rattle.verdicts.specs.Verdict.{IsVerdictBy, refutation_of};

use crate::certificates::certify_by_rounds;
use crate::closures::{closure_by_cells, closure_if_controllable};
use crate::deciding_tables::{DecidingTable, forward_table_if_controllable};
use cert_format::Certificate;
use forward_closure::ForwardClosed;
use net_model::Network;
use network_closure::Closed;
use parallel_rounds::{Gate, Workers};
use std::alloc::AllocError;
use std::thread::Threads;
use strategy_model::laws::shown::law_controllable_is_shown;

/// The verdict of a network, and what decides it.
#[derive(Drop)]
pub enum Verdict<T> {
    /// Some strategy controls the network, which is given back with its shown form and the table
    /// that decides that, in its order.
    Controllable {
        stated: Network,
        shown: Network,
        closed: T,
    },
    /// None does, and this refutes its shown form.
    Refuted(Certificate),
}

/// Decides whether a network, with any delay, is controllable, by a forward closed table of its
/// shown form (`law_controllable_is_shown`, strategy_model); a network that is excluded already if
/// every link takes its longest duration is refused before a table is closed. A session is opened
/// only if the network is not controllable, since the nodes of the certificate are those of its
/// rounds. The workers test the table and make the rows of a round; the gate is called before each
/// row. `AllocError` comes only if memory is refused. The verdict depends neither on the number of
/// workers nor on the gate.
pub fn decide<R: Threads + Sync, G: Gate>(
    workers: &Workers<'_, R, G>,
    net: Network,
) -> Result<Verdict<ForwardClosed>, AllocError>
    ensures { IfOk result (IsVerdictBy IsOrderedForwardTable net) }
{
    let shown = net.shown(workers.alloc())?;
    let found = forward_table_if_controllable(workers, &shown)?;
    verdict_by(workers, net, shown, found)
}

/// Decides the same by the closure of the shown form, for those who prove a network controllable.
pub fn decide_by_closure<R: Threads + Sync, G: Gate>(
    workers: &Workers<'_, R, G>,
    net: Network,
) -> Result<Verdict<Closed>, AllocError>
    ensures { IfOk result (IsVerdictBy IsOrderedClosure net) }
{
    let shown = net.shown(workers.alloc())?;
    let found = closure_if_controllable(workers, &shown)?;
    verdict_by(workers, net, shown, found)
}

/// Decides the same for a network whose keys fit into shared cells, by these: the workers relax the
/// cells of its shown form. The certificate is made of rounds here too. `AllocError` comes only if
/// memory is refused.
pub fn decide_by_cells<R: Threads + Sync, G: Gate>(
    workers: &Workers<'_, R, G>,
    net: Network,
) -> Result<Verdict<Closed>, AllocError>
    requires few { key_count net ≤ most_keys }
    ensures { IfOk result (IsVerdictBy IsOrderedClosure net) }
{
    let shown = net.shown(workers.alloc())?;
    let found = closure_by_cells(workers, &shown)?;
    verdict_by(workers, net, shown, found)
}

/// The verdict of a network, by the decision of its shown form.
fn verdict_by<R: Threads + Sync, G: Gate, T: DecidingTable>(
    workers: &Workers<'_, R, G>,
    net: Network,
    shown: Network,
    found: Option<T>,
) -> Result<Verdict<T>, AllocError>
    requires as_shown { shown ≡ shown_form net }
    requires decided { IsDecidedBy T.decides shown found }
    ensures { IfOk result (IsVerdictBy T.decides net) }
{
    law_controllable_is_shown();
    net.sound();
    match found {
        Some(closed) => Ok(Verdict::Controllable {
            stated: net,
            shown,
            closed,
        }),
        None => {
            let certificate = certify_by_rounds(workers, &net)?;
            Ok(Verdict::Refuted(certificate))
        }
    }
}

impl<T: Drop> Verdict<T> {
    /// The certificate that refutes the network, unless it is controllable.
    pub fn refutation(self) -> Option<Certificate>
        ensures { result ≡ refutation_of self }
    {
        match self {
            Verdict::Controllable { .. } => None,
            Verdict::Refuted(certificate) => Some(certificate),
        }
    }
}
