//! What a session keeps of its network: the derivations of the shown form, and how the rounds ended
//! that made them.

ghost use Rattle.std.specs.Prelude.{◌≡◌, ◌↔◌, IfOk, IsTrue};
ghost use Rattle.net_model.specs.ShownForm.{shown_form};
ghost use Rattle.strategy_model.specs.Control.{IsControllable};
ghost use Rattle.closure_certificates.specs.Certified.{Certifies};
ghost use Rattle.parallel_rounds.specs.Propagated.{rounds_of};
ghost use Rattle.plan_session.specs.Sessions.{Opens, Accepts, open_state};
ghost use Rattle.plan_session.specs.SessionNetworks.{Makes};
ghost use Rattle.plan_session.specs.Kept.{IsKept, IsDispatchIfControllable, opened_of};

use crate::answers::Report;
use crate::session_network::SessionNetwork;
use cert_format::Certificate;
use closure_laws::laws::{law_ordered_closures_are_controllable, law_standing_cycles_exclude};
use derivation_dag::Supports;
use dispatch_net::Dispatch;
use dispatch_net::laws::law_closures_may_dispatch;
use edit_laws::laws::{law_edits_withdraw_nodes, law_shown_forms_follow_edits};
use net_model::Edit;
use network_refutation::{certify, prove};
use parallel_rounds::{Gate, NoGate, Outcome, Workers};
use refutation_certificates::refutation;
use shared_table_laws::laws::law_later_nodes_improve;
use std::alloc::{AllocError, Global};
use std::thread::Threads;
use strategy_model::laws::shown::law_controllable_is_shown;
use support_records::Store;

/// The derivations of the shown form of a network, how the rounds ended that made them, and whether
/// these were made from its base alone.
#[derive(Debug, Drop)]
pub(crate) struct Propagated {
    store: Store,
    outcome: Outcome,
    from_base: bool,
}

impl Propagated {
    /// Makes rounds from the base.
    pub(crate) fn of<R: Threads + Sync, G: Gate>(
        workers: &Workers<'_, R, G>,
        network: &SessionNetwork,
    ) -> Result<Propagated, AllocError>
        ensures opened { IfOk result (λ made. Opens (shown_form network.now.net) (opened_of made)) }
        ensures kept { IfOk result (IsKept network.now.net) }
    {
        let shown = network.shown();
        let mut store = Store::of(workers.alloc(), shown)?;
        let outcome = workers.propagate(shown, &mut store)?;
        Ok(Propagated {
            store,
            outcome,
            from_base: true,
        })
    }

    /// Follows an edit of the network, and makes rounds from there.
    pub(crate) fn follow<R: Threads + Sync, G: Gate>(
        self,
        workers: &Workers<'_, R, G>,
        old: &SessionNetwork,
        edit: &Edit,
        new: &SessionNetwork,
    ) -> Result<(Propagated, Report), AllocError>
        requires kept { IsKept old.now.net self }
        requires makes { Makes old.now.net edit.now new.now.net }
        ensures accepts { IfOk result (λ after. Accepts
            (open_state old.now.net (opened_of self)) edit.now after.1
            (open_state new.now.net (opened_of after.0))) }
        ensures kept { IfOk result (λ after. IsKept new.now.net after.0) }
    {
        law_edits_withdraw_nodes();
        law_later_nodes_improve();
        law_shown_forms_follow_edits();
        old.sound();
        let shown = new.shown();
        let Propagated { mut store, .. } = self;
        let withdrawn = store.follow(workers.alloc(), old.shown(), edit, shown)?;
        let outcome = workers.propagate(shown, &mut store)?;
        let report = Report {
            kept: withdrawn.kept,
            withdrawn: withdrawn.withdrawn,
            rounds: rounds_of(&outcome),
        };
        let followed = Propagated {
            store,
            outcome,
            from_base: false,
        };
        Ok((followed, report))
    }

    /// Whether the network is controllable.
    pub(crate) fn is_controllable(&self, network: &SessionNetwork) -> bool
        requires { IsKept network.now.net self.now }
        ensures { IsTrue result ↔ IsControllable network.now.net }
    {
        law_controllable_is_shown();
        law_ordered_closures_are_controllable();
        law_standing_cycles_exclude();
        network.sound();
        match self.outcome {
            Outcome::Closed { .. } => true,
            Outcome::Looped { .. } => false,
        }
    }

    /// The certificate that decides the shown form of the network: the table proof by its closure,
    /// or the refutation by rounds from its base, which are made anew if these began elsewhere.
    pub(crate) fn certificate<R: Threads + Sync>(
        &self,
        rt: &R,
        alloc: Global,
        network: &SessionNetwork,
    ) -> Result<Certificate, AllocError>
        requires { IsKept network.now.net self.now }
        ensures { IfOk result (Certifies (shown_form network.now.net)) }
    {
        law_standing_cycles_exclude();
        network.sound();
        let shown = network.shown();
        match &self.outcome {
            Outcome::Closed { order, .. } => {
                prove(alloc, shown, self.store.table(), order.as_slice())
            }
            Outcome::Looped { cycle, .. } if self.from_base => {
                refutation(
                    alloc,
                    shown,
                    &self.store,
                    self.store.dag(),
                    cycle.as_slice(),
                )
            }
            Outcome::Looped { .. } => certify(&network.workers(rt, alloc, &NoGate), shown),
        }
    }

    /// The dispatchable network of the closure, exactly if the network is controllable.
    pub(crate) fn dispatch(
        &self,
        alloc: Global,
        network: &SessionNetwork,
    ) -> Result<Option<Dispatch>, AllocError>
        requires { IsKept network.now.net self.now }
        ensures { IfOk result (IsDispatchIfControllable network.now.net) }
    {
        law_closures_may_dispatch();
        law_controllable_is_shown();
        law_ordered_closures_are_controllable();
        law_standing_cycles_exclude();
        network.sound();
        match &self.outcome {
            Outcome::Closed { order, .. } => {
                let table = self.store.table();
                let dispatch = Dispatch::of(alloc, network.shown(), table, order.as_slice())?;
                Ok(Some(dispatch))
            }
            Outcome::Looped { .. } => Ok(None),
        }
    }

    /// The list and the table.
    pub(crate) fn store(&self) -> &Store
        ensures { result.now ≡ self.now.store }
    {
        &self.store
    }
}

/// How many rounds were made.
fn rounds_of(outcome: &Outcome) -> u64
    ensures { result ≡ rounds_of outcome.now }
{
    match outcome {
        Outcome::Closed { rounds, .. } | Outcome::Looped { rounds, .. } => *rounds,
    }
}
