//! The accepted edits of a session, from which `report` is answered.

ghost use Rattle.std.specs.Prelude.{◌≡◌, [], ◌∷◌, ◌++◌, IfOk};
ghost use Rattle.session_command.specs.EditHistory.{edits_in, first_in};
ghost use Rattle.session_command.specs.EditHistory.{AreKeptAccepted};
ghost use Rattle.session_command.specs.Followed.{AreAccepted, IsReport};

use crate::derivations::{Derivations, Derived};
use net_model::{Edit, Network};
use parallel_rounds::{NoGate, Workers};
use plan_session::Report;
use std::alloc::{AllocError, Global};
use std::marker::Model;
use std::thread::Threads;

/// How many accepted edits are noted at most before derivations follow them. So many take some
/// 120 MB.
const MOST_NOTED: usize = 1_000_000;

/// The edits of a network that were accepted: those that derivations have followed, and those
/// that are noted, so that derivations are made only if the session is asked for its report.
/// Contracts see the network as it was first, and the edits in their order.
#[derive(Drop)]
pub(crate) struct History {
    derived: Derived,
    noted: Vec<Edit>,
}

impl Model for History {
    ghost use Rattle.std.specs.Prelude.{◌++◌};
    ghost use Rattle.session_command.specs.EditHistory.{first_of, followed_by};
    ghost use Rattle.session_command.specs.Followed.{Past};

    ghost Value = { Past };

    ghost view = { λ history. record {
      first = first_of history.derived;
      edits = followed_by history.derived ++ history.noted.items;
    } };
}

impl History {
    /// That of a network of which one edit was accepted. `AllocError` comes only for want of
    /// memory.
    pub(crate) fn of(alloc: Global, first: Network, edit: &Edit) -> Result<History, AllocError>
        ensures { IfOk result (λ history. history ≡ record {
          first = first;
          edits = edit.now ∷ [];
        }) }
    {
        let history = History {
            derived: Derived::Nothing(first),
            noted: Vec::new(alloc),
        };
        history.with_edit(edit)
    }

    /// Notes one more accepted edit; if so many are noted already, derivations follow those first.
    /// `AllocError` comes only for want of memory.
    pub(crate) fn note<R: Threads + Sync>(
        self,
        workers: &Workers<'_, R, NoGate>,
        edit: &Edit,
    ) -> Result<History, AllocError>
        requires accepted { AreAccepted self.first self.edits }
        ensures { IfOk result (λ history. history ≡ record {
          first = self.first;
          edits = self.edits ++ edit.now ∷ [];
        }) }
    {
        if self.noted.len() < MOST_NOTED {
            self.with_edit(edit)
        } else {
            let derivations = self.derive(workers)?;
            History::after(workers.alloc(), derivations).with_edit(edit)
        }
    }

    /// The report of the last accepted edit, if there is one: derivations follow the noted edits.
    /// `AllocError` comes only for want of memory.
    pub(crate) fn report<R: Threads + Sync>(
        self,
        workers: &Workers<'_, R, NoGate>,
    ) -> Result<(History, Option<Report>), AllocError>
        requires accepted { AreAccepted self.first self.edits }
        ensures same { IfOk result (λ answer. answer.0 ≡ self) }
        ensures report { IfOk result (λ answer. IsReport self.first self.edits answer.1) }
    {
        let derivations = self.derive(workers)?;
        let report = derivations.report();
        Ok((History::after(workers.alloc(), derivations), report))
    }

    /// Derivations that have followed each edit.
    fn derive<R: Threads + Sync>(
        self,
        workers: &Workers<'_, R, NoGate>,
    ) -> Result<Derivations, AllocError>
        requires accepted { AreAccepted self.first self.edits }
        ensures first { IfOk result (λ derivations. derivations.first ≡ self.first) }
        ensures edits { IfOk result (λ derivations. derivations.edits ≡ self.edits) }
    {
        let rt = workers.rt();
        let alloc = workers.alloc();
        let History { derived, noted } = self;
        let derivations = derived.opened(workers)?;
        derivations.follow_all(rt, alloc, noted.as_slice())
    }

    /// The history that derivations have followed.
    fn after(alloc: Global, derivations: Derivations) -> History
        ensures { result ≡ record { first = derivations.first; edits = derivations.edits } }
    {
        History {
            derived: Derived::Followed(derivations),
            noted: Vec::new(alloc),
        }
    }

    /// Notes one more edit.
    fn with_edit(mut self, edit: &Edit) -> Result<History, AllocError>
        ensures { IfOk result (λ history. history ≡ record {
          first = self.first;
          edits = self.edits ++ edit.now ∷ [];
        }) }
    {
        self.noted.push(*edit)?;
        Ok(self)
    }
}

/// What is kept of accepted edits after one more, which was accepted of this network: if nothing was
/// kept before, the network is as it was first. `AllocError` comes only for want of memory.
pub(crate) fn with_accepted<R: Threads + Sync>(
    workers: &Workers<'_, R, NoGate>,
    net: Network,
    history: Option<History>,
    edit: &Edit,
) -> Result<History, AllocError>
    requires accepted { AreKeptAccepted history }
    ensures { IfOk result (λ after. after ≡ record {
      first = first_in net history;
      edits = edits_in history ++ edit.now ∷ [];
    }) }
{
    match history {
        None => History::of(workers.alloc(), net, edit),
        Some(history) => history.note(workers, edit),
    }
}
