//! A session that is not broken.

ghost use Rattle.std.specs.Prelude.{◌≡◌, true, false, IfOk};
ghost use Rattle.net_model.specs.ShownForm.{shown_form};
ghost use Rattle.strategy_model.specs.Control.{IsControllable};
ghost use Rattle.closure_certificates.specs.Certified.{Certifies};
ghost use Rattle.plan_session.specs.Sessions.{IsOpenedOn};
ghost use Rattle.plan_session.specs.Kept.{IsDispatchIfControllable};
ghost use Rattle.plan_session.specs.OpenSessions.{FollowsOrRefuses};

use crate::answers::Report;
use crate::propagated::Propagated;
use crate::session_network::SessionNetwork;
use cert_format::Certificate;
use dispatch_net::Dispatch;
use net_model::{Edit, EditFault, Network};
use parallel_rounds::{Gate, Workers};
use std::alloc::{AllocError, Global};
use std::marker::Model;
use std::thread::Threads;

/// A session that is not broken: want of memory ends it, so whoever owns one has a session that
/// answers. The commands use this one. Contracts see it as a session.
#[derive(Debug, Drop)]
pub struct OpenSession {
    network: SessionNetwork,
    propagated: Propagated,
}

impl Model for OpenSession {
    ghost use Rattle.plan_session.specs.Sessions.{SessionView, open_state};
    ghost use Rattle.plan_session.specs.Codes.{session_code};
    ghost use Rattle.plan_session.specs.Kept.{IsKept, opened_of};

    ghost Value = { SessionView };

    ghost coded = { session_code };

    ghost view = { λ session. record {
      state = open_state session.network.net (opened_of session.propagated);
      workers = session.network.workers;
    } };

    ghost invariant = { λ session. IsKept session.network.net session.propagated };
}

/// What an edit makes of a session that is not broken.
#[derive(Debug, Drop)]
pub enum Edited {
    /// The session after the edit, and what that came to.
    Followed(OpenSession, Report),
    /// The session as it was, and why the edit is refused.
    Refused(OpenSession, EditFault),
}

impl OpenSession {
    /// Opens a session of a network by workers, as `Session::open`. `AllocError` comes only for
    /// want of memory.
    pub fn open<R: Threads + Sync, G: Gate>(
        workers: &Workers<'_, R, G>,
        net: Network,
    ) -> Result<OpenSession, AllocError>
        ensures opened { IfOk result (λ session. IsOpenedOn net session.state) }
        ensures workers { IfOk result (λ session. session.workers ≡ workers.now) }
    {
        let network = SessionNetwork::of(workers.alloc(), net, workers.count())?;
        let propagated = Propagated::of(workers, &network)?;
        Ok(OpenSession {
            network,
            propagated,
        })
    }

    /// Edits the network, as `Session::apply`: the session follows the edit, or refuses it, and then
    /// is as it was. `AllocError` comes only for want of memory, and ends the session.
    pub fn apply<R: Threads + Sync, G: Gate>(
        self,
        rt: &R,
        alloc: Global,
        edit: &Edit,
        gate: &G,
    ) -> Result<Edited, AllocError>
        ensures { IfOk result (FollowsOrRefuses self edit.now) }
    {
        match self.network.edited(alloc, edit) {
            Ok(edited) => {
                let OpenSession {
                    network,
                    propagated,
                } = self;
                let workers = edited.workers(rt, alloc, gate);
                let (propagated, report) = propagated.follow(&workers, &network, edit, &edited)?;
                let session = OpenSession {
                    network: edited,
                    propagated,
                };
                Ok(Edited::Followed(session, report))
            }
            Err(EditFault::OutOfMemory) => Err(AllocError),
            Err(cause) => Ok(Edited::Refused(self, cause)),
        }
    }

    /// Whether the network as it stands is controllable.
    pub fn is_controllable(&self) -> bool
        ensures yes { result ≡ true → IsControllable self.now.state.net }
        ensures no { result ≡ false → ¬ IsControllable self.now.state.net }
    {
        self.propagated.is_controllable(&self.network)
    }

    /// The certificate that decides the network as it stands, as `Session::certificate`.
    /// `AllocError` comes only for want of memory.
    pub fn certificate<R: Threads + Sync>(
        &self,
        rt: &R,
        alloc: Global,
    ) -> Result<Certificate, AllocError>
        ensures { IfOk result (Certifies (shown_form self.now.state.net)) }
    {
        self.propagated.certificate(rt, alloc, &self.network)
    }

    /// The dispatchable network of the closure of the shown form of the network as it stands,
    /// exactly if that is controllable. `AllocError` comes only for want of memory.
    pub fn dispatch(&self, alloc: Global) -> Result<Option<Dispatch>, AllocError>
        ensures { IfOk result (IsDispatchIfControllable self.now.state.net) }
    {
        self.propagated.dispatch(alloc, &self.network)
    }

    /// The network as it stands.
    pub fn network(&self) -> &Network
        ensures { result.now ≡ self.now.state.net }
    {
        self.network.stated()
    }

    /// The shown form of the network as it stands.
    pub fn shown(&self) -> &Network
        ensures { result.now ≡ shown_form self.now.state.net }
    {
        self.network.shown()
    }
}
