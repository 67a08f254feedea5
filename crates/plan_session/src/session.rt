//! Sessions: a network under edits, with its shown form and the derivations of that.

ghost use Rattle.std.specs.Prelude.{◌≡◌, ◌≤◌, Some, IfOk};
ghost use Rattle.net_model.specs.ShownForm.{shown_form};
ghost use Rattle.strategy_model.specs.Control.{IsControllable};
ghost use Rattle.cert_format.specs.declared.certificate.Certificate.{Certificate};
ghost use Rattle.closure_certificates.specs.Certified.{Certifies};
ghost use Rattle.work_board.specs.Limits.{most_seats};
ghost use Rattle.dispatch_net.specs.OfClosure.{IsDispatchOfClosure};
ghost use Rattle.plan_session.specs.Sessions.{IsOpen, IsOpenedOn, AnswersEdit, AnswersReopening};
ghost use Rattle.plan_session.specs.Sessions.{IsVerdictOf, AnswersProof, Lends};
ghost use Rattle.plan_session.specs.Kept.{IsKept, opened_of};

use crate::answers::{AskFault, Report, SessionFault, Verdict};
use crate::propagated::Propagated;
use crate::session_network::SessionNetwork;
use cert_format::Certificate;
use closure_certificates::laws::law_certificates_are_one;
use dispatch_net::Dispatch;
use net_model::{Edit, EditFault, Network};
use parallel_rounds::Gate;
use std::alloc::{AllocError, Global};
use std::marker::Model;
use std::thread::Threads;
use support_records::Store;

/// A plan under edits: the network as it stands, its shown form, and the derivations of that, of
/// which an edit withdraws what rests on what it takes away. Contracts see it as the network, and
/// the derivations with how the last rounds ended, unless the session is broken, and the number of
/// workers, on which no answer depends. It is broken after want of memory in `apply` or `reopen`,
/// until a `reopen` that succeeds.
#[derive(Debug, Drop)]
pub struct Session {
    network: SessionNetwork,
    /// `None` exactly if the session is broken.
    propagated: Option<Propagated>,
}

impl Model for Session {
    ghost use Rattle.std.specs.Prelude.{IfSome};
    ghost use Rattle.std.specs.Option.{option_map};
    ghost use Rattle.plan_session.specs.Sessions.{SessionView};
    ghost use Rattle.plan_session.specs.Codes.{session_code};
    ghost use Rattle.plan_session.specs.Kept.{IsKept, opened_of};

    ghost Value = { SessionView };

    ghost coded = { session_code };

    ghost view = { λ session. record {
      state =
          record {
            net = session.network.net;
            opened = option_map opened_of session.propagated;
          };
      workers = session.network.workers;
    } };

    ghost invariant = { λ session. IfSome session.propagated (IsKept session.network.net) };
}

impl Session {
    /// Opens a session of a network: rounds are made from the base of its shown form by so many
    /// workers, 1 to 64; the gate is called before each row. `AllocError` comes only for want of
    /// memory. `apply` and `reopen` keep the number of workers.
    pub fn open<R: Threads + Sync, G: Gate>(
        rt: &R,
        alloc: Global,
        net: Network,
        workers: u32,
        gate: &G,
    ) -> Result<Session, AllocError>
        requires { (1 ≤ workers) × (workers ≤ most_seats) }
        ensures opened { IfOk result (λ session. IsOpenedOn net session.state) }
        ensures workers { IfOk result (λ session. session.workers ≡ workers) }
    {
        let network = SessionNetwork::of(alloc, net, workers)?;
        let propagated = Propagated::of(&network.workers(rt, alloc, gate), &network)?;
        Ok(Session {
            network,
            propagated: Some(propagated),
        })
    }

    /// Edits the network, which keeps its delay: the derivations that rest on nothing taken away of
    /// the shown form are kept, those of what is new come after them, and rounds are made from
    /// there. Taken away is what the edit drops or sets, and what stands in the new shown form with
    /// another number. If the network had the numbers that a plan may have, it has them afterwards.
    /// `Edit` comes exactly if the session is not broken and the edit is refused, and then nothing
    /// changes. `OutOfMemory` comes only for want of memory; then the session keeps its old network
    /// and is broken. `Broken` comes exactly if the session is broken, and then nothing changes.
    pub fn apply<R: Threads + Sync, G: Gate>(
        &mut self,
        rt: &R,
        alloc: Global,
        edit: &Edit,
        gate: &G,
    ) -> Result<Report, SessionFault>
        ensures answers { AnswersEdit self.old.state edit.now result self.new.state }
        ensures workers { self.new.workers ≡ self.old.workers }
    {
        let Some(propagated) = self.propagated.take() else {
            return Err(SessionFault::Broken);
        };
        match self.network.edited(alloc, edit) {
            Ok(network) => {
                let workers = network.workers(rt, alloc, gate);
                let (propagated, report) = propagated.follow(
                    &workers,
                    &self.network,
                    edit,
                    &network,
                )?;
                self.network = network;
                self.propagated = Some(propagated);
                Ok(report)
            }
            Err(EditFault::OutOfMemory) => Err(SessionFault::OutOfMemory),
            Err(cause) => {
                self.propagated = Some(propagated);
                Err(SessionFault::Edit(cause))
            }
        }
    }

    /// Makes the session anew from its network, which keeps its delay: rounds are made from the
    /// base, as `open` makes them, and whatever was opened is dropped first. A broken session
    /// answers again. `AllocError` comes only for want of memory; then the session keeps its
    /// network and is broken.
    pub fn reopen<R: Threads + Sync, G: Gate>(
        &mut self,
        rt: &R,
        alloc: Global,
        gate: &G,
    ) -> Result<(), AllocError>
        ensures answers { AnswersReopening self.old.state result self.new.state }
        ensures workers { self.new.workers ≡ self.old.workers }
    {
        self.propagated = None;
        let workers = self.network.workers(rt, alloc, gate);
        let propagated = Propagated::of(&workers, &self.network)?;
        self.propagated = Some(propagated);
        Ok(())
    }

    /// Whether the network as it stands is controllable. `Broken` comes exactly if the session is
    /// broken. It takes no memory.
    pub fn verdict(&self) -> Verdict
        ensures { IsVerdictOf self.now.state result }
    {
        match &self.propagated {
            None => Verdict::Broken,
            Some(propagated) => {
                if propagated.is_controllable(&self.network) {
                    Verdict::Controllable
                } else {
                    Verdict::NotControllable
                }
            }
        }
    }

    /// The certificate that decides the network as it stands: the table proof of its shown form, if
    /// some strategy controls it, else that of the refutation by the rounds from the base of that.
    /// It is a function of the network, whatever edits led to it, and the judge accepts it.
    /// `Broken` comes exactly if the session is broken. `OutOfMemory` comes only for want of
    /// memory, and the session is as it was.
    pub fn certificate<R: Threads + Sync>(
        &self,
        rt: &R,
        alloc: Global,
    ) -> Result<Certificate, AskFault>
        ensures answers { AnswersProof self.now.state result }
        ensures one { (other : Certificate) → Certifies (shown_form self.now.state.net) other
            → IfOk result (λ cert. cert ≡ other) }
    {
        law_certificates_are_one();
        match &self.propagated {
            None => Err(AskFault::Broken),
            Some(propagated) => Ok(propagated.certificate(rt, alloc, &self.network)?),
        }
    }

    /// The dispatchable network of the closure of the shown form of the network as it stands, which
    /// is controllable. `AllocError` comes only for want of memory.
    pub fn dispatch(&self, alloc: Global) -> Result<Dispatch, AllocError>
        requires open { IsOpen self.now.state }
        requires controllable { IsControllable self.now.state.net }
        ensures { IfOk result (IsDispatchOfClosure (shown_form self.now.state.net)) }
    {
        match self.kept().dispatch(alloc, &self.network)? {
            Some(dispatch) => Ok(dispatch),
            None => unreachable!(),
        }
    }

    /// The network as it stands.
    pub fn network(&self) -> &Network
        ensures { result.now ≡ self.now.state.net }
    {
        self.network.stated()
    }

    /// The shown form of the network as it stands, whatever the session's state.
    pub fn shown(&self) -> &Network
        ensures { result.now ≡ shown_form self.now.state.net }
    {
        self.network.shown()
    }

    /// The derivation list of the shown form with its table, of a session that is not broken.
    pub fn store(&self) -> &Store
        requires { IsOpen self.now.state }
        ensures { Lends self.now.state result.now }
    {
        self.kept().store()
    }

    /// What a session that is not broken keeps of its network.
    fn kept(&self) -> &Propagated
        requires { IsOpen self.now.state }
        ensures opened { self.now.state.opened ≡ Some (opened_of result.now) }
        ensures kept { IsKept self.now.state.net result.now }
    {
        match &self.propagated {
            None => unreachable!(),
            Some(propagated) => propagated,
        }
    }

    /// The network as it stands and its shown form; the session ends.
    pub fn into_networks(self) -> (Network, Network)
        ensures stated { result.0 ≡ self.state.net }
        ensures shown { result.1 ≡ shown_form self.state.net }
    {
        let Session { network, .. } = self;
        network.into_networks()
    }
}
