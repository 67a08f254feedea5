//! The phase of `session` in which its network is edited.

ghost use Rattle.std.specs.Prelude.{◌≡◌, [], ◌∷◌, ◌++◌, Ok, IfOk, OnOk};
ghost use Rattle.net_model.specs.EditedNetwork.{edited};
ghost use Rattle.net_model.specs.Network.{IsPlan};
ghost use Rattle.edit_script.specs.declared.step.Step.TheVariants as step;
ghost use Rattle.session_command.specs.EditHistory.{IsDispatched, IsDispatchedByClosure, IsVerdict};
ghost use Rattle.session_command.specs.Followed.{IsReport};
ghost use Rattle.session_command.specs.Sessions.{net_of, OpensOn, SaysProof, SaysStep};
ghost use Rattle.session_command.specs.Sessions.{SaysTable, SaysVerdict, StandsAfter};

use crate::decided_network::{
    certificate, dispatch_if_controllable, dispatch_of_closure, is_controllable,
};
use crate::edit_history::{History, with_accepted};
use crate::session_answers::{push_refused, push_report, push_table};
use cert_format::print_certificate;
use command_contracts::WorkerCount;
use command_engine::{Answer, Word};
use common_answers::push_verdict;
use dispatch_net::Dispatch;
use net_model::{Edit, EditFault, Network};
use plan_format::print_plan;
use plan_session::Report;
use std::alloc::{AllocError, Global};
use std::marker::Model;
use std::mem;
use std::thread::Threads;

/// A session while its network is edited: the network as it stands, its verdict if that was asked
/// for since the last accepted edit, and the accepted edits, if there are any. No derivations are
/// made but for its report.
#[derive(Drop)]
pub struct Editing {
    net: Network,
    verdict: Option<bool>,
    workers: WorkerCount,
    history: Option<History>,
}

impl Model for Editing {
    ghost use Rattle.session_command.specs.EditHistory.{edits_in, first_in, IsKept};
    ghost use Rattle.session_command.specs.Standing.{Standing};

    ghost Value = { Standing };

    ghost view = { λ editing. record {
      first = first_in editing.net editing.history;
      edits = edits_in editing.history;
      net = editing.net;
    } };

    ghost invariant = { λ editing. IsKept editing.net editing.verdict editing.history };
}

impl Editing {
    /// The session of a network before any edit.
    pub(crate) fn of(net: Network, workers: WorkerCount) -> Editing
        ensures { OpensOn net result }
    {
        Editing {
            net,
            verdict: None,
            workers,
            history: None,
        }
    }

    /// Edits the network, and puts whether the edit is accepted; a refused one changes nothing.
    /// `AllocError` comes only for want of memory; then the caller drops the session.
    pub(crate) fn edit<R: Threads + Sync>(
        &mut self,
        rt: &R,
        alloc: Global,
        answer: &mut Answer,
        edit: &Edit,
    ) -> Result<(), AllocError>
        requires { answer.old.text ≡ [] }
        ensures says { OnOk result (SaysStep self.old (step.Edit edit.now) answer.new.text) }
        ensures stands { OnOk result (StandsAfter self.old (step.Edit edit.now) self.new) }
    {
        match self.net.apply(alloc, edit) {
            Ok(net) => {
                self.accept(rt, alloc, edit, net)?;
                answer.push_line(&[Word::Text("ok")])
            }
            Err(EditFault::OutOfMemory) => Err(AllocError),
            Err(cause) => push_refused(answer, &self.net, cause),
        }
    }

    /// Notes an accepted edit, which makes this network.
    fn accept<R: Threads + Sync>(
        &mut self,
        rt: &R,
        alloc: Global,
        edit: &Edit,
        net: Network,
    ) -> Result<(), AllocError>
        requires { edited self.old.net edit.now ≡ Ok net }
        ensures { OnOk result (self.new ≡ record {
          first = self.old.first;
          edits = self.old.edits ++ edit.now ∷ [];
          net = net;
        }) }
    {
        let history = self.history.take();
        let before = mem::replace(&mut self.net, net);
        self.verdict = None;
        let workers = self.workers.workers(rt, alloc);
        let history = with_accepted(&workers, before, history, edit)?;
        self.history = Some(history);
        Ok(())
    }

    /// Puts the numbers of the last accepted edit, or that there was none. `AllocError` comes only
    /// for want of memory; then the caller drops the session.
    pub(crate) fn report<R: Threads + Sync>(
        &mut self,
        rt: &R,
        alloc: Global,
        answer: &mut Answer,
    ) -> Result<(), AllocError>
        requires { answer.old.text ≡ [] }
        ensures says { OnOk result (SaysStep self.old step.Report answer.new.text) }
        ensures same { OnOk result (self.new ≡ self.old) }
    {
        let report = self.reported(rt, alloc)?;
        push_report(answer, report)
    }

    /// The report of the accepted edits.
    fn reported<R: Threads + Sync>(
        &mut self,
        rt: &R,
        alloc: Global,
    ) -> Result<Option<Report>, AllocError>
        ensures report { IfOk result (IsReport self.old.first self.old.edits) }
        ensures same { OnOk result (self.new ≡ self.old) }
    {
        let Some(history) = self.history.take() else {
            return Ok(None);
        };
        let (history, report) = history.report(&self.workers.workers(rt, alloc))?;
        self.history = Some(history);
        Ok(report)
    }

    /// Puts whether the network as it stands is controllable. `AllocError` comes only for want of
    /// memory.
    pub(crate) fn push_verdict<R: Threads + Sync>(
        &mut self,
        rt: &R,
        alloc: Global,
        answer: &mut Answer,
    ) -> Result<(), AllocError>
        requires { answer.old.text ≡ [] }
        ensures same { self.new ≡ self.old }
        ensures says { OnOk result (SaysVerdict (net_of self.old) answer.new.text) }
    {
        let yes = self.is_controllable(rt, alloc)?;
        push_verdict(answer, yes)
    }

    /// Puts the network as it stands. `AllocError` comes only for want of memory.
    pub(crate) fn push_plan(&self, alloc: Global, answer: &mut Answer) -> Result<(), AllocError>
        requires { answer.old.text ≡ [] }
        ensures { OnOk result (SaysStep self.now step.Plan answer.new.text) }
    {
        let text = print_plan(alloc, &self.net)?;
        answer.push_text(text.as_slice())
    }

    /// The shown form of the network as it stands with its dispatchable network, exactly if some
    /// strategy controls it. `AllocError` comes only for want of memory.
    pub(crate) fn dispatch<R: Threads + Sync>(
        &self,
        rt: &R,
        alloc: Global,
    ) -> Result<Option<(Network, Dispatch)>, AllocError>
        ensures { IfOk result (IsDispatched (net_of self.now)) }
    {
        match self.verdict {
            Some(false) => Ok(None),
            _ => dispatch_if_controllable(&self.workers.workers(rt, alloc), &self.net),
        }
    }

    /// Whether the network as it stands is controllable. It is decided once after an accepted edit.
    fn is_controllable<R: Threads + Sync>(
        &mut self,
        rt: &R,
        alloc: Global,
    ) -> Result<bool, AllocError>
        ensures same { self.new ≡ self.old }
        ensures verdict { IfOk result (IsVerdict (net_of self.old)) }
    {
        if let Some(yes) = self.verdict {
            return Ok(yes);
        }
        let yes = is_controllable(&self.workers.workers(rt, alloc), &self.net)?;
        self.verdict = Some(yes);
        Ok(yes)
    }

    /// Puts the certificate that decides the shown form of the network as it stands. `AllocError`
    /// comes only for want of memory.
    pub(crate) fn push_proof<R: Threads + Sync>(
        &mut self,
        rt: &R,
        alloc: Global,
        answer: &mut Answer,
    ) -> Result<(), AllocError>
        requires { answer.old.text ≡ [] }
        ensures same { self.new ≡ self.old }
        ensures says { OnOk result (SaysProof (net_of self.old) answer.new.text) }
    {
        let yes = self.is_controllable(rt, alloc)?;
        let workers = self.workers.workers(rt, alloc);
        let certificate = certificate(&workers, &self.net, yes)?;
        let text = print_certificate(alloc, &certificate)?;
        answer.push_text(text.as_slice())
    }

    /// Puts by what each point is executed. `AllocError` comes only for want of memory.
    pub(crate) fn push_table<R: Threads + Sync>(
        &mut self,
        rt: &R,
        alloc: Global,
        answer: &mut Answer,
    ) -> Result<(), AllocError>
        requires { answer.old.text ≡ [] }
        ensures same { self.new ≡ self.old }
        ensures says { OnOk result (SaysTable (net_of self.old) answer.new.text) }
    {
        match self.dispatch_of_closure(rt, alloc)? {
            Some((shown, dispatch)) => push_table(answer, &shown, &dispatch),
            None => push_verdict(answer, false),
        }
    }

    /// The shown form of the network as it stands with the dispatchable network of its closure,
    /// exactly if some strategy controls it.
    fn dispatch_of_closure<R: Threads + Sync>(
        &mut self,
        rt: &R,
        alloc: Global,
    ) -> Result<Option<(Network, Dispatch)>, AllocError>
        ensures same { self.new ≡ self.old }
        ensures dispatched { IfOk result (IsDispatchedByClosure (net_of self.old)) }
    {
        if self.is_controllable(rt, alloc)? {
            dispatch_of_closure(&self.workers.workers(rt, alloc), &self.net)
        } else {
            Ok(None)
        }
    }
}
