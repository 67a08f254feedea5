//! The derivations of a session, as they follow its accepted edits when the session is asked for its
//! report.

ghost use Rattle.std.specs.Prelude.{◌≡◌, [], ◌∷◌, ◌++◌, IfOk};
ghost use Rattle.session_command.specs.EditHistory.{first_of, followed_by};
ghost use Rattle.session_command.specs.Followed.{AreAccepted, IsReport};

use net_model::{Edit, Network};
use parallel_rounds::{NoGate, Workers};
use plan_session::{Edited, OpenSession, Report};
use std::alloc::{AllocError, Global};
use std::marker::Model;
use std::snapshot::Snapshot;
use std::thread::Threads;

/// What was derived of the network as it was first.
#[derive(Drop)]
pub(crate) enum Derived {
    /// Nothing: no session was opened on it.
    Nothing(Network),
    /// A session was opened on it, and has followed edits.
    Followed(Derivations),
}

impl Derived {
    /// The derivations, of a session that is opened on the network if none was. `AllocError` comes
    /// only for want of memory.
    pub(crate) fn opened<R: Threads + Sync>(
        self,
        workers: &Workers<'_, R, NoGate>,
    ) -> Result<Derivations, AllocError>
        ensures first { IfOk result (λ derivations. derivations.first ≡ first_of self) }
        ensures edits { IfOk result (λ derivations. derivations.edits ≡ followed_by self) }
    {
        match self {
            Derived::Nothing(net) => Derivations::open(workers, net),
            Derived::Followed(derivations) => Ok(derivations),
        }
    }
}

/// A session that keeps derivations, opened on a network, and the report of the last edit that it
/// followed. Contracts see that network, the edits that were followed, and the report. The network
/// as it was first and the edits are known to clauses alone: no bytes of them are kept.
#[derive(Drop)]
pub(crate) struct Derivations {
    session: OpenSession,
    report: Option<Report>,
    first: Snapshot<Network>,
    followed: Vec<Snapshot<Edit>>,
}

impl Model for Derivations {
    ghost use Rattle.std.specs.Prelude.{map};
    ghost use Rattle.session_command.specs.Followed.{Followed, HasFollowed};

    ghost Value = { Followed };

    ghost view = { λ derivations. record {
      first = derivations.first.value;
      edits = map (λ edit. edit.value) derivations.followed.items;
      report = derivations.report;
    } };

    ghost invariant = { λ derivations. HasFollowed derivations.first.value
        (map (λ edit. edit.value) derivations.followed.items) derivations.session.state
        derivations.report };
}

impl Derivations {
    /// Those of a network before any edit. `AllocError` comes only for want of memory.
    fn open<R: Threads + Sync>(
        workers: &Workers<'_, R, NoGate>,
        net: Network,
    ) -> Result<Derivations, AllocError>
        ensures first { IfOk result (λ derivations. derivations.first ≡ net) }
        ensures edits { IfOk result (λ derivations. derivations.edits ≡ []) }
    {
        let first = Snapshot::of(&net);
        let session = OpenSession::open(workers, net)?;
        Ok(Derivations {
            session,
            report: None,
            first,
            followed: Vec::new(workers.alloc()),
        })
    }

    /// Follows accepted edits, one after another. `AllocError` comes only for want of memory.
    pub(crate) fn follow_all<R: Threads + Sync>(
        self,
        rt: &R,
        alloc: Global,
        edits: &[Edit],
    ) -> Result<Derivations, AllocError>
        requires accepted { AreAccepted self.first (self.edits ++ edits.now) }
        ensures first { IfOk result (λ derivations. derivations.first ≡ self.first) }
        ensures edits { IfOk result (λ derivations. derivations.edits ≡ self.edits ++ edits.now) }
    {
        let mut derivations = self;
        for edit in edits {
            derivations = derivations.follow(rt, alloc, edit)?;
        }
        Ok(derivations)
    }

    /// The report of the last edit that was followed, if there was one.
    pub(crate) fn report(&self) -> Option<Report>
        ensures { IsReport self.now.first self.now.edits result }
    {
        self.report
    }

    /// Follows one edit, if it is accepted; a refused one changes nothing.
    fn follow<R: Threads + Sync>(
        self,
        rt: &R,
        alloc: Global,
        edit: &Edit,
    ) -> Result<Derivations, AllocError>
        ensures first { IfOk result (λ derivations. derivations.first ≡ self.first) }
        ensures edits { AreAccepted self.first (self.edits ++ edit.now ∷ []) → IfOk result
            (λ derivations. derivations.edits ≡ self.edits ++ edit.now ∷ []) }
    {
        let Derivations {
            session,
            report,
            first,
            mut followed,
        } = self;
        match session.apply(rt, alloc, edit, &NoGate)? {
            Edited::Followed(session, report) => {
                followed.push(Snapshot::of(edit))?;
                Ok(Derivations {
                    session,
                    report: Some(report),
                    first,
                    followed,
                })
            }
            Edited::Refused(session, _) => Ok(Derivations {
                session,
                report,
                first,
                followed,
            }),
        }
    }
}
