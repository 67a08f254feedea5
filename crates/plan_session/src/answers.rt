//! What a session answers.

use net_model::EditFault;
use std::alloc::AllocError;
use std::error::Error;
use std::fmt;

/// What an accepted edit came to.
#[derive(Clone, Copy, Debug, PartialEq, Eq)]
pub struct Report {
    /// How many nodes of the derivation list were kept.
    pub kept: u64,
    /// How many were withdrawn: all others.
    pub withdrawn: u64,
    /// How many rounds were made then, the last one without a change included: at most one more
    /// than the points.
    pub rounds: u64,
}

/// Why a session does not follow an edit.
#[derive(Clone, Copy, Debug, PartialEq, Eq)]
pub enum SessionFault {
    /// The edit is refused; nothing changed.
    Edit(EditFault),
    /// There was no memory: the session keeps its old network and is broken.
    OutOfMemory,
    /// The session is broken; nothing changed.
    Broken,
}

/// Why a session does not answer.
#[derive(Clone, Copy, Debug, PartialEq, Eq)]
pub enum AskFault {
    /// The session is broken.
    Broken,
    /// There was no memory; the session is as it was.
    OutOfMemory,
}

/// Whether the network of a session is controllable.
#[derive(Clone, Copy, Debug, PartialEq, Eq)]
pub enum Verdict {
    /// Some strategy controls the network as it stands.
    Controllable,
    /// None does.
    NotControllable,
    /// The session is broken.
    Broken,
}

impl From<AllocError> for SessionFault {
    ghost use Rattle.std.specs.Prelude.{◌≡◌};
    ghost use Rattle.plan_session.specs.declared.answers.SessionFault.TheVariants.{OutOfMemory};

    ghost from_gives = { λ _ fault. fault ≡ OutOfMemory };

    fn from(_error: AllocError) -> SessionFault {
        SessionFault::OutOfMemory
    }
}

impl From<AllocError> for AskFault {
    ghost use Rattle.std.specs.Prelude.{◌≡◌};
    ghost use Rattle.plan_session.specs.declared.answers.AskFault.TheVariants.{OutOfMemory};

    ghost from_gives = { λ _ fault. fault ≡ OutOfMemory };

    fn from(_error: AllocError) -> AskFault {
        AskFault::OutOfMemory
    }
}
