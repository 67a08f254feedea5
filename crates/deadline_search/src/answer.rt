//! The answer to the question for the tightest deadline.

use cert_format::Certificate;
use net_model::{Name, Weight};
use std::alloc::AllocError;

/// The least number, from `LOWEST` to `HIGHEST`, for which some strategy controls a network with
/// the bound `to - from <= most`, in whole moments. `goal` is the name of that bound: the first of
/// `goal`, `goal.1`, `goal.2` and so on that no bound of the network has. Each certificate is the
/// one that the network with the bound has by its verdict, and speaks of its shown form. With each
/// greater number up to `HIGHEST` some strategy controls it too.
#[derive(Debug, Drop)]
pub enum Deadline {
    /// No strategy controls the network even without the bound, and this refutes it.
    NotControllable {
        refutation: Certificate,
    },
    /// No number will do, and this refutes the network with the bound at `HIGHEST`.
    Never {
        goal: Name,
        refutation: Certificate,
    },
    /// The least number is `most`, above `LOWEST`: this proves the network with the bound at it
    /// controllable, and refutes it at the number before.
    Least {
        goal: Name,
        most: Weight,
        proof: Certificate,
        refutation: Certificate,
    },
    /// Even `LOWEST` will do, and this proves the network with the bound at it controllable.
    Floor {
        goal: Name,
        proof: Certificate,
    },
}

/// Why no deadline is answered.
#[derive(Clone, Copy, Debug, PartialEq, Eq)]
pub enum DeadlineFault {
    /// The network is controllable, and has as many bounds as it may have.
    Full,
    /// There was no memory.
    OutOfMemory,
}

impl From<AllocError> for DeadlineFault {
    ghost use Rattle.std.specs.Prelude.{◌≡◌};
    ghost use Rattle.deadline_search.specs.declared.answer.DeadlineFault.TheVariants.{OutOfMemory};

    ghost from_gives = { λ _ fault. fault ≡ OutOfMemory };

    fn from(_error: AllocError) -> DeadlineFault {
        DeadlineFault::OutOfMemory
    }
}
