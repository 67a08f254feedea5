//! Why a part is refused, or a list of parts builds no network.

use crate::edit::EditFault;
use crate::part::Which;
use std::alloc::AllocError;
use std::error::Error;
use std::fmt;

/// Why a part is refused.
#[derive(Clone, Copy)]
pub(crate) enum PartFault {
    DuplicateName,
    UnknownName,
    TwoLinksOnPoint,
    LinkToItself,
    BadInterval,
    Limit(Which),
    OutOfMemory,
}

/// Why a list of parts builds no network. Each fault but want of memory has the place of the first
/// bad part, from 1.
#[derive(Clone, Copy, Debug, PartialEq, Eq, Hash)]
pub enum BuildFault {
    /// The name of a point is a point already, or that of a bound a bound.
    DuplicateName(u32),
    /// The part names a point that no earlier part declares.
    UnknownName(u32),
    /// A link ends already in the point in which this one ends.
    TwoLinksOnPoint(u32),
    /// A link from a point to itself.
    LinkToItself(u32),
    /// A link whose shortest duration is below 1 or above its longest.
    BadInterval(u32),
    /// The part passes a limit.
    Limit(Which, u32),
    /// There was no memory.
    OutOfMemory,
}

impl BuildFault {
    ghost use Rattle.std.specs.Prelude.{◌≡◌};
    ghost use Rattle.net_model.specs.BuiltNetwork.{place_of, build_fault_word};

    /// The word as which it is printed.
    pub fn word(self) -> &'static str
        ensures { result.now ≡ build_fault_word self }
    {
        match self {
            BuildFault::DuplicateName(_) => "duplicate-name",
            BuildFault::UnknownName(_) => "unknown-name",
            BuildFault::TwoLinksOnPoint(_) => "two-links-on-point",
            BuildFault::LinkToItself(_) => "link-to-itself",
            BuildFault::BadInterval(_) => "bad-interval",
            BuildFault::Limit(..) => "limit",
            BuildFault::OutOfMemory => "out of memory",
        }
    }

    /// The place of the part that is refused, from 1, or `None` exactly if there was no memory.
    pub fn place(self) -> Option<u32>
        ensures { result ≡ place_of self }
    {
        match self {
            BuildFault::DuplicateName(place)
            | BuildFault::UnknownName(place)
            | BuildFault::TwoLinksOnPoint(place)
            | BuildFault::LinkToItself(place)
            | BuildFault::BadInterval(place)
            | BuildFault::Limit(_, place) => Some(place),
            BuildFault::OutOfMemory => None,
        }
    }
}

impl fmt::Display for BuildFault {
    ghost use Rattle.std.specs.Prelude.{Some};
    ghost use Rattle.net_model.specs.BuiltNetwork.{build_fault_word};

    ghost output = { λ fault. Some (build_fault_word fault) };

    fn fmt<W: fmt::Write>(&self, f: &mut fmt::Formatter<W>) -> fmt::Result {
        f.write_str(self.word())
    }
}

impl Error for BuildFault {}

impl From<AllocError> for BuildFault {
    ghost use Rattle.std.specs.Prelude.{◌≡◌};
    ghost use Rattle.net_model.specs.declared.fault.BuildFault.TheVariants.{OutOfMemory};

    ghost from_gives = { λ _ fault. fault ≡ OutOfMemory };

    fn from(_error: AllocError) -> BuildFault {
        BuildFault::OutOfMemory
    }
}

impl From<AllocError> for PartFault {
    ghost use Rattle.std.specs.Prelude.{◌≡◌};
    ghost use Rattle.net_model.specs.declared.fault.PartFault.TheVariants.{OutOfMemory};

    ghost from_gives = { λ _ fault. fault ≡ OutOfMemory };

    fn from(_error: AllocError) -> PartFault {
        PartFault::OutOfMemory
    }
}

impl PartFault {
    ghost use Rattle.std.specs.Prelude.{◌≡◌};
    ghost use Rattle.net_model.specs.BuiltNetwork.{at_place};
    ghost use Rattle.net_model.specs.EditedNetwork.{cause_of};

    /// The fault of the part at a place.
    pub(crate) fn at(self, place: u32) -> BuildFault
        ensures { result ≡ at_place place self }
    {
        match self {
            PartFault::DuplicateName => BuildFault::DuplicateName(place),
            PartFault::UnknownName => BuildFault::UnknownName(place),
            PartFault::TwoLinksOnPoint => BuildFault::TwoLinksOnPoint(place),
            PartFault::LinkToItself => BuildFault::LinkToItself(place),
            PartFault::BadInterval => BuildFault::BadInterval(place),
            PartFault::Limit(which) => BuildFault::Limit(which, place),
            PartFault::OutOfMemory => BuildFault::OutOfMemory,
        }
    }

    /// Why an edit that adds the part is refused.
    pub(crate) fn of_edit(self) -> EditFault
        ensures { result ≡ cause_of self }
    {
        match self {
            PartFault::DuplicateName => EditFault::DuplicateName,
            PartFault::UnknownName => EditFault::UnknownName,
            PartFault::TwoLinksOnPoint => EditFault::TwoLinksOnPoint,
            PartFault::LinkToItself => EditFault::LinkToItself,
            PartFault::BadInterval => EditFault::BadInterval,
            PartFault::Limit(which) => EditFault::Limit(which),
            PartFault::OutOfMemory => EditFault::OutOfMemory,
        }
    }
}
