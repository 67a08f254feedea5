//! Edits of a network, by names, and why one is refused.

use crate::ids::{BoundId, LinkId, Weight};
use crate::name::Name;
use crate::part::Which;
use std::alloc::AllocError;
use std::error::Error;
use std::fmt;

/// An edit of a network, by names, with numbers in whole moments. A link is named by its contingent
/// point. What is added goes to the end of its list, a list closes up over what is dropped, and
/// what is set keeps its place.
#[derive(Clone, Copy, Debug)]
pub enum Edit {
    /// One more point, of this name.
    AddPoint(Name),
    /// The point of this name is dropped.
    DropPoint(Name),
    /// One more bound: its name, from, to, and the most that `to - from` may be.
    AddBound(Name, Name, Name, Weight),
    /// The bound of this name is dropped.
    DropBound(Name),
    /// The bound of this name gets this number.
    SetBound(Name, Weight),
    /// One more link: from, its shortest and its longest duration, to.
    AddLink(Name, Weight, Weight, Name),
    /// The link that ends in the point of this name is dropped.
    DropLink(Name),
    /// The link that ends in the point of this name gets this shortest and this longest duration.
    SetLink(Name, Weight, Weight),
}

/// What uses a point: the first bound in order that names it, or, if no bound does, the first link.
#[derive(Clone, Copy, Debug, PartialEq, Eq)]
pub enum User {
    Bound(BoundId),
    Link(LinkId),
}

/// Why an edit is refused.
#[derive(Clone, Copy, Debug, PartialEq, Eq)]
pub enum EditFault {
    /// The name of a new point is a point already, or that of a new bound a bound.
    DuplicateName,
    /// The edit names a point or a bound that the network does not have, or a point in which no
    /// link ends as a link.
    UnknownName,
    /// A link ends already in the point in which the new one ends.
    TwoLinksOnPoint,
    /// A link from a point to itself.
    LinkToItself,
    /// A link whose shortest duration is below 1 or above its longest.
    BadInterval,
    /// The edit passes a limit.
    Limit(Which),
    /// The point that is to be dropped is still used.
    StillUsed(User),
    /// There was no memory.
    OutOfMemory,
}

impl EditFault {
    ghost use Rattle.std.specs.Prelude.{◌≡◌};
    ghost use Rattle.net_model.specs.EditedNetwork.{fault_word};

    /// The word as which it is printed.
    pub fn word(self) -> &'static str
        ensures { result.now ≡ fault_word self }
    {
        match self {
            EditFault::DuplicateName => "duplicate-name",
            EditFault::UnknownName => "unknown-name",
            EditFault::TwoLinksOnPoint => "two-links-on-point",
            EditFault::LinkToItself => "link-to-itself",
            EditFault::BadInterval => "bad-interval",
            EditFault::Limit(_) => "limit",
            EditFault::StillUsed(_) => "still-used",
            EditFault::OutOfMemory => "out of memory",
        }
    }
}

impl fmt::Display for EditFault {
    ghost use Rattle.std.specs.Prelude.{Some};
    ghost use Rattle.net_model.specs.EditedNetwork.{fault_word};

    ghost output = { λ fault. Some (fault_word fault) };

    fn fmt<W: fmt::Write>(&self, f: &mut fmt::Formatter<W>) -> fmt::Result {
        f.write_str(self.word())
    }
}

impl Error for EditFault {}

impl From<AllocError> for EditFault {
    ghost use Rattle.std.specs.Prelude.{◌≡◌};
    ghost use Rattle.net_model.specs.declared.edit.EditFault.TheVariants.{OutOfMemory};

    ghost from_gives = { λ _ fault. fault ≡ OutOfMemory };

    fn from(_error: AllocError) -> EditFault {
        EditFault::OutOfMemory
    }
}
