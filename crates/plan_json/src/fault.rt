//! Why a document is not read.

use std::alloc::{AllocError, AllocFailed};
use std::error::Error;
use std::fmt;

/// The part of a document in which a fault is: its top, or one of its lists.
#[derive(Clone, Copy, Debug, PartialEq, Eq, Hash)]
pub enum Member {
    Top,
    Points,
    Bounds,
    Between,
    Links,
}

impl Member {
    ghost use Rattle.std.specs.Prelude.{◌≡◌};
    ghost use Rattle.plan_json.specs.Words.{member_word};

    /// The word as which it is printed.
    pub fn word(self) -> &'static str
        ensures { result.now ≡ member_word self }
    {
        match self {
            Member::Top => "top",
            Member::Points => "points",
            Member::Bounds => "bounds",
            Member::Between => "between",
            Member::Links => "links",
        }
    }
}

impl fmt::Display for Member {
    ghost use Rattle.std.specs.Prelude.{Some};
    ghost use Rattle.plan_json.specs.Words.{member_word};

    ghost output = { λ member. Some (member_word member) };

    fn fmt<W: fmt::Write>(&self, f: &mut fmt::Formatter<W>) -> fmt::Result {
        f.write_str(self.word())
    }
}

/// Why a document is not read: the first fault of it, in the order top, points, bounds, between and
/// links, within a list item by item, and within an item in the order of the variants. The number
/// is the place of the item in its list, from 1, and 0 at the top.
#[derive(Clone, Copy, Debug, PartialEq, Eq, Hash)]
pub enum JsonFault {
    /// The bytes have no reading as a JSON text; one that nests deeper than 127 has none.
    NotJson,
    /// The form of the document, or that of an item, is another; or a number is none that is whole
    /// and fits 64 bits.
    Shape(Member, u32),
    /// A text in the place of a name is not a name.
    BadName(Member, u32),
    /// A number is beyond 1,000,000,000 in size, or, at the top, the delay beyond 1,000,000.
    NumberLimit(Member, u32),
    /// There was no memory.
    OutOfMemory,
}

impl fmt::Display for JsonFault {
    ghost use Rattle.std.specs.Prelude.{Some};
    ghost use Rattle.plan_json.specs.Words.{json_fault_text};

    ghost output = { λ fault. Some (json_fault_text fault) };

    fn fmt<W: fmt::Write>(&self, f: &mut fmt::Formatter<W>) -> fmt::Result {
        match self {
            JsonFault::NotJson => f.write_str("not-json"),
            JsonFault::Shape(member, place) => write!(f, "shape {member} {place}"),
            JsonFault::BadName(member, place) => write!(f, "bad-name {member} {place}"),
            JsonFault::NumberLimit(member, place) => write!(f, "limit {member} {place} number"),
            JsonFault::OutOfMemory => f.write_str("out of memory"),
        }
    }
}

impl Error for JsonFault {}

impl From<AllocError> for JsonFault {
    ghost use Rattle.std.specs.Prelude.{◌≡◌};
    ghost use Rattle.plan_json.specs.declared.fault.JsonFault.TheVariants.{OutOfMemory};

    ghost from_gives = { λ _ fault. fault ≡ OutOfMemory };

    fn from(_error: AllocError) -> JsonFault {
        JsonFault::OutOfMemory
    }
}

impl<T: Drop> From<AllocFailed<T>> for JsonFault {
    ghost use Rattle.std.specs.Prelude.{◌≡◌};
    ghost use Rattle.plan_json.specs.declared.fault.JsonFault.TheVariants.{OutOfMemory};

    ghost from_gives = { λ _ fault. fault ≡ OutOfMemory };

    fn from(_error: AllocFailed<T>) -> JsonFault {
        JsonFault::OutOfMemory
    }
}
