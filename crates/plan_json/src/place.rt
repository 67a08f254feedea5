//! The place of an item in a document.

ghost use Rattle.std.specs.Prelude.{◌≡◌, ◌<◌, ◌^◌, ◌+◌};
ghost use Rattle.plan_json.specs.Document.{place_after};

use crate::fault::{JsonFault, Member};

/// A list of parts in a document.
#[derive(Clone, Copy)]
pub(crate) enum PartList {
    Points,
    Bounds,
    Between,
    Links,
}

/// The place of an item: its list, and its number in that list, from 1.
#[derive(Clone, Copy)]
pub(crate) struct Place {
    pub(crate) list: PartList,
    pub(crate) number: u32,
}

impl PartList {
    ghost use Rattle.std.specs.Prelude.{◌≡◌};
    ghost use Rattle.plan_json.specs.Document.{member_of};

    fn member(self) -> Member
        ensures { result ≡ member_of self }
    {
        match self {
            PartList::Points => Member::Points,
            PartList::Bounds => Member::Bounds,
            PartList::Between => Member::Between,
            PartList::Links => Member::Links,
        }
    }
}

impl Place {
    ghost use Rattle.std.specs.Prelude.{◌≡◌, ◌<◌, ◌^◌, ◌+◌};
    ghost use Rattle.plan_json.specs.Document.{member_of, place_after};

    /// The place after so many items of a list.
    pub(crate) fn after(list: PartList, count: usize) -> Place
        requires { count + 1 < 2 ^ 32 }
        ensures { result ≡ place_after list count }
    {
        Place {
            list,
            number: count as u32 + 1,
        }
    }

    pub(crate) fn shape(self) -> JsonFault
        ensures { result ≡ JsonFault.Shape (member_of self.list) self.number }
    {
        JsonFault::Shape(self.list.member(), self.number)
    }

    pub(crate) fn bad_name(self) -> JsonFault
        ensures { result ≡ JsonFault.BadName (member_of self.list) self.number }
    {
        JsonFault::BadName(self.list.member(), self.number)
    }

    pub(crate) fn number_limit(self) -> JsonFault
        ensures { result ≡ JsonFault.NumberLimit (member_of self.list) self.number }
    {
        JsonFault::NumberLimit(self.list.member(), self.number)
    }
}
