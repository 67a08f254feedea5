//! The index of a list by name: its places, sorted by the names that stand there. Beside each place
//! stands the key of the name, a number that is made of all its bytes: keys are compared first, and
//! names only if their keys are equal, which is rare.

ghost use Rattle.std.specs.Prelude.{◌≡◌, ◌<◌, ◌^◌, ℕ, List, length, map, slice_get, Some, IfOk};
ghost use Rattle.std.specs.List.{IsDistinct, position};
ghost use Rattle.std.specs.Str.{bytes_eq};
ghost use Rattle.std.specs.Option.{option_cmp};
ghost use Rattle.net_model.specs.NameIndex.{IsNameIndex, HasEachPlace, mixed, name_key, entry};
ghost use Rattle.net_model.specs.NameIndex.{entry_cmp};
ghost use Rattle.net_model.specs.Names.{name_cmp};

use crate::name::Name;
use crate::part::Bound;
use std::alloc::{AllocError, Global};
use std::cmp::Ordering;

/// What the length of a name counts for in its key: more than any part that its bytes have there.
const LENGTH_UNIT: u128 = 1 << 122;

/// What the bytes before a byte count for beside it: more than any two bytes of names differ by,
/// and odd, so that no byte is lost however many follow.
const BYTE_UNIT: u128 = 79;

/// What a list is indexed by: each of its items has a name.
pub(crate) trait Named {
    ghost use Rattle.std.specs.Prelude.{◌≡◌, ℕ, List};

    ghost name_of: { Self → List ℕ };

    fn name(&self) -> &Name
        ensures { result.now ≡ name_of self.now };
}

impl Named for Name {
    ghost name_of = { λ name. name };

    fn name(&self) -> &Name {
        self
    }
}

impl Named for Bound {
    ghost name_of = { λ bound. bound.name };

    fn name(&self) -> &Name {
        &self.name
    }
}

/// A place of a list, and the key of the name that stands there.
#[derive(Clone, Copy, Debug)]
pub(crate) struct KeyedPlace {
    key: u128,
    place: u32,
}

/// The index of a list. `AllocError` comes only for want of memory.
pub(crate) fn index_of<T: Named>(alloc: Global, items: &[T]) -> Result<Vec<KeyedPlace>, AllocError>
    requires few { length items.now < 2 ^ 32 }
    ensures { IfOk result (λ index. IsNameIndex (map T.name_of items.now) index.items) }
{
    let mut index = keyed_places(alloc, items)?;
    index.sort_unstable_by(|one, other| compared(items, one, other));
    Ok(index)
}

/// The place in a list of the item of a name, found by the index of the list, or `None` exactly if
/// no item has the name.
pub(crate) fn place_of<T: Named>(items: &[T], index: &[KeyedPlace], name: &Name) -> Option<u32>
    requires index { IsNameIndex (map T.name_of items.now) index.now }
    requires apart { IsDistinct bytes_eq (map T.name_of items.now) }
    ensures { result ≡ position (bytes_eq name.now) (map T.name_of items.now) }
{
    let key = key_of(name);
    match index.binary_search_by(|one| stands(items, one, key, name)) {
        Ok(found) => Some(index[found].place),
        Err(_) => None,
    }
}

/// The key of a name: its length, and below that a number of all its bytes. Names of up to 19 bytes
/// stand to each other as their keys do, and longer ones mostly, so a list in the order of its
/// names is sorted as it stands.
#[tactic(auto, unfolding(crate::specs::NameIndex::name_key), using(crate::proofs::NameLemmas::length_of_name))]
fn key_of(name: &Name) -> u128
    ensures { result ≡ name_key name.now }
{
    let bytes = name.bytes();
    bytes.len() as u128 * LENGTH_UNIT + mixed(bytes) % LENGTH_UNIT
}

/// A number in which each of some bytes has its part.
fn mixed(bytes: &[u8]) -> u128
    ensures { result ≡ mixed bytes.now }
{
    bytes.iter().fold(0, |sum: u128, byte| {
        sum.wrapping_mul(BYTE_UNIT).wrapping_add(u128::from(*byte))
    })
}

/// The places of a list in their order, with their keys.
fn keyed_places<T: Named>(alloc: Global, items: &[T]) -> Result<Vec<KeyedPlace>, AllocError>
    requires few { length items.now < 2 ^ 32 }
    ensures { IfOk result (λ keyed. HasEachPlace (map T.name_of items.now) keyed.items) }
{
    let mut keyed = Vec::with_capacity(alloc, items.len())?;
    for (place, item) in items.iter().enumerate() {
        keyed.push(KeyedPlace {
            key: key_of(item.name()),
            place: place as u32,
        })?;
    }
    Ok(keyed)
}

/// How two places of a list stand to each other: as their keys, or if those are equal, as the
/// names.
fn compared<T: Named>(items: &[T], one: &KeyedPlace, other: &KeyedPlace) -> Ordering
    ensures { result ≡ entry_cmp (entry (map T.name_of items.now) one.now)
        (entry (map T.name_of items.now) other.now) }
{
    match one.key.cmp(&other.key) {
        Ordering::Equal => names_compared(items, one.place, other.place),
        unequal => unequal,
    }
}

/// The order of the names at two places of a list; a place that the list does not have comes
/// before.
#[inline(never)]
fn names_compared<T: Named>(items: &[T], one: u32, other: u32) -> Ordering
    ensures { result ≡ option_cmp name_cmp (slice_get (map T.name_of items.now) one)
        (slice_get (map T.name_of items.now) other) }
{
    name_at(items, one).cmp(&name_at(items, other))
}

/// How a place of a list stands to a name with a key: as their keys, or if those are equal, as
/// the names.
fn stands<T: Named>(items: &[T], one: &KeyedPlace, key: u128, name: &Name) -> Ordering
    ensures { result ≡ entry_cmp (entry (map T.name_of items.now) one.now) (key, Some name.now) }
{
    match one.key.cmp(&key) {
        Ordering::Equal => name_compared(items, one.place, name),
        unequal => unequal,
    }
}

/// How the name at a place of a list stands to a name; a place that the list does not have comes
/// before.
#[inline(never)]
fn name_compared<T: Named>(items: &[T], place: u32, name: &Name) -> Ordering
    ensures { result ≡ option_cmp name_cmp (slice_get (map T.name_of items.now) place)
        (Some name.now) }
{
    match items.get(place as usize) {
        Some(item) => item.name().cmp(name),
        None => Ordering::Less,
    }
}

/// The name at a place of a list, or `None` exactly if the list has no such place.
fn name_at<T: Named>(items: &[T], place: u32) -> Option<Name>
    ensures { result ≡ slice_get (map T.name_of items.now) place }
{
    Some(*items.get(place as usize)?.name())
}
