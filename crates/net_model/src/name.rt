//! The name of a point or of a bound.

ghost use Rattle.std.specs.Prelude.{◌≡◌, ◌<◌, ◌≤◌, ◌==◌, ◌+◌, ◌++◌, length, refl, Some, is_some};
ghost use Rattle.std.specs.Prelude.{if◌then◌else◌, IsTrue, IfSome};
ghost use Rattle.std.specs.Cmp.Lexicographic.{pointwise};
ghost use Rattle.std.specs.Cmp.Rules.{comparing, hashing};
ghost use Rattle.std.specs.Hash as fed;
ghost use Rattle.std.proofs.Common.{rules};
ghost use Rattle.std.specs.List.{list_all};
ghost use Rattle.net_model.specs.Names.{is_name, is_name_byte, name_cmp, padded};
ghost use Rattle.net_model.specs.NameOrder.{name_cmp_total, names_tie, names_po};

use std::cmp::Ordering;
use std::error::Error;
use std::fmt;
use std::hash::{Hash, Hasher};
use std::marker::Model;

/// The greatest number of bytes of a name.
const LONGEST: usize = 32;

/// The name of a point or of a bound: 1 to 32 bytes, each a letter of ASCII, a digit, `_`, `-` or
/// `.`, and the first a letter. Contracts see it as the list of its bytes. Names are compared,
/// hashed and printed as their bytes. A shorter name comes before a longer one, and names of one
/// length come in the order of their bytes (`name_cmp`).
#[derive(Clone, Copy, Debug)]
pub struct Name {
    bytes: [u8; LONGEST],
    len: u8,
}

impl Model for Name {
    ghost use Rattle.std.specs.Prelude.{◌≡◌, ◌≤◌, ℕ, List, length, take, IsTrue};
    ghost use Rattle.net_model.specs.Names.{is_name, padded};

    ghost Value = { List ℕ };

    ghost view = { λ n. take n.len n.bytes };

    ghost invariant = { λ n. (length n.bytes ≡ 32) × (n.len ≤ 32)
        × (n.bytes ≡ padded (take n.len n.bytes)) × IsTrue (is_name (take n.len n.bytes)) };

    ghost inverse = { λ text. record { bytes = padded text; len = length text } };
}

/// Why a text gives no name.
#[derive(Clone, Copy, Debug)]
pub enum NameFault {
    /// The text is not a name.
    Bad,
    /// There was no memory for it.
    OutOfMemory,
}

impl fmt::Display for NameFault {
    ghost use Rattle.net_model.specs.Formats.{name_fault_text};

    ghost output = { λ fault. Some (name_fault_text fault) };

    fn fmt<W: fmt::Write>(&self, f: &mut fmt::Formatter<W>) -> fmt::Result {
        f.write_str(match self {
            NameFault::Bad => "bad-name",
            NameFault::OutOfMemory => "out of memory",
        })
    }
}

impl Error for NameFault {}

fn is_name_byte(byte: u8) -> bool
    ensures { result ≡ is_name_byte byte }
{
    byte.is_ascii_alphanumeric() || matches!(byte, b'_' | b'-' | b'.')
}

fn are_name_bytes(text: &[u8]) -> bool
    ensures { result ≡ list_all is_name_byte text.now }
{
    text.iter().all(|byte| is_name_byte(*byte))
}

#[tactic(auto, unfolding(crate::specs::Names::is_name))]
fn is_name(text: &[u8]) -> bool
    ensures { result ≡ is_name text.now }
{
    let Some((first, rest)) = text.split_first() else {
        return false;
    };
    if !first.is_ascii_alphabetic() {
        return false;
    }
    if !are_name_bytes(rest) {
        return false;
    }
    rest.len() < LONGEST
}

/// The bytes of a text, and then zeros.
fn padded(text: &[u8]) -> [u8; LONGEST]
    requires { length text.now ≤ 32 }
    ensures bytes { result ≡ padded text.now }
    ensures len { length result ≡ 32 }
{
    let mut bytes = [0u8; LONGEST];
    bytes[..text.len()].copy_from_slice(text);
    bytes
}

impl Name {
    /// The name that a text is, or `Bad` exactly if it is none. It takes no memory.
    pub fn new(text: &[u8]) -> Result<Name, NameFault>
        ensures { result ≡ (if is_name text.now then Ok text.now else Err NameFault.Bad) }
    {
        Name::from_text(text).ok_or(NameFault::Bad)
    }

    /// The name that a text is, or `None` exactly if the text is not a name.
    pub(crate) fn from_text(text: &[u8]) -> Option<Name>
        ensures name { IfSome result (λ name. name ≡ text.now) }
        ensures variant { is_some result ≡ is_name text.now }
    {
        if !is_name(text) {
            return None;
        }
        Some(Name {
            bytes: padded(text),
            len: text.len() as u8,
        })
    }

    /// The name with these bytes at its end; with them it is a name too.
    pub(crate) fn with_end(&self, end: &[u8]) -> Name
        requires named { IsTrue (is_name (self.now ++ end.now)) }
        requires fits { length self.now + length end.now ≤ 32 }
        ensures { result ≡ self.now ++ end.now }
    {
        let len = usize::from(self.len);
        let mut bytes = self.bytes;
        bytes[len..len + end.len()].copy_from_slice(end);
        Name {
            bytes,
            len: self.len + end.len() as u8,
        }
    }

    /// Every name is one. This does nothing: a body calls it if its proof needs the law.
    pub fn sound(&self)
        ensures { IsTrue (is_name self.now) }
    {
        let _ = &self.bytes;
    }

    /// The bytes of the name.
    pub fn bytes(&self) -> &[u8]
        ensures text { result.now ≡ self.now }
        ensures name { IsTrue (is_name self.now) }
    {
        &self.bytes[..usize::from(self.len)]
    }
}

impl fmt::Display for Name {
    ghost output = { Some };

    fn fmt<W: fmt::Write>(&self, f: &mut fmt::Formatter<W>) -> fmt::Result {
        match str::from_utf8(self.bytes()) {
            Ok(text) => f.write_str(text),
            Err(_) => unreachable!(),
        }
    }
}

impl PartialEq for Name {
    ghost eq = { pointwise ◌==◌ };

    ghost laws = { Prim.search (comparing, rules) };

    fn eq(&self, other: &Name) -> bool {
        self.bytes() == other.bytes()
    }
}

impl Eq for Name {
    ghost laws = { Prim.search (comparing, rules) };
}

impl PartialOrd for Name {
    ghost partial_cmp = { λ x y. Some (name_cmp x y) };

    ghost laws = { names_po };

    fn partial_cmp(&self, other: &Name) -> Option<Ordering> {
        Some(self.cmp(other))
    }
}

/// Short names come first, and names of one length in the order of their bytes. So names that end
/// in growing numbers are in order as they are declared.
impl Ord for Name {
    ghost cmp = { name_cmp };

    ghost total = { name_cmp_total };

    ghost matches_partial_cmp = { λ x y. refl };

    ghost matches_eq = { names_tie };

    fn cmp(&self, other: &Name) -> Ordering {
        match self.len.cmp(&other.len) {
            Ordering::Equal => self.bytes().cmp(other.bytes()),
            unequal => unequal,
        }
    }
}

impl Hash for Name {
    ghost hash_input = { fed.slice fed.u8 };

    ghost respects_eq = { Prim.search (hashing, rules) };

    fn hash<H: Hasher>(&self, state: &mut H) {
        self.bytes().hash(state);
    }
}
