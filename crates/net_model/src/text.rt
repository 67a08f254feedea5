//! The words of all texts: numbers and names, and the words of a line that must have so many. No
//! call here takes memory.

ghost use Rattle.std.specs.Prelude.{◌≡◌, ℕ, ◌∷◌, [], ◌≤◌, ◌^◌, ◌<◌, true, length, List, Ok, Err};
ghost use Rattle.std.specs.Prelude.{MatchResult, IfOk, SomeIff};
ghost use Rattle.std.specs.List.{list_all};
ghost use Rattle.texts.specs.Words.{words};
ghost use Rattle.net_model.specs.Names.{is_digit, most_short};
ghost use Rattle.net_model.specs.Numbers.{is_positive, natural_of, integer_of, name_of};
ghost use Rattle.net_model.specs.Numbers.{short_name_of, value_of, limited, negative_of};
ghost use Rattle.net_model.specs.LineReading.{counted};

use crate::between::MOST_SHORT;
use crate::format::FormatKind;
use crate::name::Name;
use texts::next_word;

/// The next word of a line that must have one more, and what follows it, or `WordCount`.
pub fn word(rest: &[u8]) -> Result<(&[u8], &[u8]), FormatKind>
    ensures { MatchResult result (λ found. words rest.now ≡ found.0.now ∷ words found.1.now)
        (λ kind. (kind ≡ FormatKind.WordCount) × (words rest.now ≡ [])) }
{
    next_word(rest).ok_or(FormatKind::WordCount)
}

/// `WordCount` if a line has one more word.
pub fn no_more(rest: &[u8]) -> Result<(), FormatKind>
    ensures { MatchResult result (λ _. words rest.now ≡ []) (λ kind. (kind ≡ FormatKind.WordCount)
        × ((word : List ℕ) × (others : List (List ℕ)) × (words rest.now ≡ word ∷ others))) }
{
    match next_word(rest) {
        None => Ok(()),
        Some(_) => Err(FormatKind::WordCount),
    }
}

/// The word of a line that must have one more and no other, or `WordCount`.
pub fn one(rest: &[u8]) -> Result<&[u8], FormatKind>
    ensures { MatchResult result (λ w. counted 1 (words rest.now) ≡ Ok (w.now ∷ []))
        (λ kind. counted 1 (words rest.now) ≡ Err kind) }
{
    let (first, rest) = word(rest)?;
    no_more(rest)?;
    Ok(first)
}

/// The words of a line that must have two more and no other, or `WordCount`.
pub fn two(rest: &[u8]) -> Result<(&[u8], &[u8]), FormatKind>
    ensures { MatchResult result (λ w. counted 2 (words rest.now) ≡ Ok (w.0.now ∷ w.1.now ∷ []))
        (λ kind. counted 2 (words rest.now) ≡ Err kind) }
{
    let (first, rest) = word(rest)?;
    let second = one(rest)?;
    Ok((first, second))
}

/// The words of a line that must have three more and no other, or `WordCount`.
pub fn three(rest: &[u8]) -> Result<(&[u8], &[u8], &[u8]), FormatKind>
    ensures { MatchResult result (λ w. counted 3 (words rest.now) ≡ Ok
        (w.0.now ∷ w.1.now ∷ w.2.now ∷ [])) (λ kind. counted 3 (words rest.now) ≡ Err kind) }
{
    let (first, rest) = word(rest)?;
    let (second, third) = two(rest)?;
    Ok((first, second, third))
}

/// The words of a line that must have four more and no other, or `WordCount`.
pub fn four(rest: &[u8]) -> Result<(&[u8], &[u8], &[u8], &[u8]), FormatKind>
    ensures { MatchResult result (λ w. counted 4 (words rest.now) ≡ Ok
        (w.0.now ∷ w.1.now ∷ w.2.now ∷ w.3.now ∷ []))
        (λ kind. counted 4 (words rest.now) ≡ Err kind) }
{
    let (first, rest) = word(rest)?;
    let (second, third, fourth) = three(rest)?;
    Ok((first, second, third, fourth))
}

/// The words of a line that must have five more and no other, or `WordCount`.
pub fn five(rest: &[u8]) -> Result<(&[u8], &[u8], &[u8], &[u8], &[u8]), FormatKind>
    ensures { MatchResult result (λ w. counted 5 (words rest.now) ≡ Ok
        (w.0.now ∷ w.1.now ∷ w.2.now ∷ w.3.now ∷ w.4.now ∷ []))
        (λ kind. counted 5 (words rest.now) ≡ Err kind) }
{
    let (first, rest) = word(rest)?;
    let (second, third, fourth, fifth) = four(rest)?;
    Ok((first, second, third, fourth, fifth))
}

/// The words of a line that must have six more and no other, or `WordCount`.
pub fn six(rest: &[u8]) -> Result<(&[u8], &[u8], &[u8], &[u8], &[u8], &[u8]), FormatKind>
    ensures { MatchResult result (λ w. counted 6 (words rest.now) ≡ Ok
        (w.0.now ∷ w.1.now ∷ w.2.now ∷ w.3.now ∷ w.4.now ∷ w.5.now ∷ []))
        (λ kind. counted 6 (words rest.now) ≡ Err kind) }
{
    let (first, rest) = word(rest)?;
    let (second, third, fourth, fifth, sixth) = five(rest)?;
    Ok((first, second, third, fourth, fifth, sixth))
}

/// Whether a word is digits of which the first is not 0.
fn is_positive(word: &[u8]) -> bool
    ensures { result ≡ is_positive word.now }
{
    match word.split_first() {
        None => false,
        Some((first, rest)) => matches!(first, b'1'..=b'9') && are_digits(rest),
    }
}

fn are_digits(word: &[u8]) -> bool
    ensures { result ≡ list_all is_digit word.now }
{
    word.iter().all(|byte| byte.is_ascii_digit())
}

/// The number that digits spell, or `None` exactly if it is beyond the limit.
fn value_within(digits: &[u8], limit: u64) -> Option<u64>
    requires { list_all is_digit digits.now ≡ true }
    ensures { SomeIff result (value_of digits.now ≤ limit) (value_of digits.now) }
{
    let mut value: u128 = 0;
    for digit in digits {
        value = 10 * value + u128::from(*digit - b'0');
        if value > u128::from(limit) {
            return None;
        }
    }
    Some(value as u64)
}

fn limited(digits: &[u8], limit: u64) -> Result<u64, FormatKind>
    requires { list_all is_digit digits.now ≡ true }
    ensures within { IfOk result (λ number. number ≤ limit) }
    ensures number { result ≡ limited limit (value_of digits.now) (value_of digits.now) }
{
    value_within(digits, limit).ok_or(FormatKind::NumberLimit)
}

/// The whole number from 0 that a word spells: `BadNumber` if it spells none, `NumberLimit` if the
/// number is beyond the limit of its place.
#[tactic(auto, unfolding(crate::specs::Numbers::natural_of))]
pub fn natural(word: &[u8], limit: u64) -> Result<u64, FormatKind>
    ensures number { result ≡ natural_of limit word.now }
    ensures within { IfOk result (λ number. number ≤ limit) }
{
    if word == b"0".as_slice() {
        return Ok(0);
    }
    if !is_positive(word) {
        return Err(FormatKind::BadNumber);
    }
    limited(word, limit)
}

/// The whole number that a word spells, with `-` before one below 0: `BadNumber` if it spells none,
/// `NumberLimit` if the number is beyond the limit of its place in size.
#[tactic(auto, unfolding(crate::specs::Numbers::integer_of))]
pub fn integer(word: &[u8], limit: u64) -> Result<i64, FormatKind>
    requires { limit < 2 ^ 63 }
    ensures { result ≡ integer_of limit word.now }
{
    match word.split_first() {
        None => Err(FormatKind::BadNumber),
        Some((b'-', digits)) => negative(digits, limit),
        Some(_) => Ok(natural(word, limit)? as i64),
    }
}

fn negative(digits: &[u8], limit: u64) -> Result<i64, FormatKind>
    requires { limit < 2 ^ 63 }
    ensures { result ≡ negative_of limit digits.now }
{
    if !is_positive(digits) {
        return Err(FormatKind::BadNumber);
    }
    let size = limited(digits, limit)?;
    Ok(-(size as i64))
}

/// The name that a word is, or `BadName` if it is none.
pub fn name(word: &[u8]) -> Result<Name, FormatKind>
    ensures { result ≡ name_of word.now }
{
    Name::new(word).map_err(|_| FormatKind::BadName)
}

/// The name that a word is, or `BadName` if it is none or has more than `MOST_SHORT` bytes.
pub fn short_name(word: &[u8]) -> Result<Name, FormatKind>
    ensures name { result ≡ short_name_of word.now }
    ensures short { IfOk result (λ name. length name ≤ most_short) }
{
    let name = name(word)?;
    if word.len() > MOST_SHORT {
        return Err(FormatKind::BadName);
    }
    Ok(name)
}
