//! Whole numbers in words, with no sign and no leading zero.

ghost use Rattle.std.specs.Prelude.{◌≡◌, ◌≤◌, IfSome};
ghost use Rattle.command_contracts.specs.Counts.{count_within, number_within};

use net_model::text::natural;

/// The number that a word is, from 0 up to a limit, or `None` if it is none.
pub fn number_within(word: &[u8], most: u64) -> Option<u64>
    ensures value { result ≡ number_within most word.now }
    ensures within { IfSome result (λ number. number ≤ most) }
{
    match natural(word, most) {
        Ok(number) => Some(number),
        Err(_) => None,
    }
}

/// The count that a word is, from 1 up to a limit, or `None` if it is none.
pub fn count_within(word: &[u8], most: u32) -> Option<u32>
    ensures value { result ≡ count_within most word.now }
    ensures within { IfSome result (λ count. (1 ≤ count) × (count ≤ most)) }
{
    match natural(word, u64::from(most)) {
        Ok(0) => None,
        Ok(count) => Some(count as u32),
        Err(_) => None,
    }
}
