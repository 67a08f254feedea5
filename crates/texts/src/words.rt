//! A line is taken word by word.

ghost use Rattle.std.specs.Prelude.{◌≡◌, ◌<◌, ◌≤◌, ◌∷◌, ◌++◌, [], false, true, length, take, drop};
ghost use Rattle.std.specs.Prelude.{slice_get, MatchOption, IfSome};
ghost use Rattle.texts.specs.Words.{are_passed_over, is_blank, is_remark, if_filled, words};

/// Whether a byte is a blank: byte 32, 9 or 13.
pub fn is_blank(byte: u8) -> bool
    ensures { result ≡ is_blank byte }
{
    matches!(byte, b' ' | b'\t' | b'\r')
}

/// The first word of a line and what follows it, or `None` if the line has no word. A word is a
/// longest piece without blanks.
pub fn next_word(line: &[u8]) -> Option<(&[u8], &[u8])>
    ensures { MatchOption result (words line.now ≡ [])
        (λ found. words line.now ≡ found.0.now ∷ words found.1.now) }
{
    let line = skip_blanks(line);
    if line.is_empty() {
        return None;
    }
    let end = end_of_word(line);
    Some((&line[..end], &line[end..]))
}

/// The first word of a line and what follows it, or `None` if the line is passed over: it has no
/// word, or its first word begins with `#`.
pub fn first_word(line: &[u8]) -> Option<(&[u8], &[u8])>
    ensures { MatchOption result (are_passed_over (words line.now) ≡ true)
        (λ found. (words line.now ≡ found.0.now ∷ words found.1.now)
        × (is_remark found.0.now ≡ false)) }
{
    let (first, rest) = next_word(line)?;
    if is_remark(first) {
        return None;
    }
    Some((first, rest))
}

/// Whether a word begins with `#`.
fn is_remark(word: &[u8]) -> bool
    ensures { result ≡ is_remark word.now }
{
    word.first() == Some(&b'#')
}

/// A line from its first byte on that is not a blank.
fn skip_blanks(line: &[u8]) -> &[u8]
    ensures words { words result.now ≡ words line.now }
    ensures starts { IfSome (slice_get result.now 0) (λ byte. is_blank byte ≡ false) }
{
    for (place, byte) in line.iter().enumerate() {
        if !is_blank(*byte) {
            return &line[place..];
        }
    }
    &[]
}

/// The number of bytes before the first blank of a line.
fn end_of_word(line: &[u8]) -> usize
    ensures within { result ≤ length line.now }
    ensures words { words line.now ≡ if_filled (take result line.now) ++ words
        (drop result line.now) }
    ensures found { IfSome (slice_get line.now 0) (λ byte. is_blank byte ≡ false → 0 < result) }
{
    for (place, byte) in line.iter().enumerate() {
        if is_blank(*byte) {
            return place;
        }
    }
    line.len()
}
