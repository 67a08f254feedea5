//! A text is taken line by line.

ghost use Rattle.std.specs.Prelude.{◌≡◌, ℕ, ◌+◌, ◌-◌, ◌<◌, ◌≤◌, ◌∷◌, [], length, take, drop};
ghost use Rattle.std.specs.Prelude.{slice_index, MatchOption, IfSome};
ghost use Rattle.texts.specs.Lines.{lines, lines_after, size_of_lines};

/// The first line of a text, without its line end, and what follows it, or `None` if the text has
/// no line. A line ends at byte 10, and a last one without it counts if it has bytes.
pub fn next_line(bytes: &[u8]) -> Option<(&[u8], &[u8])>
    ensures lines { MatchOption result (lines bytes.now ≡ [])
        (λ found. lines bytes.now ≡ found.0.now ∷ lines found.1.now) }
    ensures shorter { IfSome result (λ found. length found.1.now < length bytes.now) }
    ensures sizes { IfSome result (λ found. (count : ℕ)
        → size_of_lines (count + 1) bytes.now ≡ size_of_lines count found.1.now +
        (length bytes.now - length found.1.now)) }
{
    if bytes.is_empty() {
        return None;
    }
    let end = end_of_line(bytes);
    if end == bytes.len() {
        return Some((bytes, &[]));
    }
    Some((&bytes[..end], &bytes[end + 1..]))
}

/// The number of bytes before the first line end of a text.
fn end_of_line(bytes: &[u8]) -> usize
    ensures within { result ≤ length bytes.now }
    ensures lines { lines bytes.now ≡ lines_after (take result bytes.now) (drop result bytes.now) }
    ensures sizes { (count : ℕ) → size_of_lines (count + 1) bytes.now ≡ result + size_of_lines
        (count + 1) (drop result bytes.now) }
    ensures found { result < length bytes.now → slice_index bytes.now result ≡ 10 }
{
    for (place, byte) in bytes.iter().enumerate() {
        if *byte == b'\n' {
            return place;
        }
    }
    bytes.len()
}
