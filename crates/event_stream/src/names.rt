//! The names of points in a line of events.

ghost use Rattle.std.specs.Prelude.{◌≡◌, MatchResult, IsOk};
ghost use Rattle.texts.specs.Words.{words};
ghost use Rattle.event_stream.specs.EventLines.{point_of, points_by_names};

use net_model::{FormatKind, Network, PointId, text};

/// The point that a word names: `BadName` if the word is no name, `UnknownName` if no point has it.
pub(crate) fn point_of(net: &Network, word: &[u8]) -> Result<PointId, FormatKind>
    ensures { result ≡ point_of net.now word.now }
{
    let name = text::name(word)?;
    net.point(name.bytes()).ok_or(FormatKind::UnknownName)
}

/// Whether each word names a point, or why the first that does not does not.
pub(crate) fn check_names(net: &Network, names: &[u8]) -> Result<(), FormatKind>
    ensures { MatchResult result (λ _. IsOk (points_by_names net.now (words names.now)))
        (λ kind. points_by_names net.now (words names.now) ≡ Err kind) }
{
    let mut rest = names;
    while let Some((word, others)) = texts::next_word(rest) {
        point_of(net, word)?;
        rest = others;
    }
    Ok(())
}
