//! The section of a strong certificate: what may come next in its text.

use crate::strong_word::StrongWord;

/// What may come next in the text of a strong certificate.
#[derive(Clone, Copy, Debug, PartialEq, Eq)]
pub enum StrongSection {
    /// The header, `strong 1`.
    Header,
    /// Lines of either kind, then the end.
    Lines,
    /// Lines of bounds, then the end.
    By,
    /// Points of a ring, then the end.
    Ring,
}

impl StrongSection {
    ghost use Rattle.std.specs.Prelude.{◌≡◌};
    ghost use Rattle.cert_format.specs.StrongGrammar.{admits};

    /// Whether a line that begins with this word may come next.
    pub(crate) fn admits(self, first: StrongWord) -> bool
        ensures { result ≡ admits self first }
    {
        match self {
            StrongSection::Header => first == StrongWord::Strong,
            StrongSection::Lines => first != StrongWord::Strong,
            StrongSection::By => matches!(first, StrongWord::By | StrongWord::End),
            StrongSection::Ring => matches!(first, StrongWord::Ring | StrongWord::End),
        }
    }
}
