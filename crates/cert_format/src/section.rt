//! The section of a certificate: what may come next in its text.

use crate::keyword::Keyword;

/// What may come next in the text of a certificate.
#[derive(Clone, Copy, Debug, PartialEq, Eq)]
pub enum Section {
    /// The header, `certificate 1`.
    Header,
    /// What the certificate is: `refutation` or `table`.
    Kind,
    /// Rule lines, then walk lines, then the end.
    Rules,
    /// Walk lines, then the end.
    Walk,
    /// Lines of the order, then entries, then the end.
    Order,
    /// Entries, then the end.
    Entries,
}

impl Section {
    ghost use Rattle.std.specs.Prelude.{◌≡◌};
    ghost use Rattle.cert_format.specs.CertificateGrammar.{admits};

    /// Whether a line that begins with this word may come next.
    pub(crate) fn admits(self, first: Keyword) -> bool
        ensures { result ≡ admits self first }
    {
        match self {
            Section::Header => first == Keyword::Certificate,
            Section::Kind => matches!(first, Keyword::Refutation | Keyword::Table),
            Section::Rules => !matches!(
                first,
                Keyword::Certificate
                    | Keyword::Refutation
                    | Keyword::Table
                    | Keyword::Order
                    | Keyword::Edge
                    | Keyword::Upper
            ),
            Section::Walk => matches!(first, Keyword::Walk | Keyword::End),
            Section::Order => matches!(
                first,
                Keyword::Order | Keyword::Edge | Keyword::Upper | Keyword::End
            ),
            Section::Entries => matches!(first, Keyword::Edge | Keyword::Upper | Keyword::End),
        }
    }
}
