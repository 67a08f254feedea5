//! The first words of the lines of a certificate.

ghost use Rattle.std.specs.Prelude.{◌≡◌};

/// The first word of a line of a certificate.
#[derive(Clone, Copy, PartialEq, Eq)]
pub enum Keyword {
    Certificate,
    Refutation,
    Table,
    Bound,
    Link,
    No,
    Up,
    Low,
    Cross,
    Drop,
    Walk,
    Order,
    Edge,
    Upper,
    End,
}

impl Keyword {
    ghost use Rattle.cert_format.specs.Keywords.{spelled, keyword_of};

    const ALL: [Keyword; 15] = [
        Keyword::Certificate,
        Keyword::Refutation,
        Keyword::Table,
        Keyword::Bound,
        Keyword::Link,
        Keyword::No,
        Keyword::Up,
        Keyword::Low,
        Keyword::Cross,
        Keyword::Drop,
        Keyword::Walk,
        Keyword::Order,
        Keyword::Edge,
        Keyword::Upper,
        Keyword::End,
    ];

    /// How the word is written.
    pub(crate) fn spelled(self) -> &'static [u8]
        ensures { result.now ≡ spelled self }
    {
        match self {
            Keyword::Certificate => b"certificate",
            Keyword::Refutation => b"refutation",
            Keyword::Table => b"table",
            Keyword::Bound => b"bound",
            Keyword::Link => b"link",
            Keyword::No => b"no",
            Keyword::Up => b"up",
            Keyword::Low => b"low",
            Keyword::Cross => b"cross",
            Keyword::Drop => b"drop",
            Keyword::Walk => b"walk",
            Keyword::Order => b"order",
            Keyword::Edge => b"edge",
            Keyword::Upper => b"upper",
            Keyword::End => b"end",
        }
    }

    /// The first word that a word is, or `None` if it is none of them.
    pub(crate) fn of(word: &[u8]) -> Option<Keyword>
        ensures { result ≡ keyword_of word.now }
    {
        Keyword::ALL
            .iter()
            .copied()
            .find(|keyword| word == keyword.spelled())
    }
}
