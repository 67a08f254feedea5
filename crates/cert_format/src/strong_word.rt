//! The first words of the lines of a strong certificate.

ghost use Rattle.std.specs.Prelude.{◌≡◌};

/// The first word of a line of a strong certificate.
#[derive(Clone, Copy, PartialEq, Eq)]
pub enum StrongWord {
    Strong,
    By,
    Ring,
    End,
}

impl StrongWord {
    ghost use Rattle.cert_format.specs.StrongForms.{spelled, strong_word_of};

    const ALL: [StrongWord; 4] = [
        StrongWord::Strong,
        StrongWord::By,
        StrongWord::Ring,
        StrongWord::End,
    ];

    /// How the word is written.
    pub(crate) fn spelled(self) -> &'static [u8]
        ensures { result.now ≡ spelled self }
    {
        match self {
            StrongWord::Strong => b"strong",
            StrongWord::By => b"by",
            StrongWord::Ring => b"ring",
            StrongWord::End => b"end",
        }
    }

    /// The first word that a word is, or `None` if it is none of them.
    pub(crate) fn of(word: &[u8]) -> Option<StrongWord>
        ensures { result ≡ strong_word_of word.now }
    {
        StrongWord::ALL
            .iter()
            .copied()
            .find(|first| word == first.spelled())
    }
}
