//! Printing a strong certificate.

ghost use Rattle.std.specs.Prelude.{◌≡◌, IfOk, Ok};
ghost use Rattle.cert_format.specs.StrongWords.{printed_strong, HasStrongWeights, OfOneKind};
ghost use Rattle.cert_format.specs.StrongGrammar.{strong_text};

use crate::printed_line::{PrintedLine, push_lines, push_points};
use crate::strong_cert::{StrongCert, StrongLine};
use std::alloc::{AllocError, Global};
use texts::push_line;

/// The text of a strong certificate: the header, its lines and `end`, with one blank between words
/// and a line end after each line. It has lines of bounds or points of a ring and not both, and
/// each weight must be below 10^18 in size. It reads back to the same certificate. `AllocError`
/// comes only for want of memory.
pub fn print_strong(alloc: Global, cert: &StrongCert) -> Result<Vec<u8>, AllocError>
    requires of_one_kind { OfOneKind cert.now }
    requires weights { HasStrongWeights cert.now }
    ensures text { IfOk result (λ text. text.items ≡ printed_strong cert.now) }
    ensures back { IfOk result (λ text. strong_text text.items ≡ Ok cert.now) }
{
    let mut out = Vec::new(alloc);
    push_line(&mut out, b"strong", &[b"1".as_slice()])?;
    push_lines(alloc, &mut out, cert.by.as_slice())?;
    push_points(&mut out, b"ring", cert.ring.as_slice())?;
    push_line(&mut out, b"end", &[])?;
    Ok(out)
}

impl PrintedLine for StrongLine {
    ghost use Rattle.cert_format.specs.StrongWords.{by_words, HasStrongWeight, IsSpelledBy};

    ghost words_of = { by_words };

    ghost has_limits = { HasStrongWeight };

    ghost is_spelled = { IsSpelledBy };

    fn push(&self, alloc: Global, out: &mut Vec<u8>) -> Result<(), AllocError> {
        let weight = self.weight.to_string(alloc)?;
        let words = [
            self.bound.bytes(),
            self.from.bytes(),
            self.to.bytes(),
            weight.as_bytes(),
        ];
        push_line(out, b"by", &words)
    }
}
