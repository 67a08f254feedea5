//! The whole text of a strong certificate.

ghost use Rattle.std.specs.Prelude.{◌≡◌, ◌<◌, ◌^◌, length, Err, IfErr, IfOk, Ok};
ghost use Rattle.texts.specs.Lines.{lines};
ghost use Rattle.net_model.specs.declared.format.FormatFault.{FormatFault};
ghost use Rattle.sectioned_texts.specs.SectionedTexts.{HasFirstFault};
ghost use Rattle.sectioned_texts.specs.Reading.{SaysText};
ghost use Rattle.cert_format.specs.StrongWords.{HasStrongWeights, OfOneKind};
ghost use Rattle.cert_format.specs.StrongGrammar.{IsFirstStrongFault, IsStrongText};
ghost use Rattle.cert_format.specs.StrongGrammar.{strong_lines, strong_text};
ghost use Rattle.cert_format.specs.declared.strong_cert.StrongCert.{StrongCert};

use crate::strong_cert::StrongCert;
use crate::strong_reader::StrongReader;
use net_model::TextFault;
use sectioned_texts::read_text;
use std::alloc::Global;

/// Reads the text of a strong certificate: the header `strong 1`, then lines of bounds or the
/// points of a ring, and the line `end`, with blank lines between. Nothing after the `end` line is
/// looked at. The fault is that of the first bad line: `NoHeader` if the first line that is not
/// blank is not the header, `UnknownWord` also if a line is of the other kind than the first, and
/// else `WordCount`, `BadName`, `BadNumber` or `NumberLimit` of its words from left to right. If
/// the text ends before its `end` line, the fault is `NoEnd`, or `NoHeader` before the header, at
/// the number after the last line. `OutOfMemory` comes only for want of memory. There are fewer
/// than 2^31 bytes.
#[tactic(auto, unfolding(crate::specs::StrongGrammar::strong_text))]
pub fn read_strong(alloc: Global, bytes: &[u8]) -> Result<StrongCert, TextFault>
    requires { length bytes.now < 2 ^ 31 }
    ensures text { SaysText result (strong_text bytes.now) }
    ensures in_grammar { IfOk result (λ cert. IsStrongText bytes.now cert) }
    ensures first_fault { IfErr result (HasFirstFault strong_lines bytes.now) }
    ensures weights { IfOk result (λ cert. HasStrongWeights cert × OfOneKind cert) }
    ensures every_text { (cert : StrongCert) → IsStrongText bytes.now cert
        → SaysText result (Ok cert) }
    ensures every_fault { (fault : FormatFault) → IsFirstStrongFault (lines bytes.now) fault
        → SaysText result (Err fault) }
{
    read_text(StrongReader::new(alloc), bytes)
}
