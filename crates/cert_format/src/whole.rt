//! The whole text of a certificate.

ghost use Rattle.std.specs.Prelude.{◌≡◌, ◌<◌, ◌^◌, length, Err, IfErr, IfOk, Ok};
ghost use Rattle.texts.specs.Lines.{lines};
ghost use Rattle.net_model.specs.declared.format.FormatFault.{FormatFault};
ghost use Rattle.sectioned_texts.specs.SectionedTexts.{HasFirstFault};
ghost use Rattle.sectioned_texts.specs.Reading.{SaysText};
ghost use Rattle.cert_format.specs.CertificateFormat.{certificate_text};
ghost use Rattle.cert_format.specs.CertificateWords.{HasWeights};
ghost use Rattle.cert_format.specs.CertificateGrammar.{IsCertificateText, IsFirstCertificateFault};
ghost use Rattle.cert_format.specs.CertificateGrammar.{certificate_lines};
ghost use Rattle.cert_format.specs.declared.certificate.Certificate.{Certificate};

use crate::certificate::Certificate;
use crate::reader::CertReader;
use net_model::TextFault;
use sectioned_texts::read_text;
use std::alloc::Global;

/// Reads the text of a certificate: the header `certificate 1`, the line `refutation`, rule lines,
/// walk lines and the line `end`, or after the header the line `table`, lines of the order, entries
/// and `end`, with blank lines between. Nothing after the `end` line is looked at. The fault is
/// that of the first bad line: `NoHeader` if the first line that is not blank is not the header,
/// `UnknownWord` also if a line of another place begins with its word, and else that of
/// `read_cert_line`. If the text ends before its `end` line, the fault is `NoEnd`, or `NoHeader`
/// before the header, at the number after the last line. `OutOfMemory` comes only for want of
/// memory. There are fewer than 2^31 bytes.
#[tactic(auto, unfolding(crate::specs::CertificateFormat::certificate_text))]
pub fn read_certificate(alloc: Global, bytes: &[u8]) -> Result<Certificate, TextFault>
    requires { length bytes.now < 2 ^ 31 }
    ensures text { SaysText result (certificate_text bytes.now) }
    ensures in_grammar { IfOk result (λ certificate. IsCertificateText bytes.now certificate) }
    ensures first_fault { IfErr result (HasFirstFault certificate_lines bytes.now) }
    ensures weights { IfOk result (λ certificate. HasWeights certificate) }
    ensures every_text { (certificate : Certificate) → IsCertificateText bytes.now certificate
        → SaysText result (Ok certificate) }
    ensures every_fault { (fault : FormatFault) → IsFirstCertificateFault (lines bytes.now) fault
        → SaysText result (Err fault) }
{
    read_text(CertReader::new(alloc), bytes)
}
