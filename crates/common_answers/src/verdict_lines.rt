//! What is put of the verdict of a network: a line, and a certificate after it if one is wanted.

ghost use Rattle.std.specs.Prelude.{◌≡◌, IfOk, OnOk, if◌then◌else◌};
ghost use Rattle.cert_format.specs.CertificateWords.{HasWeights};
ghost use Rattle.common_answers.specs.VerdictLines.{controllable_line, refuted_line};
ghost use Rattle.common_answers.specs.VerdictLines.{PutsControllable, PutsProved, PutsRefuted};

use cert_format::{Certificate, print_certificate};
use command_engine::{Answer, End, Word};
use std::alloc::{AllocError, Global};

/// Puts whether a network is controllable in place of what stood in the buffer. `AllocError` comes
/// only for want of memory; a part of the line may then have been put.
pub fn push_verdict(answer: &mut Answer, controllable: bool) -> Result<(), AllocError>
    ensures { OnOk result (answer.new.text ≡ (if controllable then controllable_line
        else refuted_line)) }
{
    answer.clear();
    if controllable {
        answer.push_line(&[Word::Text("controllable")])
    } else {
        answer.push_line(&[Word::Text("not controllable")])
    }
}

/// Puts that a network is controllable in place of what stood in the buffer. `AllocError` comes
/// only for want of memory; a part may then have been put.
pub fn put_controllable(answer: &mut Answer) -> Result<End, AllocError>
    ensures { IfOk result (λ end. PutsControllable answer.new.text end) }
{
    answer.clear();
    answer.push_line(&[Word::Text("controllable")])?;
    Ok(End::Done)
}

/// Puts that a network is controllable, and the certificate of it, in place of what stood in the
/// buffer. `AllocError` comes only for want of memory; a part may then have been put.
pub fn put_proved(
    alloc: Global,
    answer: &mut Answer,
    certificate: &Certificate,
) -> Result<End, AllocError>
    requires weights { HasWeights certificate.now }
    ensures { IfOk result (λ end. PutsProved certificate.now answer.new.text end) }
{
    let text = print_certificate(alloc, certificate)?;
    answer.clear();
    answer.push_line(&[Word::Text("controllable")])?;
    answer.push_text(text.as_slice())?;
    Ok(End::Done)
}

/// Puts that a network is not controllable, and the certificate of it, in place of what stood in
/// the buffer. `AllocError` comes only for want of memory; a part may then have been put.
pub fn put_refuted(
    alloc: Global,
    answer: &mut Answer,
    certificate: &Certificate,
) -> Result<End, AllocError>
    requires weights { HasWeights certificate.now }
    ensures { IfOk result (λ end. PutsRefuted certificate.now answer.new.text end) }
{
    let text = print_certificate(alloc, certificate)?;
    answer.clear();
    answer.push_line(&[Word::Text("not controllable")])?;
    answer.push_text(text.as_slice())?;
    Ok(End::Refused)
}
