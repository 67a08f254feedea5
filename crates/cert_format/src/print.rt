//! Printing a certificate.

ghost use Rattle.std.specs.Prelude.{◌≡◌, ◌++◌, OnOk, IfOk, IfSome, IsTrue, All, Ok};
ghost use Rattle.std.specs.List.{flat_map};
ghost use Rattle.std.specs.Fmt.{decimal};
ghost use Rattle.net_model.specs.Names.{is_name};
ghost use Rattle.texts.specs.PrintedLines.{after_blank};
ghost use Rattle.cert_format.specs.CertificateFormat.{certificate_text};
ghost use Rattle.cert_format.specs.CertificateWords.{rule_word, operand_words, label_words};
ghost use Rattle.cert_format.specs.CertificateWords.{entry_word, printed_certificate};
ghost use Rattle.cert_format.specs.CertificateWords.{IsEntryWeight, AreOperands, HasWeights};
ghost use Rattle.cert_format.specs.CertificateWords.{HasWrittenWeight};

use crate::certificate::Certificate;
use crate::entry::Entry;
use crate::keyword::Keyword;
use crate::kind::LineKind;
use crate::line::CertLine;
use crate::printed_line::{PrintedLine, push_lines, push_points};
use net_model::Name;
use std::alloc::{AllocError, Global};
use texts::push_line;

/// The text of a certificate: the header, `refutation`, the rule lines and the walk in their order,
/// and `end`, or the header, `table`, the order, the entries and `end`, with one blank between
/// words and a line end after each line. Each weight must be below 10^18 in size. It reads back to
/// the same certificate. `AllocError` comes only for want of memory.
pub fn print_certificate(alloc: Global, certificate: &Certificate) -> Result<Vec<u8>, AllocError>
    requires { HasWeights certificate.now }
    ensures text { IfOk result (λ text. text.items ≡ printed_certificate certificate.now) }
    ensures back { IfOk result (λ text. certificate_text text.items ≡ Ok certificate.now) }
{
    match certificate {
        Certificate::Refutation { lines, walk } => {
            print_refutation(alloc, lines.as_slice(), walk.as_slice())
        }
        Certificate::TableProof { order, entries } => {
            print_table(alloc, order.as_slice(), entries.as_slice())
        }
    }
}

fn print_refutation(alloc: Global, lines: &[CertLine], walk: &[u64]) -> Result<Vec<u8>, AllocError>
    requires { All HasWrittenWeight lines.now }
    ensures text { IfOk result (λ text. text.items ≡ printed_certificate
        (Certificate.Refutation lines.now walk.now)) }
    ensures back { IfOk result (λ text. certificate_text text.items ≡ Ok
        (Certificate.Refutation lines.now walk.now)) }
{
    let mut out = Vec::new(alloc);
    push_line(&mut out, b"certificate", &[b"1".as_slice()])?;
    push_line(&mut out, b"refutation", &[])?;
    push_lines(alloc, &mut out, lines)?;
    push_lines(alloc, &mut out, walk)?;
    push_line(&mut out, b"end", &[])?;
    Ok(out)
}

fn print_table(alloc: Global, order: &[Name], entries: &[Entry]) -> Result<Vec<u8>, AllocError>
    requires { All IsEntryWeight entries.now }
    ensures text { IfOk result (λ text. text.items ≡ printed_certificate
        (Certificate.TableProof order.now entries.now)) }
    ensures back { IfOk result (λ text. certificate_text text.items ≡ Ok
        (Certificate.TableProof order.now entries.now)) }
{
    let mut out = Vec::new(alloc);
    push_line(&mut out, b"certificate", &[b"1".as_slice()])?;
    push_line(&mut out, b"table", &[])?;
    push_points(&mut out, b"order", order)?;
    push_lines(alloc, &mut out, entries)?;
    push_line(&mut out, b"end", &[])?;
    Ok(out)
}

impl PrintedLine for Entry {
    ghost use Rattle.cert_format.specs.CertificateWords.{entry_words};
    ghost use Rattle.cert_format.specs.CertificateWords.{IsEntryWeight, IsSpelledEntry};

    ghost words_of = { entry_words };

    ghost has_limits = { IsEntryWeight };

    ghost is_spelled = { IsSpelledEntry };

    fn push(&self, alloc: Global, out: &mut Vec<u8>) -> Result<(), AllocError> {
        out.extend_from_slice(entry_word(&self.label).spelled())?;
        push_word(out, self.from.bytes())?;
        push_label(out, &self.to)?;
        push_label(out, &self.label)?;
        push_word(out, self.weight.to_string(alloc)?.as_bytes())?;
        out.push(b'\n')?;
        Ok(())
    }
}

/// The first word of an entry, by its label.
fn entry_word(label: &Option<Name>) -> Keyword
    ensures { result ≡ entry_word label.now }
{
    match label {
        None => Keyword::Edge,
        Some(_) => Keyword::Upper,
    }
}

impl PrintedLine for CertLine {
    ghost use Rattle.cert_format.specs.CertificateWords.{line_words};
    ghost use Rattle.cert_format.specs.CertificateWords.{HasWrittenWeight, IsSpelledLine};

    ghost words_of = { line_words };

    ghost has_limits = { HasWrittenWeight };

    ghost is_spelled = { IsSpelledLine };

    fn push(&self, alloc: Global, out: &mut Vec<u8>) -> Result<(), AllocError> {
        out.extend_from_slice(rule_word(&self.kind).spelled())?;
        push_operands(alloc, out, &self.kind)?;
        push_word(out, self.from.bytes())?;
        push_word(out, self.to.bytes())?;
        push_label(out, &self.label)?;
        push_word(out, self.weight.to_string(alloc)?.as_bytes())?;
        out.push(b'\n')?;
        Ok(())
    }
}

/// The number of a line, as a line of a walk.
impl PrintedLine for u64 {
    ghost use Rattle.std.specs.Prelude.{◌≤◌};
    ghost use Rattle.cert_format.specs.CertificateWords.{walk_words};
    ghost use Rattle.cert_format.specs.Limits.{most_line_number};

    ghost words_of = { walk_words };

    ghost has_limits = { λ number. Unit {0} };

    ghost is_spelled = { λ number. number ≤ most_line_number };

    fn push(&self, alloc: Global, out: &mut Vec<u8>) -> Result<(), AllocError> {
        let number = *self;
        push_line(out, b"walk", &[number.to_string(alloc)?.as_bytes()])
    }
}

/// The first word of a rule line.
fn rule_word(kind: &LineKind) -> Keyword
    ensures { result ≡ rule_word kind.now }
{
    match kind {
        LineKind::Bound(_) => Keyword::Bound,
        LineKind::Link(_) => Keyword::Link,
        LineKind::No(..) => Keyword::No,
        LineKind::Up(..) => Keyword::Up,
        LineKind::Low(..) => Keyword::Low,
        LineKind::Cross(..) => Keyword::Cross,
        LineKind::Drop(_) => Keyword::Drop,
    }
}

fn push_operands(alloc: Global, out: &mut Vec<u8>, kind: &LineKind) -> Result<(), AllocError>
    ensures text { OnOk result (out.new.items ≡ out.old.items ++ flat_map after_blank
        (operand_words kind.now)) }
    ensures spelled { OnOk result (AreOperands kind.now) }
{
    match kind {
        LineKind::Bound(name) | LineKind::Link(name) => push_word(out, name.bytes()),
        LineKind::No(first, second) | LineKind::Up(first, second) => {
            push_number(alloc, out, *first)?;
            push_number(alloc, out, *second)
        }
        LineKind::Low(name, second) | LineKind::Cross(name, second) => {
            push_word(out, name.bytes())?;
            push_number(alloc, out, *second)
        }
        LineKind::Drop(second) => push_number(alloc, out, *second),
    }
}

/// One blank and a name, if there is one.
fn push_label(out: &mut Vec<u8>, label: &Option<Name>) -> Result<(), AllocError>
    ensures text { OnOk result (out.new.items ≡ out.old.items ++ flat_map after_blank
        (label_words label.now)) }
    ensures spelled { OnOk result (IfSome label.now (λ label. IsTrue (is_name label))) }
{
    match label {
        None => Ok(()),
        Some(label) => push_word(out, label.bytes()),
    }
}

fn push_number(alloc: Global, out: &mut Vec<u8>, number: u64) -> Result<(), AllocError>
    ensures { OnOk result (out.new.items ≡ out.old.items ++ after_blank (decimal number)) }
{
    push_word(out, number.to_string(alloc)?.as_bytes())
}

/// One blank and a word.
fn push_word(out: &mut Vec<u8>, word: &[u8]) -> Result<(), AllocError>
    ensures { OnOk result (out.new.items ≡ out.old.items ++ after_blank word.now) }
{
    out.push(b' ')?;
    out.extend_from_slice(word)?;
    Ok(())
}
