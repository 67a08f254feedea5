//! Laws about the texts of certificates, each the contract of a function without parameters.

ghost use Rattle.std.specs.Prelude.{ℕ, List};
ghost use Rattle.sectioned_texts.specs.SectionedTexts.{HaveOneReading};
ghost use Rattle.cert_format.specs.CertificateGrammar.{certificate_lines};
ghost use Rattle.cert_format.specs.StrongGrammar.{strong_lines};

/// Lines declare one certificate, with one list of lines after it, or have one first fault, and not
/// both.
pub fn law_lines_have_one_reading()
    ensures { (lines : List (List ℕ)) → HaveOneReading certificate_lines lines }
{}

/// Lines declare one strong certificate, with one list of lines after it, or have one first fault,
/// and not both.
pub fn law_strong_lines_have_one_reading()
    ensures { (lines : List (List ℕ)) → HaveOneReading strong_lines lines }
{}
