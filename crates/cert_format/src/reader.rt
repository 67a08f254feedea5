//! The lines of a certificate, one after another.

ghost use Rattle.std.specs.Prelude.{◌≡◌, ◌++◌, ◌∷◌, [], OnOk, OnErr};

use crate::certificate::Certificate;
use crate::entry::Entry;
use crate::keyword::Keyword;
use crate::line::CertLine;
use crate::read::{CertText, line_of};
use crate::section::Section;
use net_model::{FormatKind, Items, Name, WordFault};
use sectioned_texts::SectionReader;
use std::alloc::{AllocError, Global};
use std::marker::Model;

/// A certificate of which lines are read one after another. Contracts see it as what was read: the
/// section that is reached, the rule lines and the walk lines of a refutation, and the order and
/// the entries of a table proof.
///
/// A command that reads a certificate from its input begins with `new`, gives each line to
/// `read_line`, and answers `missing` when the input ends. Clauses `prefix` of `new`, `brings` of
/// `read_line` and `fault` of `missing` then say of the lines that came that they declare a
/// certificate (`DeclareCertificate`) or have a first fault (`IsFirstCertificateFault`); by
/// `law_lines_have_one_reading` just one of the two holds, and of one value.
#[derive(Debug, Drop)]
pub struct CertReader {
    section: Section,
    lines: Vec<CertLine>,
    walk: Vec<u64>,
    order: Vec<Name>,
    entries: Vec<Entry>,
}

impl Model for CertReader {
    ghost use Rattle.cert_format.specs.CertificateGrammar.{CertificateProgress};

    ghost Value = { CertificateProgress };

    ghost view = { λ r. record {
      section = r.section;
      lines = r.lines.items;
      walk = r.walk.items;
      order = r.order.items;
      entries = r.entries.items;
    } };
}

impl CertReader {
    ghost use Rattle.std.specs.Prelude.{◌≡◌, ℕ, List, [], IfOk, OnOk, OnErr};
    ghost use Rattle.texts.specs.Words.{words};
    ghost use Rattle.sectioned_texts.specs.SectionedTexts.{LineBrings, missing_in, fault_after};
    ghost use Rattle.sectioned_texts.specs.Reading.{SaysLine, line_in};
    ghost use Rattle.cert_format.specs.CertificateGrammar.{IsFirstCertificateFault, IsPrefix};
    ghost use Rattle.cert_format.specs.CertificateGrammar.{initial, advanced, certificate_of};
    ghost use Rattle.cert_format.specs.CertificateGrammar.{certificate_lines};

    /// A reader that has read no line. It takes no memory.
    pub fn new(alloc: Global) -> CertReader
        ensures initial { result ≡ initial }
        ensures prefix { IsPrefix [] result }
    {
        CertReader {
            section: Section::Header,
            lines: Vec::new(alloc),
            walk: Vec::new(alloc),
            order: Vec::new(alloc),
            entries: Vec::new(alloc),
        }
    }

    /// The section that is reached.
    pub fn section(&self) -> Section
        ensures { result ≡ self.now.section }
    {
        self.section
    }

    /// Reads the next line in its place and keeps what it says. If the lines before were the prefix
    /// of a certificate, they are a longer prefix with this one, or at `End` declare the
    /// certificate that is kept, whatever stands after them, or this line has their first fault, as
    /// `read_certificate` gives it. A line that is refused changes nothing, and want of memory
    /// neither. The caller reads nothing more after `End`.
    pub fn read_line(&mut self, line: &[u8]) -> Result<CertText, WordFault>
        ensures brings { (prefix : List (List ℕ)) → IsPrefix prefix self.old
            → LineBrings certificate_lines prefix line.now result self.new }
        ensures said { SaysLine result
            (line_in certificate_lines self.old.section (words line.now)) }
        ensures kept { IfOk result (λ said. self.new ≡ advanced self.old said) }
        ensures refused { OnErr result (self.new ≡ self.old) }
    {
        sectioned_texts::read_line(self, line)
    }

    /// The fault if the lines end here: `NoHeader` before the header, else `NoEnd`, in the line
    /// after them. After the prefix of a certificate that is the first fault of its lines.
    pub fn missing(&self) -> FormatKind
        ensures missing { result ≡ missing_in certificate_lines self.now.section }
        ensures fault { (prefix : List (List ℕ)) → IsPrefix prefix self.now
            → IsFirstCertificateFault prefix (fault_after prefix result) }
    {
        sectioned_texts::missing(self)
    }

    /// The certificate of all lines that were read.
    pub fn into_certificate(self) -> Certificate
        ensures { result ≡ certificate_of self }
    {
        let CertReader {
            section,
            lines,
            walk,
            order,
            entries,
        } = self;
        match section {
            Section::Order | Section::Entries => Certificate::TableProof {
                order: Items::new(order),
                entries: Items::new(entries),
            },
            _ => Certificate::Refutation {
                lines: Items::new(lines),
                walk: Items::new(walk),
            },
        }
    }
}

impl SectionReader for CertReader {
    type Section = Section;

    type Word = Keyword;

    type Line = CertText;

    type Value = Certificate;

    ghost use Rattle.cert_format.specs.CertificateGrammar.{certificate_lines};

    ghost text = { certificate_lines };

    fn section(&self) -> Section {
        self.section
    }

    fn first_word(word: &[u8]) -> Option<Keyword> {
        Keyword::of(word)
    }

    fn admits(section: Section, first: Keyword) -> bool {
        section.admits(first)
    }

    fn opens(section: Section) -> bool {
        section == Section::Header
    }

    fn line_after(first: Keyword, rest: &[u8]) -> Result<CertText, FormatKind> {
        line_of(first, rest)
    }

    fn blank() -> CertText {
        CertText::Blank
    }

    fn is_last(line: &CertText) -> bool {
        *line == CertText::End
    }

    fn keep(&mut self, line: &CertText) -> Result<(), AllocError> {
        match line {
            CertText::Blank | CertText::End => {}
            CertText::Header => self.section = Section::Kind,
            CertText::Refutation => self.section = Section::Rules,
            CertText::Table => self.section = Section::Order,
            CertText::Line(rule) => push(&mut self.lines, *rule)?,
            CertText::Walk(number) => {
                self.walk.push(*number)?;
                self.section = Section::Walk;
            }
            CertText::Order(point) => self.order.push(*point)?,
            CertText::Entry(entry) => {
                push_entry(&mut self.entries, *entry)?;
                self.section = Section::Entries;
            }
        }
        Ok(())
    }

    fn into_value(self) -> Certificate {
        self.into_certificate()
    }

    fn is_lawful() {}
}

/// One rule line more. It is put together from its fields, so that their types are named here.
fn push(lines: &mut Vec<CertLine>, line: CertLine) -> Result<(), AllocError>
    ensures kept { OnOk result (lines.new.items ≡ lines.old.items ++ line ∷ []) }
    ensures refused { OnErr result (lines.new.items ≡ lines.old.items) }
{
    let CertLine {
        kind,
        from,
        to,
        label,
        weight,
    } = line;
    lines.push(CertLine {
        kind,
        from,
        to,
        label,
        weight,
    })?;
    Ok(())
}

/// One entry more, put together in the same way.
fn push_entry(entries: &mut Vec<Entry>, entry: Entry) -> Result<(), AllocError>
    ensures kept { OnOk result (entries.new.items ≡ entries.old.items ++ entry ∷ []) }
    ensures refused { OnErr result (entries.new.items ≡ entries.old.items) }
{
    let Entry {
        from,
        to,
        label,
        weight,
    } = entry;
    entries.push(Entry {
        from,
        to,
        label,
        weight,
    })?;
    Ok(())
}
