//! The lines of a strong certificate, one after another.

use crate::strong_cert::{StrongCert, StrongLine};
use crate::strong_read::{StrongTextLine, line_of};
use crate::strong_section::StrongSection;
use crate::strong_word::StrongWord;
use net_model::{FormatKind, Items, Name, WordFault};
use sectioned_texts::SectionReader;
use std::alloc::{AllocError, Global};
use std::marker::Model;

/// A strong certificate of which lines are read one after another. Contracts see it as what was
/// read: the section that is reached, the lines of bounds and the points of a ring. Its calls
/// promise of strong certificates what those of `CertReader` promise of certificates.
#[derive(Debug, Drop)]
pub struct StrongReader {
    section: StrongSection,
    by: Vec<StrongLine>,
    ring: Vec<Name>,
}

impl Model for StrongReader {
    ghost use Rattle.cert_format.specs.StrongGrammar.{StrongProgress};

    ghost Value = { StrongProgress };

    ghost view = { λ r. record { section = r.section; by = r.by.items; ring = r.ring.items } };
}

impl StrongReader {
    ghost use Rattle.std.specs.Prelude.{◌≡◌, ℕ, List, [], IfOk, OnOk, OnErr};
    ghost use Rattle.texts.specs.Words.{words};
    ghost use Rattle.sectioned_texts.specs.SectionedTexts.{LineBrings, missing_in, fault_after};
    ghost use Rattle.sectioned_texts.specs.Reading.{SaysLine, line_in};
    ghost use Rattle.cert_format.specs.StrongGrammar.{IsFirstStrongFault, IsStrongPrefix, initial};
    ghost use Rattle.cert_format.specs.StrongGrammar.{advanced, strong_of, strong_lines};

    /// A reader that has read no line. It takes no memory.
    pub fn new(alloc: Global) -> StrongReader
        ensures initial { result ≡ initial }
        ensures prefix { IsStrongPrefix [] result }
    {
        StrongReader {
            section: StrongSection::Header,
            by: Vec::new(alloc),
            ring: Vec::new(alloc),
        }
    }

    /// The section that is reached.
    pub fn section(&self) -> StrongSection
        ensures { result ≡ self.now.section }
    {
        self.section
    }

    /// Reads the next line in its place and keeps what it says. If the lines before were the prefix
    /// of a strong certificate, they are a longer prefix with this one, or at `End` declare the
    /// certificate that is kept, whatever stands after them, or this line has their first fault, as
    /// `read_strong` gives it. A line that is refused changes nothing, and want of memory neither.
    /// The caller reads nothing more after `End`.
    pub fn read_line(&mut self, line: &[u8]) -> Result<StrongTextLine, WordFault>
        ensures brings { (prefix : List (List ℕ)) → IsStrongPrefix prefix self.old
            → LineBrings strong_lines prefix line.now result self.new }
        ensures said { SaysLine result (line_in strong_lines self.old.section (words line.now)) }
        ensures kept { IfOk result (λ said. self.new ≡ advanced self.old said) }
        ensures refused { OnErr result (self.new ≡ self.old) }
    {
        sectioned_texts::read_line(self, line)
    }

    /// The fault if the lines end here: `NoHeader` before the header, else `NoEnd`, in the line
    /// after them. After the prefix of a strong certificate that is the first fault of its lines.
    pub fn missing(&self) -> FormatKind
        ensures missing { result ≡ missing_in strong_lines self.now.section }
        ensures fault { (prefix : List (List ℕ)) → IsStrongPrefix prefix self.now
            → IsFirstStrongFault prefix (fault_after prefix result) }
    {
        sectioned_texts::missing(self)
    }

    /// The certificate of all lines that were read.
    pub fn into_certificate(self) -> StrongCert
        ensures { result ≡ strong_of self }
    {
        StrongCert {
            by: Items::new(self.by),
            ring: Items::new(self.ring),
        }
    }
}

impl SectionReader for StrongReader {
    type Section = StrongSection;

    type Word = StrongWord;

    type Line = StrongTextLine;

    type Value = StrongCert;

    ghost use Rattle.cert_format.specs.StrongGrammar.{strong_lines};

    ghost text = { strong_lines };

    fn section(&self) -> StrongSection {
        self.section
    }

    fn first_word(word: &[u8]) -> Option<StrongWord> {
        StrongWord::of(word)
    }

    fn admits(section: StrongSection, first: StrongWord) -> bool {
        section.admits(first)
    }

    fn opens(section: StrongSection) -> bool {
        section == StrongSection::Header
    }

    fn line_after(first: StrongWord, rest: &[u8]) -> Result<StrongTextLine, FormatKind> {
        line_of(first, rest)
    }

    fn blank() -> StrongTextLine {
        StrongTextLine::Blank
    }

    fn is_last(line: &StrongTextLine) -> bool {
        *line == StrongTextLine::End
    }

    fn keep(&mut self, line: &StrongTextLine) -> Result<(), AllocError> {
        match line {
            StrongTextLine::Blank | StrongTextLine::End => {}
            StrongTextLine::Header => self.section = StrongSection::Lines,
            StrongTextLine::By(edge) => {
                self.by.push(*edge)?;
                self.section = StrongSection::By;
            }
            StrongTextLine::Ring(point) => {
                self.ring.push(*point)?;
                self.section = StrongSection::Ring;
            }
        }
        Ok(())
    }

    fn into_value(self) -> StrongCert {
        self.into_certificate()
    }

    fn is_lawful() {}
}
