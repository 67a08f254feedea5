//! A text of lines in sections in an input.

ghost use Rattle.std.specs.Prelude.{◌≡◌};
ghost use Rattle.input_texts.specs.SectionInputs.{initial_input, section_reader, section_texts};

use cert_format::{CertReader, StrongReader};
use command_engine::{InGrammar, Parse, Stop, Text};
use common_answers::{Fault, stop_fault};
use net_model::WordFault;
use plan_port::MOST_LINE;
use sectioned_texts::{SectionReader, missing, read_line};
use std::alloc::{AllocError, Global};

/// A text of lines in sections, and how far it was read. Every text of its grammar is read, and a
/// fault is the first one.
#[derive(Drop)]
pub struct SectionInput<R> {
    pub reader: R,
}

/// The text of a certificate, and how far it was read. It says the certificate.
pub type CertificateInput = SectionInput<CertReader>;

/// The text of a strong certificate, and how far it was read. It says the certificate.
pub type StrongInput = SectionInput<StrongReader>;

impl<R: SectionReader> Text for SectionInput<R> {
    type Value = R::Value;

    type Fault = Fault;

    ghost reader = { section_reader R.text };

    fn longest(&self) -> u32 {
        MOST_LINE
    }

    fn read_line(
        mut self,
        alloc: Global,
        number: u32,
        line: &[u8],
    ) -> Result<Parse<SectionInput<R>, R::Value, Fault>, AllocError> {
        match read_line(&mut self.reader, line) {
            Ok(said) => Ok(self.parse(R::is_last(&said))),
            Err(WordFault::Kind(kind)) => Ok(Parse::Refused(Fault::Format(number, kind))),
            Err(WordFault::OutOfMemory) => Err(AllocError),
        }
    }

    fn stop(&self, number: u32, stop: Stop) -> Fault {
        stop_fault(number, stop, missing(&self.reader))
    }
}

impl<R: SectionReader> SectionInput<R> {
    ghost use Rattle.input_texts.specs.SectionInputs.{step_by};

    /// What a line brings that was read and kept.
    fn parse(self, is_last: bool) -> Parse<SectionInput<R>, R::Value, Fault>
        ensures { result ≡ step_by R.text is_last self.reader }
    {
        if is_last {
            Parse::Parsed(self.reader.into_value())
        } else {
            Parse::Continue(self)
        }
    }
}

impl<R: SectionReader> InGrammar for SectionInput<R> {
    ghost initial_text = { initial_input R.text };

    ghost grammar = { section_texts R.text };

    fn reads_by_grammar() {
        R::is_lawful();
    }
}
