//! A certificate of either kind in an input.

ghost use Rattle.std.specs.Prelude.{◌≡◌};
ghost use Rattle.input_texts.specs.ProofInputs.{control_tests, strong_tests};

use crate::section_input::{CertificateInput, SectionInput, StrongInput};
use cert_format::{CertReader, Certificate, StrongCert, StrongReader};
use command_engine::{Either, Test, Tested};
use common_answers::Fault;
use std::alloc::{AllocError, Global};

/// What a certificate is about.
#[derive(Clone, Copy, Debug, PartialEq, Eq)]
pub enum ProofKind {
    /// Whether some strategy controls a network.
    Control,
    /// That a network has no strong schedule.
    Strong,
}

/// A certificate of either kind.
#[derive(Debug, Drop)]
pub enum Proof {
    /// Whether some strategy controls a network.
    Control(Certificate),
    /// That a network has no strong schedule.
    Strong(StrongCert),
}

/// What a certificate is taken for: one about strategies.
#[derive(Clone, Copy, Debug, PartialEq, Eq)]
pub struct AsControl;

impl Test<Certificate, Fault> for AsControl {
    type Value = Proof;

    ghost tests = { control_tests };

    fn test(
        &self,
        _alloc: Global,
        value: Certificate,
        _number: u32,
    ) -> Result<Result<Proof, Fault>, AllocError> {
        Ok(Ok(Proof::Control(value)))
    }
}

/// What a strong certificate is taken for: one about strong schedules.
#[derive(Clone, Copy, Debug, PartialEq, Eq)]
pub struct AsStrong;

impl Test<StrongCert, Fault> for AsStrong {
    type Value = Proof;

    ghost tests = { strong_tests };

    fn test(
        &self,
        _alloc: Global,
        value: StrongCert,
        _number: u32,
    ) -> Result<Result<Proof, Fault>, AllocError> {
        Ok(Ok(Proof::Strong(value)))
    }
}

/// The text of a certificate of either kind, and how far it was read. Its grammar is that of its
/// kind.
pub type ProofInput = Either<Tested<CertificateInput, AsControl>, Tested<StrongInput, AsStrong>>;

impl ProofKind {
    ghost use Rattle.input_texts.specs.ProofInputs.{kind_by, initial_proof};

    /// The kind by whether the flag `--strong` is given.
    pub fn of(strong: bool) -> ProofKind
        ensures { result ≡ kind_by strong }
    {
        if strong {
            ProofKind::Strong
        } else {
            ProofKind::Control
        }
    }

    /// A certificate of this kind before the first line.
    pub fn initial(self, alloc: Global) -> ProofInput
        ensures { result ≡ initial_proof self }
    {
        match self {
            ProofKind::Control => Either::Left(Tested {
                text: SectionInput {
                    reader: CertReader::new(alloc),
                },
                test: AsControl,
            }),
            ProofKind::Strong => Either::Right(Tested {
                text: SectionInput {
                    reader: StrongReader::new(alloc),
                },
                test: AsStrong,
            }),
        }
    }
}
