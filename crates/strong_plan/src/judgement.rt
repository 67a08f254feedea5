//! What a judgement says of a strong certificate.

use cert_checker::CertFault;
use std::fmt;

/// What is said of a strong certificate. Lines are counted from 1: those that are not blank, after
/// its header.
#[derive(Clone, Copy, Debug, PartialEq, Eq)]
pub enum StrongJudgement {
    /// No one schedule of the executable points is right in every situation.
    Accepted,
    /// The first line that does not pass, and why.
    Refused { line: u64, why: CertFault },
}

impl fmt::Display for StrongJudgement {
    ghost use Rattle.std.specs.Prelude.{Some};
    ghost use Rattle.strong_plan.specs.Judgement.{judgement_text};

    ghost output = { λ judgement. Some (judgement_text judgement) };

    fn fmt<W: fmt::Write>(&self, f: &mut fmt::Formatter<W>) -> fmt::Result {
        match self {
            StrongJudgement::Accepted => f.write_str("accepted not strongly controllable"),
            StrongJudgement::Refused { line, why } => write!(f, "refused {line} {why}"),
        }
    }
}

/// The first line that does not pass, and why.
#[derive(Clone, Copy)]
pub(crate) struct RefusedStrongLine {
    pub(crate) line: u64,
    pub(crate) why: CertFault,
}

impl RefusedStrongLine {
    ghost use Rattle.std.specs.Prelude.{◌≡◌};
    ghost use Rattle.strong_plan.specs.Judgement.{refusal};

    pub(crate) fn at(line: u64, why: CertFault) -> RefusedStrongLine
        ensures { result ≡ refusal line why }
    {
        RefusedStrongLine { line, why }
    }
}
