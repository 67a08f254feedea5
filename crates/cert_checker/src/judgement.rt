//! What a judgement says of a certificate, and why a line is refused.

use net_model::{Name, Weight};
use std::alloc::{AllocError, AllocFailed};
use std::error::Error;
use std::fmt;

/// What a certificate proves of a network.
#[derive(Clone, Copy, Debug, PartialEq, Eq)]
pub enum Claim {
    /// No strategy controls the network.
    NotControllable,
    /// Some strategy controls the network.
    Controllable,
}

impl fmt::Display for Claim {
    ghost use Rattle.std.specs.Prelude.{Some};
    ghost use Rattle.cert_checker.specs.JudgementText.{claim_text};

    ghost output = { λ claim. Some (claim_text claim) };

    fn fmt<W: fmt::Write>(&self, f: &mut fmt::Formatter<W>) -> fmt::Result {
        f.write_str(match self {
            Claim::NotControllable => "not controllable",
            Claim::Controllable => "controllable",
        })
    }
}

/// Why a line of a certificate is refused.
#[derive(Clone, Copy, Debug, PartialEq, Eq)]
pub enum CertFault {
    /// The line names a bound, a point or a link that is not in the network.
    UnknownItem,
    /// A premise is not the number of an earlier rule line, or a step of the walk not that of a
    /// rule line.
    Premise,
    /// The premise of the lower-case or the cross-case rule has a weight of 0 or more, or the label
    /// of a cross-case line is its own link.
    RuleCondition,
    /// The ends of the line are not those that its rule gives, or its premises do not meet.
    Ends,
    /// A premise has a label but must have none, or has none but must have one, or has another than
    /// the line.
    Label,
    /// The weight is below the least that the rule gives.
    TooLow { given: Weight, least: Weight },
    /// The walk is empty or not closed, or a step does not begin where the one before ended.
    WalkBroken,
    /// The total weight of the walk is 0 or more.
    WalkNotNegative { total: i128 },
    /// The weight is beyond 10^12 in size.
    WeightRange,
    /// No entry has the ends of the bound of this name and a weight of at most its number.
    MissingBound(Name),
    /// No entry has the ends and the label of the link that ends in the point of this name, and a
    /// weight of at most the negative of its longest duration.
    MissingLink(Name),
    /// The point stood in the order before, a point is missing in it, or a negative ordinary entry
    /// does not go from a later point to an earlier one.
    OrderBroken,
    /// By a rule the entry gives an edge for which no entry has its ends and its label and a weight
    /// of at most its own.
    NotClosed,
}

impl fmt::Display for CertFault {
    ghost use Rattle.std.specs.Prelude.{Some};
    ghost use Rattle.cert_checker.specs.JudgementText.{fault_text};

    ghost output = { λ fault. Some (fault_text fault) };

    fn fmt<W: fmt::Write>(&self, f: &mut fmt::Formatter<W>) -> fmt::Result {
        match self {
            CertFault::UnknownItem => f.write_str("unknown-item"),
            CertFault::Premise => f.write_str("premise"),
            CertFault::RuleCondition => f.write_str("rule-condition"),
            CertFault::Ends => f.write_str("ends"),
            CertFault::Label => f.write_str("label"),
            CertFault::TooLow { given, least } => write!(f, "too-low {given} {least}"),
            CertFault::WalkBroken => f.write_str("walk-broken"),
            CertFault::WalkNotNegative { total } => write!(f, "walk-not-negative {total}"),
            CertFault::WeightRange => f.write_str("weight-range"),
            CertFault::MissingBound(name) => write!(f, "missing-base bound {name}"),
            CertFault::MissingLink(name) => write!(f, "missing-base link {name}"),
            CertFault::OrderBroken => f.write_str("order-broken"),
            CertFault::NotClosed => f.write_str("not-closed"),
        }
    }
}

impl Error for CertFault {}

/// What is said of a certificate. Lines are counted from 1 as its rules count them: those that are
/// not blank, after its second line; 0 is no line. `Display` gives the words that the program
/// prints for it.
#[derive(Clone, Copy, Debug, PartialEq, Eq)]
pub enum Judgement {
    /// The certificate proves its claim.
    Accepted(Claim),
    /// The first line that does not pass, and why.
    Refused { line: u64, why: CertFault },
}

impl fmt::Display for Judgement {
    ghost use Rattle.std.specs.Prelude.{Some};
    ghost use Rattle.cert_checker.specs.JudgementText.{judgement_text};

    ghost output = { λ judgement. Some (judgement_text judgement) };

    fn fmt<W: fmt::Write>(&self, f: &mut fmt::Formatter<W>) -> fmt::Result {
        match self {
            Judgement::Accepted(claim) => write!(f, "accepted {claim}"),
            Judgement::Refused { line, why } => write!(f, "refused {line} {why}"),
        }
    }
}

/// The first line that does not pass, and why.
#[derive(Clone, Copy)]
pub(crate) struct RefusedLine {
    pub(crate) line: u64,
    pub(crate) why: CertFault,
}

/// Why a judgement stops: a line does not pass, or memory ran out.
#[derive(Clone, Copy)]
pub(crate) enum Failure {
    Refused(RefusedLine),
    OutOfMemory,
}

impl From<RefusedLine> for Failure {
    ghost use Rattle.std.specs.Prelude.{◌≡◌};
    ghost use Rattle.cert_checker.specs.declared.judgement.Failure.TheVariants.{Refused};

    ghost from_gives = { λ refusal stop. stop ≡ Refused refusal };

    fn from(refusal: RefusedLine) -> Failure {
        Failure::Refused(refusal)
    }
}

impl From<AllocError> for Failure {
    ghost use Rattle.std.specs.Prelude.{◌≡◌};
    ghost use Rattle.cert_checker.specs.declared.judgement.Failure.TheVariants.{OutOfMemory};

    ghost from_gives = { λ _ stop. stop ≡ OutOfMemory };

    fn from(_error: AllocError) -> Failure {
        Failure::OutOfMemory
    }
}

impl<T: Drop> From<AllocFailed<T>> for Failure {
    ghost use Rattle.std.specs.Prelude.{◌≡◌};
    ghost use Rattle.cert_checker.specs.declared.judgement.Failure.TheVariants.{OutOfMemory};

    ghost from_gives = { λ _ stop. stop ≡ OutOfMemory };

    fn from(_error: AllocFailed<T>) -> Failure {
        Failure::OutOfMemory
    }
}
