//! The section of a plan text: what may come next in it.

use crate::version::{PlanStage, PlanVersion};
use net_model::FormatKind;

/// What may come next in a plan text.
#[derive(Clone, Copy, Debug, PartialEq, Eq)]
pub enum PlanSection {
    /// The header, `stnu 1` or `stnu 2`.
    Header,
    /// What a text of this version may have after its header, and then the `end` line.
    Started(PlanVersion, PlanStage),
}

impl PlanSection {
    ghost use Rattle.std.specs.Prelude.{◌≡◌};
    ghost use Rattle.plan_format.specs.PlanParts.{version_numbered};
    ghost use Rattle.plan_format.specs.PlanReading.{past_delay, missing, stage_in, version_in};

    /// After a header of a version of this number.
    pub(crate) fn opened(version: u32) -> PlanSection
        ensures { result ≡ PlanSection.Started (version_numbered version) PlanStage.Opened }
    {
        PlanSection::Started(PlanVersion::numbered(version), PlanStage::Opened)
    }

    /// The version by which a line is read here: the first before the header.
    pub fn version(self) -> PlanVersion
        ensures { result ≡ version_in self }
    {
        match self {
            PlanSection::Header => PlanVersion::One,
            PlanSection::Started(version, _) => version,
        }
    }

    /// How far the text is.
    pub fn stage(self) -> PlanStage
        ensures { result ≡ stage_in self }
    {
        match self {
            PlanSection::Header => PlanStage::Opened,
            PlanSection::Started(_, stage) => stage,
        }
    }

    /// The section after a line that is not blank.
    pub(crate) fn past_delay(self) -> PlanSection
        ensures { result ≡ past_delay self }
    {
        match self {
            PlanSection::Header => PlanSection::Header,
            PlanSection::Started(version, _) => PlanSection::Started(version, PlanStage::PastDelay),
        }
    }

    /// The fault of a text that ends here: `NoHeader` before the header, else `NoEnd`.
    pub fn missing(self) -> FormatKind
        ensures { result ≡ missing self }
    {
        match self {
            PlanSection::Header => FormatKind::NoHeader,
            PlanSection::Started(_, _) => FormatKind::NoEnd,
        }
    }
}
