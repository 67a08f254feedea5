//! The version of a plan text, and how far it is.

ghost use Rattle.std.specs.Prelude.{◌≡◌};

/// The version of a plan text.
#[derive(Clone, Copy, Debug, PartialEq, Eq)]
pub enum PlanVersion {
    /// Version 1: points, bounds and links.
    One,
    /// Version 2: also a delay, and two bounds in one line.
    Two,
}

impl PlanVersion {
    ghost use Rattle.std.specs.Prelude.{◌≡◌};
    ghost use Rattle.plan_format.specs.PlanParts.{version_numbered};

    /// The version of a number: the second of 2, else the first.
    pub fn numbered(number: u32) -> PlanVersion
        ensures { result ≡ version_numbered number }
    {
        if number == 2 {
            return PlanVersion::Two;
        }
        PlanVersion::One
    }
}

/// How far a plan text is after its header.
#[derive(Clone, Copy, Debug, PartialEq, Eq)]
pub enum PlanStage {
    /// Only blank lines have followed its header, so that its delay may come.
    Opened,
    /// Its delay or a part was read.
    PastDelay,
}
