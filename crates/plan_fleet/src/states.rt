//! The states of a plan of a fleet, and the answers to its calls.

use execution_model::{Fed, Finished};

/// How a plan of a fleet stands. Only `Running` can change.
#[derive(Clone, Copy, Debug, PartialEq, Eq)]
pub enum State {
    /// It is controllable, and its execution continues.
    Running,
    /// No strategy controls it, so it was never started.
    NotControllable,
    /// Its execution is complete.
    Complete,
    /// A feed was refused, the answer to the end was `Unfinished`, or it was ended.
    Ended,
}

/// The answer to a feed of a plan.
#[derive(Clone, Copy, Debug, PartialEq, Eq)]
pub enum FleetFed {
    /// The plan was running, and its execution answers so.
    Fed(Fed),
    /// The plan is not running, and nothing changed.
    Idle,
}

/// The answer to the end of a plan.
#[derive(Clone, Copy, Debug, PartialEq, Eq)]
pub enum FleetFinished {
    /// The plan was running, and its execution answers so.
    Finished(Finished),
    /// The plan is not running, and nothing changed.
    Idle,
}
