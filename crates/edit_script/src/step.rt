//! The steps that the lines of a session state.

use net_model::Edit;

/// What a line of a session states.
#[derive(Clone, Copy, Debug)]
pub enum Step {
    /// A line without words, or whose first word begins with `#`.
    Blank,
    /// An edit of the plan.
    Edit(Edit),
    /// Whether the plan is controllable.
    Verdict,
    /// The certificate of the verdict.
    Proof,
    /// The lower bounds and waits by which the plan is executed.
    Table,
    /// The plan as it is now.
    Plan,
    /// What the last accepted edit kept and withdrew.
    Report,
    /// The execution begins.
    Go,
    /// The session ends.
    End,
}
