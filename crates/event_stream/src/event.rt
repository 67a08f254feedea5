//! The events that the lines of a stream state.

/// What a line of events states.
#[derive(Clone, Copy, Debug)]
pub enum Event {
    /// A line without words, or whose first word begins with `#`.
    Blank,
    /// At this moment, in whole moments from 0, points were completed.
    At(u64),
    /// No more will be completed.
    Done,
}
