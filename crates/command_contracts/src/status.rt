//! The exit status of the program.

/// How a run ended: the exit status of the program, from 0 to 8.
#[derive(Clone, Copy, Debug, PartialEq, Eq, Hash)]
pub struct Status(pub u8);
