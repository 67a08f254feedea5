//! How a run ends.

ghost use Rattle.std.specs.Prelude.{◌≡◌};
ghost use Rattle.command_engine.specs.Endings.{end_number, status_number};

/// How a command ends its run.
#[derive(Clone, Copy, Debug, PartialEq, Eq)]
pub enum End {
    /// Controllable, accepted, complete or done.
    Done,
    /// Not controllable, or a certificate refused.
    Refused,
    /// A fault of a text or of a plan.
    Fault,
    /// A stated limit was passed.
    Limit,
    /// An event was refused.
    EventRefused,
}

impl End {
    /// The exit status: 0, 1, 3, 4 or 7, in the order of the variants.
    pub fn number(self) -> u8
        ensures { result ≡ end_number self }
    {
        match self {
            End::Done => 0,
            End::Refused => 1,
            End::Fault => 3,
            End::Limit => 4,
            End::EventRefused => 7,
        }
    }
}

/// How a run ended.
#[derive(Clone, Copy, Debug, PartialEq, Eq)]
pub enum Status {
    /// The command ended it.
    Ended(End),
    /// A take failed.
    ReadFault,
    /// A put failed.
    WriteFault,
    /// There was no memory.
    NoMemory,
}

impl Status {
    /// The exit status of the program: that of the command's end, or 5, 6 or 8. No run has the
    /// status 2.
    pub fn number(self) -> u8
        ensures { result ≡ status_number self }
    {
        match self {
            Status::Ended(end) => end.number(),
            Status::ReadFault => 5,
            Status::WriteFault => 6,
            Status::NoMemory => 8,
        }
    }
}
