//! The trait of the devices that a program reads from and writes to.

ghost use Rattle.std.specs.Prelude.{ℕ, ◌<◌, length};
ghost use Rattle.plan_port.specs.Talk.{Seen, TakesOnce, PutsOnce};

/// What a take gave: a number of bytes, the end of the input, or nothing since it failed.
#[derive(Clone, Copy, Debug, PartialEq, Eq)]
pub enum Took {
    Bytes(usize),
    End,
    Failed,
}

/// What a put did: it wrote a number of bytes, or nothing since it failed.
#[derive(Clone, Copy, Debug, PartialEq, Eq)]
pub enum Sent {
    Wrote(usize),
    Failed,
}

/// A device that gives the bytes of an input and takes those of an output. It may show what was
/// said over it.
pub trait Port {
    /// What contracts see of it: what was said over it and what is left, each if the port shows it,
    /// and how often a take and how often a put has failed. A count stays at 2^64 - 1 when it is
    /// there.
    ghost seen: { Self → Seen };

    /// Gives some of the bytes that are left into the start of `into`, which isn't empty: at least
    /// one and at most the length of `into`. `End` comes only if nothing is left, `Failed` only if
    /// the device failed; then no byte was taken, and the count of failed takes is one more. The
    /// other count stays. What is left lost just the bytes given. A talk that is shown afterwards
    /// was shown before, and gained this piece, or the place of the failure, or at `End` nothing.
    fn take(&mut self, into: &mut [u8]) -> Took
        requires { 0 < length into.old }
        ensures once { TakesOnce (seen self.old) (seen self.new) result into.new };

    /// Puts some of a piece that isn't empty: at least one byte from its start. `Failed` comes only
    /// if the device failed or took nothing; then no byte was put, and the count of failed puts is
    /// one more. What is left and the other count stay. A talk that is shown afterwards was shown
    /// before, and gained these bytes, or the place of the failure.
    fn put(&mut self, piece: &[u8]) -> Sent
        requires { 0 < length piece.now }
        ensures once { PutsOnce (seen self.old) (seen self.new) result piece.now };
}
