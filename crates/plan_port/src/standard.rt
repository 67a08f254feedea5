//! The port over standard input and output.

ghost use Rattle.std.specs.Prelude.{◌≡◌};
ghost use Rattle.plan_port.specs.Talk.{counts_only};

use crate::ports::{Port, Sent, Took};
use std::io::{Input, Print, Read};

/// A port over the standard input and output of a runtime. It shows neither what was said over it
/// nor what is left, and counts its faults. It reads and writes directly, without a buffer. No
/// contract speaks of the two streams themselves.
pub struct StdPort<'a, R: Input + Print> {
    input: R::Reader,
    output: &'a R,
    read_faults: u64,
    write_faults: u64,
}

impl<'a, R: Input + Print> StdPort<'a, R> {
    /// A port that has had no fault.
    pub fn new(runtime: &'a R) -> StdPort<'a, R>
        ensures { ⟦<StdPort<'a, R> as Port>⟧.seen result ≡ counts_only 0 0 }
    {
        StdPort {
            input: runtime.reader(),
            output: runtime,
            read_faults: 0,
            write_faults: 0,
        }
    }
}

impl<R: Input + Print> Drop for StdPort<'_, R> {
    fn drop(self) {
        let StdPort {
            input: _,
            output: _,
            read_faults: _,
            write_faults: _,
        } = self;
    }
}

impl<R: Input + Print> Port for StdPort<'_, R> {
    ghost use Rattle.plan_port.specs.Talk.{counts_only};

    ghost seen = { λ port. counts_only port.read_faults port.write_faults };

    fn take(&mut self, into: &mut [u8]) -> Took {
        match self.input.read(into) {
            Ok(0) => Took::End,
            Ok(count) => Took::Bytes(count),
            Err(_) => {
                self.read_faults = self.read_faults.saturating_add(1);
                Took::Failed
            }
        }
    }

    fn put(&mut self, piece: &[u8]) -> Sent {
        match self.output.write_some(piece) {
            Ok(0) | Err(_) => {
                self.write_faults = self.write_faults.saturating_add(1);
                Sent::Failed
            }
            Ok(count) => Sent::Wrote(count),
        }
    }
}
