//! Writing all of some bytes over a port.

ghost use Rattle.plan_port.specs.WrittenBytes.{Writes};

use crate::ports::{Port, Sent};

/// What a writing did: it put all bytes, or the first ones, this many, until a put failed.
#[derive(Clone, Copy, Debug, PartialEq, Eq)]
pub enum Written {
    All,
    Part(usize),
}

/// Puts all the bytes, of which there may be none. `Part(n)` comes exactly if a put failed in this
/// call, the last that it made, and then exactly the first `n` bytes were put, which are not all.
/// That put raised the count of failed puts; no other count changes.
pub fn write_all<P: Port>(port: &mut P, bytes: &[u8]) -> Written
    ensures { Writes (P.seen port.old) (P.seen port.new) result bytes.now }
{
    let mut sent = 0;
    while sent < bytes.len() {
        match port.put(&bytes[sent..]) {
            Sent::Wrote(count) => sent += count,
            Sent::Failed => return Written::Part(sent),
        }
    }
    Written::All
}
