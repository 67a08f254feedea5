//! A text of one of two kinds.

ghost use Rattle.std.specs.Prelude.{◌≡◌};
ghost use Rattle.command_engine.specs.Alternatives.{either_reader};

use crate::line_texts::{Parse, Text};
use crate::machines::Stop;
use std::alloc::{AllocError, Global};

/// A text of one of two kinds, which say values of one type and have faults of one type: how far it
/// was read. `AlternativeLemmas` shows that it is read by the grammar of its kind.
#[derive(Drop)]
pub enum Either<A, B> {
    /// It is of the first kind.
    Left(A),
    /// It is of the second kind.
    Right(B),
}

impl<A: Text, B: Text<Value = A::Value, Fault = A::Fault>> Text for Either<A, B> {
    type Value = A::Value;

    type Fault = A::Fault;

    ghost reader = { either_reader A.reader B.reader };

    fn longest(&self) -> u32 {
        match self {
            Either::Left(text) => text.longest(),
            Either::Right(text) => text.longest(),
        }
    }

    fn read_line(
        self,
        alloc: Global,
        number: u32,
        line: &[u8],
    ) -> Result<Parse<Either<A, B>, A::Value, A::Fault>, AllocError> {
        match self {
            Either::Left(text) => Ok(match text.read_line(alloc, number, line)? {
                Parse::Continue(text) => Parse::Continue(Either::Left(text)),
                Parse::Parsed(value) => Parse::Parsed(value),
                Parse::Refused(fault) => Parse::Refused(fault),
            }),
            Either::Right(text) => Ok(match text.read_line(alloc, number, line)? {
                Parse::Continue(text) => Parse::Continue(Either::Right(text)),
                Parse::Parsed(value) => Parse::Parsed(value),
                Parse::Refused(fault) => Parse::Refused(fault),
            }),
        }
    }

    fn stop(&self, number: u32, stop: Stop) -> A::Fault {
        match self {
            Either::Left(text) => text.stop(number, stop),
            Either::Right(text) => text.stop(number, stop),
        }
    }
}
