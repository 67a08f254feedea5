//! A text, and after it another.

ghost use Rattle.command_engine.specs.Pairs.{then_reader, then_grammar};
ghost use Rattle.command_engine.specs.declared.pairs.Then.TheVariants.{First};

use crate::line_texts::{InGrammar, Parse, Text};
use crate::machines::Stop;
use std::alloc::{AllocError, Global};

/// A text, and after it another: how far both were read. The first state is made of the first
/// states of both. If both are read by grammars, it is read by that of both (`then_grammar`).
#[derive(Drop)]
pub enum Then<A, V, B> {
    /// The first is read, and so the second will begin.
    First(A, B),
    /// The first said this, and the second is read.
    Second(V, B),
}

impl<A: Text, B: Text<Fault = A::Fault>> Text for Then<A, A::Value, B> {
    type Value = (A::Value, B::Value);

    type Fault = A::Fault;

    ghost reader = { then_reader A.reader B.reader };

    fn longest(&self) -> u32 {
        match self {
            Then::First(text, _) => text.longest(),
            Then::Second(_, text) => text.longest(),
        }
    }

    fn read_line(
        self,
        alloc: Global,
        number: u32,
        line: &[u8],
    ) -> Result<Parse<Then<A, A::Value, B>, (A::Value, B::Value), A::Fault>, AllocError> {
        match self {
            Then::First(text, second) => Ok(match text.read_line(alloc, number, line)? {
                Parse::Continue(text) => Parse::Continue(Then::First(text, second)),
                Parse::Parsed(value) => Parse::Continue(Then::Second(value, second)),
                Parse::Refused(fault) => Parse::Refused(fault),
            }),
            Then::Second(value, text) => Ok(match text.read_line(alloc, number, line)? {
                Parse::Continue(text) => Parse::Continue(Then::Second(value, text)),
                Parse::Parsed(other) => Parse::Parsed((value, other)),
                Parse::Refused(fault) => Parse::Refused(fault),
            }),
        }
    }

    fn stop(&self, number: u32, stop: Stop) -> A::Fault {
        match self {
            Then::First(text, _) => text.stop(number, stop),
            Then::Second(_, text) => text.stop(number, stop),
        }
    }
}

impl<A: InGrammar, B: InGrammar + Text<Fault = A::Fault>> InGrammar for Then<A, A::Value, B> {
    ghost initial_text = { First A.initial_text B.initial_text };

    ghost grammar = { λ past. then_grammar (A.grammar past) B.grammar past };

    fn reads_by_grammar() {
        A::reads_by_grammar();
        B::reads_by_grammar();
    }
}
