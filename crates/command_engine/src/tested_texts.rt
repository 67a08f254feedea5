//! A text whose value is tested at the line that gives it.

ghost use Rattle.std.specs.Prelude.{◌≡◌, ℕ, Result, IfOk};
ghost use Rattle.command_engine.specs.Grammars.{ReadsBy};
ghost use Rattle.command_engine.specs.TestedTexts.{tested_grammar, tested_reader};

use crate::line_texts::{InGrammar, Parse, Text};
use crate::machines::Stop;
use std::alloc::{AllocError, Global};

/// A test of the value of a text, by the number of the line that ends the text.
pub trait Test<V, F>: Drop {
    /// What is made of a value that passes.
    type Value: Drop;

    /// What the test makes of a value, or the fault with which the text is refused.
    ghost tests: { Self → V → ℕ → Result Self.Value F };

    /// Tests a value. `AllocError` comes only for want of memory.
    fn test(
        &self,
        alloc: Global,
        value: V,
        number: u32,
    ) -> Result<Result<Self::Value, F>, AllocError>
        ensures { IfOk result (λ answer. answer ≡ tests self.now value number) };
}

/// A text and a test of its value: how far the text was read.
#[derive(Drop)]
pub struct Tested<T, Q> {
    pub text: T,
    pub test: Q,
}

impl<T: Text, Q: Test<T::Value, T::Fault>> Text for Tested<T, Q> {
    type Value = Q::Value;

    type Fault = T::Fault;

    ghost reader = { tested_reader T.reader Q.tests };

    fn longest(&self) -> u32 {
        self.text.longest()
    }

    fn read_line(
        self,
        alloc: Global,
        number: u32,
        line: &[u8],
    ) -> Result<Parse<Tested<T, Q>, Q::Value, T::Fault>, AllocError> {
        let Tested { text, test } = self;
        match text.read_line(alloc, number, line)? {
            Parse::Continue(text) => Ok(Parse::Continue(Tested { text, test })),
            Parse::Parsed(value) => match test.test(alloc, value, number)? {
                Ok(other) => Ok(Parse::Parsed(other)),
                Err(fault) => Ok(Parse::Refused(fault)),
            },
            Parse::Refused(fault) => Ok(Parse::Refused(fault)),
        }
    }

    fn stop(&self, number: u32, stop: Stop) -> T::Fault {
        self.text.stop(number, stop)
    }
}

/// A text with a test of its value is read by the grammar of the text with that test, wherever it
/// stands in an input.
pub fn law_tested_texts_are_read<T: InGrammar, Q: Test<T::Value, T::Fault>>()
    ensures { (test : Q) (past : ℕ)
        → ReadsBy (tested_reader T.reader Q.tests) (record { text = T.initial_text; test = test })
        past (tested_grammar (T.grammar past) Q.tests test past) }
{
    T::reads_by_grammar();
}
