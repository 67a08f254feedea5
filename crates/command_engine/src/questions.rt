//! Commands that read a text and answer once what it says.

ghost use Rattle.std.specs.Prelude.{◌≡◌, ℕ, ◌≤◌, List, [], IfOk};
ghost use Rattle.std.specs.Thread.{IsSync};
ghost use Rattle.command_engine.specs.AnswersOnce.{Refuses, RepliesToStep, answers_once_machine};
ghost use Rattle.command_engine.specs.declared.endings.End.{End};

use crate::answers::Answer;
use crate::endings::End;
use crate::line_texts::{Parse, Text};
use crate::machines::{Command, Flow, Stop};
use crate::refusals::Refusal;
use std::alloc::{AllocError, Global};
use std::thread::Threads;

/// A question that is answered once, to a value of a type.
pub trait Question<V>: Drop {
    /// To a value, which the line of this number gave, this answer is given, and so the run ends.
    ghost answers: { Self → V → ℕ → List ℕ → End → Type 0 };

    /// Puts the answer to a value into the buffer, which is empty. The number is that of the line
    /// that gave the value: an answer that refuses it names that line. `AllocError` comes only for
    /// want of memory.
    fn answer<R: Threads + Sync>(
        self,
        rt: &R,
        alloc: Global,
        answer: &mut Answer,
        value: V,
        number: u32,
    ) -> Result<End, AllocError>
        // An implementation does not learn this from the bound `Sync`.
        requires shared { IsSync R.row }
        requires initial { answer.old.text ≡ [] }
        ensures { IfOk result (λ end. answers self value number answer.new.text end) };
}

/// The command that is made of a question and a text: it reads the text, and puts the answer to
/// what it says, or the line of its first fault.
#[derive(Drop)]
pub struct AnswersOnce<Q, T> {
    pub question: Q,
    pub text: T,
}

impl<Q: Question<T::Value>, T: Text> Command for AnswersOnce<Q, T> {
    ghost machine = { answers_once_machine Q.answers T.reader T.Fault.refusing };

    fn longest(&self) -> u32 {
        self.text.longest()
    }

    fn take_line<R: Threads + Sync>(
        self,
        rt: &R,
        alloc: Global,
        answer: &mut Answer,
        number: u32,
        line: &[u8],
    ) -> Result<Flow<AnswersOnce<Q, T>>, AllocError> {
        let AnswersOnce { question, text } = self;
        match text.read_line(alloc, number, line)? {
            Parse::Continue(text) => Ok(Flow::Continue(AnswersOnce { question, text })),
            Parse::Parsed(value) => {
                let end = question.answer(rt, alloc, answer, value, number)?;
                Ok(Flow::Finish(end))
            }
            Parse::Refused(fault) => Ok(refuse(answer, fault)),
        }
    }

    fn stop(&self, answer: &mut Answer, number: u32, stop: Stop) -> End {
        let fault = self.text.stop(number, stop);
        fault.put(answer);
        fault.end()
    }
}

/// Puts the line of a refusal into the buffer, and ends the run so.
pub fn refuse<C, F: Refusal>(answer: &mut Answer, fault: F) -> Flow<C>
    ensures { Refuses F.refusing fault answer.new.text result }
{
    fault.put(answer);
    Flow::Finish(fault.end())
}
