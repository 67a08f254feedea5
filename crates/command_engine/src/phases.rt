//! Commands that read a text and then answer line by line, by a phase that begins from what the
//! text says.

ghost use Rattle.std.specs.Prelude.{◌≡◌, ℕ, ◌≤◌, List, [], IfOk};
ghost use Rattle.std.specs.Thread.{IsSync};
ghost use Rattle.command_engine.specs.Machine.{HasCapacity};
ghost use Rattle.command_engine.specs.Phases.{text_then_phase_machine, wrapped};
ghost use Rattle.command_engine.specs.declared.machines.Flow.{Flow};

use crate::answers::Answer;
use crate::endings::End;
use crate::line_texts::{Parse, Text};
use crate::machines::{Command, Flow, Stop};
use crate::questions::refuse;
use crate::refusals::Refusal;
use std::alloc::{AllocError, Global};
use std::thread::Threads;

/// How a phase begins from a value of a type.
pub trait Begin<V>: Drop {
    /// The phase that begins.
    type Phase: Command;

    /// To a value this is put, and so the run goes on: by a first state of the phase, or it ends.
    ghost begins: { Self → V → List ℕ → Flow Self.Phase → Type 0 };

    /// Begins the phase: puts its first answer into the buffer, which is empty, and reserves the
    /// capacity there that its state needs. `AllocError` comes only for want of memory.
    fn begin<R: Threads + Sync>(
        self,
        rt: &R,
        alloc: Global,
        answer: &mut Answer,
        value: V,
    ) -> Result<Flow<Self::Phase>, AllocError>
        // An implementation does not learn this from the bound `Sync`.
        requires shared { IsSync R.row }
        requires initial { answer.old.text ≡ [] }
        ensures begins { IfOk result (λ flow. begins self value answer.new.text flow) }
        ensures spare_capacity { IfOk result
            (λ flow. HasCapacity Self.Phase.machine flow answer.new.capacity) };
}

/// A command that reads a text and then serves the phase that begins from what it says.
#[derive(Drop)]
pub enum TextThenPhase<B, T, P> {
    /// The text is read, and so the phase will begin.
    Reading(B, T),
    /// The phase answers.
    Serving(P),
}

impl<T: Text, B: Begin<T::Value>> Command for TextThenPhase<B, T, B::Phase> {
    ghost machine = { text_then_phase_machine B.begins T.reader T.Fault.refusing B.Phase.machine };

    fn longest(&self) -> u32 {
        match self {
            TextThenPhase::Reading(_, text) => text.longest(),
            TextThenPhase::Serving(state) => state.longest(),
        }
    }

    fn take_line<R: Threads + Sync>(
        self,
        rt: &R,
        alloc: Global,
        answer: &mut Answer,
        number: u32,
        line: &[u8],
    ) -> Result<Flow<TextThenPhase<B, T, B::Phase>>, AllocError> {
        match self {
            TextThenPhase::Serving(state) => {
                Ok(serving(state.take_line(rt, alloc, answer, number, line)?))
            }
            TextThenPhase::Reading(start, text) => match text.read_line(alloc, number, line)? {
                Parse::Continue(text) => Ok(Flow::Continue(TextThenPhase::Reading(start, text))),
                Parse::Parsed(value) => Ok(serving(start.begin(rt, alloc, answer, value)?)),
                Parse::Refused(fault) => Ok(refuse(answer, fault)),
            },
        }
    }

    fn stop(&self, answer: &mut Answer, number: u32, stop: Stop) -> End {
        match self {
            TextThenPhase::Serving(state) => state.stop(answer, number, stop),
            TextThenPhase::Reading(_, text) => {
                let fault = text.stop(number, stop);
                fault.put(answer);
                fault.end()
            }
        }
    }
}

/// A command goes on as its phase does.
fn serving<B, T, P>(flow: Flow<P>) -> Flow<TextThenPhase<B, T, P>>
    ensures { result ≡ wrapped TextThenPhase.Serving flow }
{
    match flow {
        Flow::Continue(state) => Flow::Continue(TextThenPhase::Serving(state)),
        Flow::Finish(end) => Flow::Finish(end),
    }
}
