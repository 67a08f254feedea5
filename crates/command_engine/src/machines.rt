//! A command as a machine that takes the lines of its input one by one.

ghost use Rattle.std.specs.Prelude.{◌≡◌, ℕ, ◌<◌, ◌≤◌, List, [], length, IfOk, OnErr};
ghost use Rattle.std.specs.Thread.{IsSync};
ghost use Rattle.texts.specs.Limits.{most_line};
ghost use Rattle.command_engine.specs.Machine.{Machine, HasCapacity};

use crate::answers::Answer;
use crate::endings::End;
use std::alloc::{AllocError, Global};
use std::thread::Threads;

/// Why no more lines come.
#[derive(Clone, Copy, Debug, PartialEq, Eq)]
pub enum Stop {
    /// The next line is longer than it may be.
    LineTooLong,
    /// The input has more bytes than it may have.
    InputTooMuch,
    /// The input ended.
    InputEnded,
}

/// How a run goes on after the answer to a line.
#[derive(Drop)]
pub enum Flow<C> {
    /// More lines are read, by this state of the command.
    Continue(C),
    /// The run ends.
    Finish(End),
}

/// A command of the program, as a machine that takes the lines of its input one by one. A value of
/// the type is a state of it.
pub trait Command: Drop {
    /// What the command means.
    ghost machine: { Machine Self };

    /// How many bytes the next line may have, its end not among them. Only a state that may want
    /// memory passes what a reader of lines holds without it.
    fn longest(&self) -> u32
        ensures value { result ≡ machine.longest self.now }
        ensures wants { most_line < result → machine.may_want self.now };

    /// Answers a line, by its number, from 1, and its bytes, which are no more than `longest` says:
    /// the answer is put into the buffer, which is empty and has the capacity that this state
    /// needs. `AllocError` comes only for want of memory, and only from a state that may want it.
    /// The runtime is there for commands that start threads. The buffer has the capacity then that
    /// the next state needs.
    fn take_line<R: Threads + Sync>(
        self,
        rt: &R,
        alloc: Global,
        answer: &mut Answer,
        number: u32,
        line: &[u8],
    ) -> Result<Flow<Self>, AllocError>
        // An implementation does not learn this from the bound `Sync`.
        requires shared { IsSync R.row }
        requires initial { answer.old.text ≡ [] }
        requires spare_capacity { machine.spare_capacity self ≤ answer.old.capacity }
        requires line { length line.now ≤ machine.longest self }
        ensures takes { IfOk result (λ flow. machine.takes self number line.now answer.new.text
            flow) }
        ensures spare_capacity { IfOk result
            (λ flow. HasCapacity machine flow answer.new.capacity) }
        ensures wants { OnErr result (machine.may_want self) };

    /// Puts the answer if no line comes, by the number of the line that was begun, into the buffer,
    /// which is empty. It takes no memory.
    fn stop(&self, answer: &mut Answer, number: u32, stop: Stop) -> End
        requires { answer.old.text ≡ [] }
        ensures { machine.stops self.now number stop answer.new.text result };
}
