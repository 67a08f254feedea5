//! The run of a command over a port: the one loop, for all commands.

ghost use Rattle.std.specs.Prelude.{◌≡◌, ◌⊎◌, ◌<◌, ◌≤◌, [], None, length, IfOk, OnErr};
ghost use Rattle.plan_port.specs.WrittenBytes.{Writes};
ghost use Rattle.plan_port.specs.Reader.{IsReader};
ghost use Rattle.command_engine.specs.Limits.{most_input, least_capacity};
ghost use Rattle.command_engine.specs.Breaks.{read_fault_line};
ghost use Rattle.command_engine.specs.Serves.{Serves};
ghost use Rattle.command_engine.specs.Turns.{StopsTurn, ReplyTo, TurnHasCapacity, turn_of};
ghost use Rattle.command_engine.specs.Turns.{after_written, OneTurn};
ghost use Rattle.plan_port.specs.declared.written_bytes.Written.{Written};

use crate::answers::Answer;
use crate::endings::Status;
use crate::limits::MOST_INPUT;
use crate::machines::{Command, Flow, Stop};
use crate::words::Word;
use plan_port::{Line, LineReader, Port, Written, write_all};
use std::alloc::{AllocError, Global};
use std::thread::Threads;

// How a run goes on after a turn.
#[derive(Drop)]
pub(crate) enum Turn<C> {
    Continue(C),
    Finish(Status),
}

/// Runs a command over the input of a port: each line is answered, by one writing, before more is
/// taken. The run ends when the command ends it, at the first failed call, or for want of memory,
/// which comes only at the beginning of the run or in a state that may want memory.
///
/// The first state may need no more capacity than an empty buffer has. Over any port it is said
/// which calls failed, each counted once, and that nothing but the line `error read`, or a part of
/// it, came after one that failed; over a port that shows its bytes, what was put by then, and that
/// each piece was taken when exactly the answers to the whole lines before it had been put. That an
/// answer is put by one call no clause says: a port shows bytes, not pieces that were put. Nor is
/// it said that status 8 comes at the moment of the refusal: memory that is refused among lines
/// without an answer may be reported late.
pub fn serve<R: Threads + Sync, C: Command, P: Port>(
    rt: &R,
    alloc: Global,
    command: C,
    port: &mut P,
) -> Status
    requires { C.machine.spare_capacity command ≤ least_capacity }
    ensures { Serves C.machine command result (P.seen port.old) (P.seen port.new) }
{
    let Ok(mut reader) = LineReader::new(alloc, MOST_INPUT) else {
        return Status::NoMemory;
    };
    let Ok(mut answer) = Answer::new(alloc) else {
        return Status::NoMemory;
    };
    let mut command = command;
    'lines: loop {
        match take_turn(rt, alloc, command, &mut reader, &mut answer, port) {
            Turn::Continue(next) => command = next,
            Turn::Finish(status) => return status,
        }
    }
}

/// One turn of a run: the next line is read, and its answer put, before more is read.
fn take_turn<R: Threads + Sync, C: Command, P: Port>(
    rt: &R,
    alloc: Global,
    command: C,
    reader: &mut LineReader,
    answer: &mut Answer,
    port: &mut P,
) -> Turn<C>
    requires running { reader.old.stopped ≡ None }
    requires most { reader.old.most ≡ most_input }
    requires spare_capacity { C.machine.spare_capacity command ≤ answer.old.capacity }
    ensures turn { OneTurn C.machine command reader.old reader.new result (P.seen port.old)
        (P.seen port.new) }
    ensures spare_capacity { TurnHasCapacity C.machine result answer.new.capacity }
    ensures reader { IsReader reader.new }
{
    let line = reader.next_line(port, command.longest());
    answer.clear();
    match reply_to(rt, alloc, command, line, reader, answer) {
        Ok(turn) => put(port, answer, turn),
        Err(AllocError) => Turn::Finish(Status::NoMemory),
    }
}

/// The reply of a command to what the reader answered, in the buffer, which is empty.
fn reply_to<R: Threads + Sync, C: Command>(
    rt: &R,
    alloc: Global,
    command: C,
    line: Line,
    reader: &LineReader,
    answer: &mut Answer,
) -> Result<Turn<C>, AllocError>
    requires initial { answer.old.text ≡ [] }
    requires spare_capacity { C.machine.spare_capacity command ≤ answer.old.capacity }
    requires memory { line ≡ Line.OutOfMemory → C.machine.may_want command }
    requires text { line ≡ Line.Text → length reader.now.text ≤ C.machine.longest command }
    requires number { reader.now.number < 4294967295 }
    ensures replies { IfOk result (λ turn. ReplyTo C.machine command line reader.now
        answer.new.text turn) }
    ensures spare_capacity { IfOk result
        (λ turn. TurnHasCapacity C.machine turn answer.new.capacity) }
    ensures wants { OnErr result (((line ≡ Line.Text) ⊎ (line ≡ Line.OutOfMemory))
        × C.machine.may_want command) }
{
    let number = reader.number();
    match line {
        Line::Text => Ok(turn_of(command.take_line(rt, alloc, answer, number, reader.text())?)),
        Line::End => Ok(stop(command, answer, number + 1, Stop::InputEnded)),
        Line::TooLong(_) => Ok(stop(command, answer, number, Stop::LineTooLong)),
        Line::TooMuch(_) => Ok(stop(command, answer, number, Stop::InputTooMuch)),
        Line::ReadFault => Ok(put_read_fault(answer)),
        Line::OutOfMemory => Err(AllocError),
    }
}

fn turn_of<C>(flow: Flow<C>) -> Turn<C>
    ensures { result ≡ turn_of flow }
{
    match flow {
        Flow::Continue(state) => Turn::Continue(state),
        Flow::Finish(end) => Turn::Finish(Status::Ended(end)),
    }
}

/// The reply if no line comes.
fn stop<C: Command>(command: C, answer: &mut Answer, number: u32, stop: Stop) -> Turn<C>
    requires { answer.old.text ≡ [] }
    ensures stops { StopsTurn C.machine command number stop answer.new.text result }
    ensures spare_capacity { TurnHasCapacity C.machine result answer.new.capacity }
{
    Turn::Finish(Status::Ended(command.stop(answer, number, stop)))
}

/// The reply if a take failed.
fn put_read_fault<C>(answer: &mut Answer) -> Turn<C>
    ensures answer { answer.new.text ≡ read_fault_line }
    ensures turn { result ≡ Turn.Finish Status.ReadFault }
{
    answer.refuse(&[Word::Text("error"), Word::Text("read")]);
    Turn::Finish(Status::ReadFault)
}

/// Puts an answer, and gives back how the run goes on.
fn put<C: Drop, P: Port>(port: &mut P, answer: &Answer, turn: Turn<C>) -> Turn<C>
    ensures { (written : Written) × Writes (P.seen port.old)
        (P.seen port.new) written answer.now.text × (result ≡ after_written written turn) }
{
    match write_all(port, answer.bytes()) {
        Written::All => turn,
        Written::Part(_) => Turn::Finish(Status::WriteFault),
    }
}
