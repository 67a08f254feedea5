//! A command that answers lines, and then serves another phase through one wrap.

ghost use Rattle.std.specs.Prelude.{◌≡◌};
ghost use Rattle.command_engine.specs.Phases.{wrapped};
ghost use Rattle.example_commands.specs.TallyCommand.{tally_command_machine};

use crate::tally::{FromCount, Tally};
use command_engine::{Answer, Begin, Command, End, Flow, Stop, Word};
use plan_port::MOST_LINE;
use std::alloc::{AllocError, Global};
use std::thread::Threads;

/// The command: it keeps the lines that come before `go`, and then tallies from their number.
#[derive(Clone, Copy, Debug)]
pub enum TallyCommand {
    /// So many lines were kept.
    Open(u32),
    /// The tally answers.
    Tallying(Tally),
}

impl Command for TallyCommand {
    ghost machine = { tally_command_machine };

    fn longest(&self) -> u32 {
        MOST_LINE
    }

    fn take_line<R: Threads + Sync>(
        self,
        rt: &R,
        alloc: Global,
        answer: &mut Answer,
        number: u32,
        line: &[u8],
    ) -> Result<Flow<TallyCommand>, AllocError> {
        match self {
            TallyCommand::Tallying(tally) => Ok(tallying(tally.take_line(
                rt, alloc, answer, number, line,
            )?)),
            TallyCommand::Open(kept) if line == b"go".as_slice() => {
                Ok(tallying(FromCount.begin(rt, alloc, answer, kept)?))
            }
            TallyCommand::Open(_) => {
                answer.push_line(&[Word::Text("kept"), Word::Number(u64::from(number))])?;
                Ok(Flow::Continue(TallyCommand::Open(number)))
            }
        }
    }

    fn stop(&self, answer: &mut Answer, number: u32, stop: Stop) -> End {
        match self {
            TallyCommand::Tallying(tally) => tally.stop(answer, number, stop),
            TallyCommand::Open(_) => {
                let line = Word::Number(u64::from(number));
                answer.refuse(&[Word::Text("error"), Word::Text("no-go"), line]);
                End::Fault
            }
        }
    }
}

/// The command goes on as the tally does.
fn tallying(flow: Flow<Tally>) -> Flow<TallyCommand>
    ensures { result ≡ wrapped TallyCommand.Tallying flow }
{
    match flow {
        Flow::Continue(tally) => Flow::Continue(TallyCommand::Tallying(tally)),
        Flow::Finish(end) => Flow::Finish(end),
    }
}
