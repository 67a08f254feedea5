//! A phase that answers each line by its number, and wants no memory.

ghost use Rattle.std.specs.Prelude.{◌≡◌, ℕ, codes};
ghost use Rattle.std.specs.Str.{bytes_eq};
ghost use Rattle.example_commands.specs.Tally.{tally_machine, Begins};

use command_engine::{Answer, Begin, Command, End, Flow, Stop, Word};
use plan_port::MOST_LINE;
use std::alloc::{AllocError, Global};
use std::thread::Threads;

/// How many bytes a line of the phase has at most.
const MOST_TALLY: usize = 64;

/// The phase: the number of lines from which it began.
#[derive(Clone, Copy, Debug)]
pub struct Tally {
    from: u32,
}

impl Command for Tally {
    ghost machine = { tally_machine };

    fn longest(&self) -> u32 {
        MOST_LINE
    }

    fn take_line<R: Threads + Sync>(
        self,
        _rt: &R,
        _alloc: Global,
        answer: &mut Answer,
        number: u32,
        line: &[u8],
    ) -> Result<Flow<Tally>, AllocError> {
        if line == b"stop".as_slice() {
            return Ok(Flow::Finish(End::Done));
        }
        let from = Word::Number(u64::from(self.from));
        answer.put_line(&[Word::Text("at"), from, Word::Number(u64::from(number))]);
        Ok(Flow::Continue(self))
    }

    fn stop(&self, answer: &mut Answer, number: u32, _stop: Stop) -> End {
        let line = Word::Number(u64::from(number));
        answer.refuse(&[Word::Text("error"), Word::Text("no-stop"), line]);
        End::Fault
    }
}

/// The phase begins from the number of lines of a text.
#[derive(Clone, Copy, Debug)]
pub struct FromCount;

impl Begin<u32> for FromCount {
    type Phase = Tally;

    ghost begins = { Begins };

    fn begin<R: Threads + Sync>(
        self,
        _rt: &R,
        _alloc: Global,
        answer: &mut Answer,
        lines: u32,
    ) -> Result<Flow<Tally>, AllocError> {
        answer.push_line(&[Word::Text("from"), Word::Number(u64::from(lines))])?;
        answer.reserve(MOST_TALLY)?;
        Ok(Flow::Continue(Tally { from: lines }))
    }
}
