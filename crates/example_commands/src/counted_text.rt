//! A text of lines that are counted: `count`, then any lines, then `end`. And questions about it.

ghost use Rattle.std.specs.Prelude.{ℕ};
ghost use Rattle.example_commands.specs.CountedText.{at_most, counting, refusing, AnswersHowMany};
ghost use Rattle.example_commands.specs.CountedText.{AnswersHowManyEach};

use command_engine::{Answer, End, Parse, Question, Refusal, Stop, Test, Text, Word};
use plan_port::MOST_LINE;
use std::alloc::{AllocError, Global};
use std::thread::Threads;

/// How far the text was read.
#[derive(Clone, Copy, Debug, PartialEq, Eq)]
pub enum Counting {
    /// The line `count` has not come.
    BeforeTitle,
    /// The line `end` has not come.
    Lines,
}

/// Why a line is refused, with its number.
#[derive(Clone, Copy, Debug, PartialEq, Eq)]
pub enum CountFault {
    /// The first line is not `count`.
    NoTitle(u32),
    /// The line `end` does not come.
    NoEnd(u32),
    /// The line is too long, the input is too much, or the text has more lines than it may have.
    Beyond(u32),
}

impl Text for Counting {
    type Value = u32;

    type Fault = CountFault;

    ghost reader = { counting };

    fn longest(&self) -> u32 {
        MOST_LINE
    }

    fn read_line(
        self,
        _alloc: Global,
        number: u32,
        line: &[u8],
    ) -> Result<Parse<Counting, u32, CountFault>, AllocError> {
        Ok(match self {
            Counting::BeforeTitle if line == b"count".as_slice() => Parse::Continue(
                Counting::Lines,
            ),
            Counting::BeforeTitle => Parse::Refused(CountFault::NoTitle(number)),
            Counting::Lines if line == b"end".as_slice() => Parse::Parsed(number),
            Counting::Lines => Parse::Continue(Counting::Lines),
        })
    }

    fn stop(&self, number: u32, stop: Stop) -> CountFault {
        match (stop, self) {
            (Stop::LineTooLong | Stop::InputTooMuch, _) => CountFault::Beyond(number),
            (Stop::InputEnded, Counting::BeforeTitle) => CountFault::NoTitle(number),
            (Stop::InputEnded, Counting::Lines) => CountFault::NoEnd(number),
        }
    }
}

impl Refusal for CountFault {
    ghost refusing = { refusing };

    fn put(&self, answer: &mut Answer) {
        let (word, line) = match *self {
            CountFault::NoTitle(line) => ("no-title", line),
            CountFault::NoEnd(line) => ("no-end", line),
            CountFault::Beyond(line) => ("limit", line),
        };
        let number = Word::Number(u64::from(line));
        answer.refuse(&[Word::Text("error"), Word::Text(word), number]);
    }

    fn end(&self) -> End {
        match self {
            CountFault::NoTitle(_) | CountFault::NoEnd(_) => End::Fault,
            CountFault::Beyond(_) => End::Limit,
        }
    }
}

/// The test that a text has at most so many lines: one that has more is refused as a whole.
#[derive(Clone, Copy, Debug)]
pub struct AtMost {
    pub lines: u32,
}

impl Test<u32, CountFault> for AtMost {
    type Value = u32;

    ghost tests = { at_most };

    fn test(
        &self,
        _alloc: Global,
        value: u32,
        number: u32,
    ) -> Result<Result<u32, CountFault>, AllocError> {
        if value <= self.lines {
            Ok(Ok(value))
        } else {
            Ok(Err(CountFault::Beyond(number)))
        }
    }
}

/// How many lines a text has.
#[derive(Clone, Copy, Debug)]
pub struct HowMany;

impl Question<u32> for HowMany {
    ghost answers = { λ question lines number. AnswersHowMany question lines };

    fn answer<R: Threads + Sync>(
        self,
        _rt: &R,
        _alloc: Global,
        answer: &mut Answer,
        lines: u32,
        _number: u32,
    ) -> Result<End, AllocError> {
        answer.push_line(&[Word::Text("lines"), Word::Number(u64::from(lines))])?;
        Ok(End::Done)
    }
}

/// How many lines each of two texts has.
#[derive(Clone, Copy, Debug)]
pub struct HowManyEach;

impl Question<(u32, u32)> for HowManyEach {
    ghost answers = { λ question lines number. AnswersHowManyEach question lines };

    fn answer<R: Threads + Sync>(
        self,
        _rt: &R,
        _alloc: Global,
        answer: &mut Answer,
        lines: (u32, u32),
        _number: u32,
    ) -> Result<End, AllocError> {
        let (first, second) = lines;
        let last = Word::Number(u64::from(second));
        answer.push_line(&[Word::Text("lines"), Word::Number(u64::from(first)), last])?;
        Ok(End::Done)
    }
}
