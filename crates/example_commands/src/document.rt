//! A text of which all lines together have a limit, and whose faults have no line: any lines, then
//! `end`. And a question about it.

ghost use Rattle.std.specs.Prelude.{◌≡◌, ◌-◌, length};
ghost use Rattle.example_commands.specs.Document.{AnswersHowLarge, document_grammar};
ghost use Rattle.example_commands.specs.Document.{example_document_reader, empty_document};
ghost use Rattle.example_commands.specs.Document.{refusing};

use command_engine::{Answer, End, InGrammar, Parse, Question, Refusal, Stop, Text, Word};
use std::alloc::{AllocError, Global};
use std::thread::Threads;

/// How many bytes the lines of a document may have together.
const MOST_DOCUMENT: u32 = 100_000;

/// How many bytes the next lines may still have.
#[derive(Clone, Copy, Debug, PartialEq, Eq)]
pub struct Document {
    left: u32,
}

/// Why a document is refused.
#[derive(Clone, Copy, Debug, PartialEq, Eq)]
pub enum DocumentFault {
    /// Its lines have too many bytes together, or the input has.
    TooLarge,
    /// The line `end` does not come.
    NoEnd,
}

impl Document {
    /// Before the first line.
    pub fn new() -> Document
        ensures { result ≡ empty_document }
    {
        Document {
            left: MOST_DOCUMENT,
        }
    }

    fn after(self, line: &[u8]) -> Document
        ensures { result ≡ record { left = self.left - length line.now } }
    {
        if line.len() >= self.left as usize {
            return Document { left: 0 };
        }
        Document {
            left: self.left - line.len() as u32,
        }
    }
}

impl Text for Document {
    type Value = u32;

    type Fault = DocumentFault;

    ghost reader = { example_document_reader };

    fn longest(&self) -> u32 {
        self.left
    }

    fn read_line(
        self,
        _alloc: Global,
        _number: u32,
        line: &[u8],
    ) -> Result<Parse<Document, u32, DocumentFault>, AllocError> {
        if line == b"end".as_slice() {
            return Ok(Parse::Parsed(self.left));
        }
        Ok(Parse::Continue(self.after(line)))
    }

    fn stop(&self, _number: u32, stop: Stop) -> DocumentFault {
        match stop {
            Stop::LineTooLong | Stop::InputTooMuch => DocumentFault::TooLarge,
            Stop::InputEnded => DocumentFault::NoEnd,
        }
    }
}

impl InGrammar for Document {
    ghost initial_text = { empty_document };

    ghost grammar = { document_grammar };

    fn reads_by_grammar() {}
}

impl Refusal for DocumentFault {
    ghost refusing = { refusing };

    fn put(&self, answer: &mut Answer) {
        let word = match self {
            DocumentFault::TooLarge => "too-large",
            DocumentFault::NoEnd => "no-end",
        };
        answer.refuse(&[Word::Text("error"), Word::Text(word)]);
    }

    fn end(&self) -> End {
        match self {
            DocumentFault::TooLarge => End::Limit,
            DocumentFault::NoEnd => End::Fault,
        }
    }
}

/// How many bytes a document leaves.
#[derive(Clone, Copy, Debug)]
pub struct HowLarge;

impl Question<u32> for HowLarge {
    ghost answers = { λ question left number. AnswersHowLarge question left };

    fn answer<R: Threads + Sync>(
        self,
        _rt: &R,
        _alloc: Global,
        answer: &mut Answer,
        left: u32,
        _number: u32,
    ) -> Result<End, AllocError> {
        answer.push_line(&[Word::Text("left"), Word::Number(u64::from(left))])?;
        Ok(End::Done)
    }
}
