//! The lines of an input that comes over a port.

ghost use Rattle.std.specs.Prelude.{◌≡◌, ◌≢◌, ℕ, ◌+◌, ◌<◌, ◌≤◌, ◌^◌, true, false, List, [], length};
ghost use Rattle.std.specs.Prelude.{take, drop, Some, None, IfOk, IfSome, IfNone, OnErr};
ghost use Rattle.texts.specs.Limits.{most_line};
ghost use Rattle.plan_port.specs.Limits.{most_read};
ghost use Rattle.plan_port.specs.Talk.{TakesOnce, WhereShown, bytes_given};
ghost use Rattle.plan_port.specs.Reader.{Reader, IsReader, Takes, ReadsNext, GivesNext};
ghost use Rattle.plan_port.specs.Reader.{WantsCapacity, initial, spare_capacity, stop_of, answer};
ghost use Rattle.plan_port.specs.Reader.{after_answer, with_pieces_kept};
ghost use Rattle.plan_port.specs.ReaderSteps.{verdict, verdict_on, outcome_of, has_fault};
ghost use Rattle.plan_port.specs.ReaderSteps.{ended_after, with_bytes_kept, gives_line};

use crate::ports::{Port, Took};
use crate::window::Window;
use std::alloc::{AllocError, Global};
use std::marker::Model;

/// The answer of a reader when its next line is read.
#[derive(Clone, Copy, Debug, PartialEq, Eq)]
pub enum Line {
    /// A line was read: it ended at byte 10, or at the end of the input, if it has at least one
    /// byte.
    Text,
    /// The input has ended, and no byte of it is kept.
    End,
    /// The next line has more bytes than this, the most that a line may have.
    TooLong(u32),
    /// The input has more bytes than this, the most that it may have, and the byte beyond belongs
    /// to the next line or is its end.
    TooMuch(u64),
    /// A take failed before the next line was decided.
    ReadFault,
    /// There was no memory for more of the line. It never comes for lines of at most `MOST_LINE`
    /// bytes. What was taken is kept, and the next call continues the same line.
    OutOfMemory,
}

// What the kept bytes say of their first line: nothing yet, that it is whole and has this many
// bytes, that it is too long, or that the input is too much.
#[derive(Clone, Copy, PartialEq, Eq)]
pub(crate) enum LineVerdict {
    Unclear,
    Line(usize),
    BeyondLine,
    BeyondInput,
}

impl LineVerdict {
    fn is_clear(self) -> bool
        ensures clear { result ≡ true → self ≢ LineVerdict.Unclear }
        ensures unclear { result ≡ false → self ≡ LineVerdict.Unclear }
    {
        match self {
            LineVerdict::Unclear => false,
            LineVerdict::Line(_) | LineVerdict::BeyondLine | LineVerdict::BeyondInput => true,
        }
    }
}

// How the takes for one line ended.
#[derive(Clone, Copy, PartialEq, Eq)]
pub(crate) enum LineOutcome {
    Decided(LineVerdict),
    Fault,
}

/// The verdict on a line that has this many bytes so far and whose end has come or not.
fn judge(size: u64, is_closed: bool, longest: u64, spare_capacity: u64) -> LineVerdict
    requires { size < 2 ^ 63 }
    ensures { result ≡ verdict_on size is_closed longest spare_capacity }
{
    if longest < size && longest <= spare_capacity {
        LineVerdict::BeyondLine
    } else if spare_capacity < size || is_closed && spare_capacity <= size {
        LineVerdict::BeyondInput
    } else if is_closed {
        LineVerdict::Line(size as usize)
    } else {
        LineVerdict::Unclear
    }
}

/// A reader of the lines of an input. It has capacity for `MOST_LINE` bytes and one more, reserved
/// when it is made, and takes more memory for a line that may be longer, and is.
#[derive(Drop)]
pub struct LineReader {
    window: Window,
    number: u32,
    before: u64,
    most: u64,
    ended: bool,
    stopped: Option<Line>,
}

impl Model for LineReader {
    ghost use Rattle.std.specs.Prelude.{◌≤◌};
    ghost use Rattle.plan_port.specs.Limits.{most_read};
    ghost use Rattle.plan_port.specs.Reader.{Reader, IsReader};

    ghost Value = { Reader };

    ghost view = { λ r. record {
      text = r.window.text;
      kept = r.window.kept;
      number = r.number;
      before = r.before;
      most = r.most;
      ended = r.ended;
      stopped = r.stopped;
    } };

    ghost invariant = { λ r. (r.most ≤ most_read) × IsReader (record {
      text = r.window.text;
      kept = r.window.kept;
      number = r.number;
      before = r.before;
      most = r.most;
      ended = r.ended;
      stopped = r.stopped;
    }) };
}

impl LineReader {
    /// A reader of an input that may have `most` bytes, at most `MOST_READ`, before its first line.
    /// `AllocError` comes only for want of memory, and then nothing was made.
    pub fn new(alloc: Global, most: u64) -> Result<LineReader, AllocError>
        requires { most ≤ most_read }
        ensures { IfOk result (λ reader. reader ≡ initial most) }
    {
        Ok(LineReader {
            window: Window::new(alloc)?,
            number: 0,
            before: 0,
            most,
            ended: false,
            stopped: None,
        })
    }

    /// The bytes of the last line that was given, until the next call of `next_line`.
    pub fn text(&self) -> &[u8]
        ensures { result.now ≡ self.now.text }
    {
        self.window.text()
    }

    /// The number of the last line that was started, from 1.
    pub fn number(&self) -> u32
        ensures { result ≡ self.now.number }
    {
        self.number
    }

    /// Reads the next line of the input that comes over the port, of at most `longest` bytes, which
    /// does not count the line end. It takes from the port only while no whole line is kept, and
    /// judges the bytes one by one in their order, however they are cut: `TooLong` comes at byte
    /// `longest + 1` of the line, if that is among the first `most + 1` bytes of the input; else
    /// `TooMuch` if byte `most + 1` of the input belongs to the line or is its end. `ReadFault`
    /// comes exactly if a take failed before that, the last one that was made. These three are
    /// answered again by every later call, which takes nothing. `End` comes if the input has ended
    /// and nothing is kept of it. `OutOfMemory` comes only for want of memory, inside a line of
    /// more than `MOST_LINE` bytes, if `longest` is more: what was taken is kept, and the next call
    /// continues that line. If the port shows what is left, the answer is what comes of the first
    /// line of all bytes that were left, kept or still to come, and no byte is lost.
    pub fn next_line<P: Port>(&mut self, port: &mut P, longest: u32) -> Line
        ensures repeated { IfSome self.old.stopped (λ line. (result ≡ line) × (self.new ≡ self.old)
            × (port.new ≡ port.old)) }
        ensures reads { IfNone self.old.stopped
            (ReadsNext longest self.old self.new result (P.seen port.old) (P.seen port.new)) }
        ensures line { IfNone self.old.stopped
            (WhereShown (P.seen port.old).left (P.seen port.new).left
            (λ before after. GivesNext longest self.old self.new result before after)) }
        ensures valid { IsReader self.new }
        ensures memory { result ≡ Line.OutOfMemory → most_line < longest }
    {
        if let Some(line) = self.stopped() {
            return line;
        }
        match self.take_until_decided(port, longest) {
            Ok(outcome) => self.answer(outcome, longest),
            Err(AllocError) => Line::OutOfMemory,
        }
    }

    fn stopped(&self) -> Option<Line>
        ensures value { result ≡ self.now.stopped }
        ensures valid { IsReader self.now }
    {
        self.stopped
    }

    fn has_ended(&self) -> bool
        ensures { result ≡ self.now.ended }
    {
        self.ended
    }

    fn forget_text(&mut self)
        ensures { self.new ≡ with_pieces_kept self.old [] self.old.ended }
    {
        self.window.forget_text();
    }

    /// What the kept bytes decide.
    fn decide(&mut self, longest: u32) -> LineVerdict
        ensures value { result ≡ verdict longest (spare_capacity self.old) self.old.kept }
        ensures same { self.new ≡ self.old }
    {
        let spare_capacity = self.most - self.before;
        match self.window.find_line_end() {
            Some(size) => judge(size as u64, true, u64::from(longest), spare_capacity),
            None => judge(
                self.window.size() as u64,
                false,
                u64::from(longest),
                spare_capacity,
            ),
        }
    }

    /// Takes once from the port, if there is memory for a byte more.
    fn fill<P: Port>(&mut self, port: &mut P) -> Result<Took, AllocError>
        ensures takes { IfOk result (λ took. (into : List ℕ)
            × TakesOnce (P.seen port.old) (P.seen port.new) took into
            × (self.new ≡ with_bytes_kept self.old (bytes_given took into)
            (ended_after took self.old.ended))) }
        ensures kept { OnErr result (self.new ≡ record self.old { text = [] }) }
        ensures wants { OnErr result (most_line < length self.old.kept) }
        ensures untaken { OnErr result (port.new ≡ port.old) }
    {
        self.window.reserve_one()?;
        let took = self.window.fill(port);
        if took == Took::End {
            self.ended = true;
        }
        Ok(took)
    }

    /// Takes from the port until the kept bytes decide the next line, the input ends or a take
    /// fails, or there is no memory for more.
    fn take_until_decided<P: Port>(
        &mut self,
        port: &mut P,
        longest: u32,
    ) -> Result<LineOutcome, AllocError>
        ensures takes { (pieces : List (List ℕ))
            × Takes longest self.old self.new pieces (has_fault result) (P.seen port.old)
            (P.seen port.new) }
        ensures outcome { IfOk result (λ outcome. outcome ≡ outcome_of longest self.new) }
        ensures wants { OnErr result (WantsCapacity longest self.new) }
    {
        self.forget_text();
        loop {
            let verdict = self.decide(longest);
            if verdict.is_clear() || self.has_ended() {
                return Ok(LineOutcome::Decided(verdict));
            }
            match self.fill(port)? {
                Took::Failed => return Ok(LineOutcome::Fault),
                Took::Bytes(_) | Took::End => {}
            }
        }
    }

    /// The answer after the takes.
    fn answer(&mut self, outcome: LineOutcome, longest: u32) -> Line
        requires running { self.old.stopped ≡ None }
        requires outcome { outcome ≡ outcome_of longest self.old }
        ensures answer { result ≡ answer longest self.old }
        ensures after { self.new ≡ after_answer result self.old }
        ensures valid { IsReader self.new }
    {
        match outcome {
            LineOutcome::Decided(verdict) => self.give(verdict, longest),
            LineOutcome::Fault => self.fail(),
        }
    }

    /// The answer by the verdict on what is kept.
    fn give(&mut self, judged: LineVerdict, longest: u32) -> Line
        requires running { self.old.stopped ≡ None }
        requires judged { judged ≡ verdict longest (spare_capacity self.old) self.old.kept }
        requires ended { judged ≡ LineVerdict.Unclear → self.old.ended ≡ true }
        ensures answer { result ≡ answer longest self.old }
        ensures after { self.new ≡ after_answer result self.old }
        ensures valid { IsReader self.new }
    {
        let most = self.most;
        match judged {
            LineVerdict::Line(size) => self.give_line(size),
            LineVerdict::Unclear => self.give_last(),
            LineVerdict::BeyondLine => self.refuse(Line::TooLong(longest)),
            LineVerdict::BeyondInput => self.refuse(Line::TooMuch(most)),
        }
    }

    /// Gives out a line of this many bytes, whose end is kept.
    fn give_line(&mut self, size: usize) -> Line
        requires running { self.old.stopped ≡ None }
        requires whole { size < length self.old.kept }
        requires within { self.old.before + (size + 1) ≤ self.old.most }
        ensures answer { result ≡ Line.Text }
        ensures after { self.new ≡ gives_line self.old (take size self.old.kept)
            (drop (size + 1) self.old.kept) (size + 1) }
        ensures valid { IsReader self.new }
    {
        self.window.give_line(size);
        self.number += 1;
        self.before += size as u64 + 1;
        Line::Text
    }

    /// Gives out what is kept at the end of the input, if that is anything.
    fn give_last(&mut self) -> Line
        requires running { self.old.stopped ≡ None }
        requires within { self.old.before + length self.old.kept ≤ self.old.most }
        ensures end { self.old.kept ≡ [] → (result ≡ Line.End) × (self.new ≡ self.old) }
        ensures text { 0 < length self.old.kept → (result ≡ Line.Text)
            × (self.new ≡ gives_line self.old self.old.kept [] (length self.old.kept)) }
        ensures valid { IsReader self.new }
    {
        let size = self.window.size();
        if size == 0 {
            return Line::End;
        }
        self.window.give_all();
        self.number += 1;
        self.before += size as u64;
        Line::Text
    }

    /// Starts the next line, and stops there with this answer.
    fn refuse(&mut self, line: Line) -> Line
        requires running { self.old.stopped ≡ None }
        requires stops { stop_of line ≡ Some line }
        ensures answer { result ≡ line }
        ensures after { self.new ≡ record self.old {
          number = self.old.number + 1;
          stopped = Some line;
        } }
        ensures valid { IsReader self.new }
    {
        self.number += 1;
        self.stopped = Some(line);
        line
    }

    /// Stops since a take failed.
    fn fail(&mut self) -> Line
        requires running { self.old.stopped ≡ None }
        ensures answer { result ≡ Line.ReadFault }
        ensures after { self.new ≡ record self.old { stopped = Some Line.ReadFault } }
        ensures valid { IsReader self.new }
    {
        self.stopped = Some(Line::ReadFault);
        Line::ReadFault
    }
}
