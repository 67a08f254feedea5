//! The bytes that a reader keeps: the last line given, and those taken and not given out.

ghost use Rattle.std.specs.Prelude.{◌≡◌, ℕ, ◌+◌, ◌<◌, ◌^◌, List, [], ◌++◌, length, take, drop};
ghost use Rattle.std.specs.Prelude.{IfOk, IfSome, OnErr, OnOk};
ghost use Rattle.std.specs.List.{position};
ghost use Rattle.texts.specs.Limits.{most_line};
ghost use Rattle.plan_port.specs.Talk.{TakesOnce, bytes_given};
ghost use Rattle.plan_port.specs.ReaderSteps.{ends_line};

use crate::ports::{Port, Took};
use std::alloc::{AllocError, Global};
use std::marker::Model;
use texts::MOST_LINE;

/// A line of the greatest length that needs no memory, and one byte that shows that it is longer.
const CAPACITY: usize = MOST_LINE as usize + 1;

#[derive(Drop)]
pub(crate) struct Window {
    bytes: Vec<u8>,
    text_start: usize,
    text_end: usize,
    start: usize,
    end: usize,
    /// There is no line end in the kept bytes before this one.
    searched: usize,
}

impl Model for Window {
    ghost use Rattle.std.specs.Prelude.{◌≡◌, ◌<◌, ◌≤◌, ◌-◌, slice_range, vec_len};
    ghost use Rattle.std.specs.List.{position_or_len};
    ghost use Rattle.plan_port.specs.WindowContents.{WindowContents};
    ghost use Rattle.texts.specs.Limits.{most_line};
    ghost use Rattle.plan_port.specs.ReaderSteps.{ends_line};

    ghost Value = { WindowContents };

    ghost view = { λ w. record {
      text = slice_range w.bytes.items w.text_start w.text_end;
      kept = slice_range w.bytes.items w.start w.end;
      free = vec_len w.bytes - w.end;
    } };

    ghost invariant = { λ w. (most_line < vec_len w.bytes)
        × (w.text_start ≤ w.text_end) × (w.text_end ≤ vec_len w.bytes)
        × (w.start ≤ w.searched) × (w.searched ≤ w.end) × (w.end ≤ vec_len w.bytes)
        × (position_or_len ends_line (slice_range w.bytes.items w.start w.searched) ≡ w.searched -
        w.start) };
}

impl Window {
    pub(crate) fn new(alloc: Global) -> Result<Window, AllocError>
        ensures text { IfOk result (λ window. window.text ≡ []) }
        ensures kept { IfOk result (λ window. window.kept ≡ []) }
    {
        Ok(Window {
            bytes: vec![in alloc; 0; CAPACITY]?,
            text_start: 0,
            text_end: 0,
            start: 0,
            end: 0,
            searched: 0,
        })
    }

    pub(crate) fn text(&self) -> &[u8]
        ensures { result.now ≡ self.now.text }
    {
        &self.bytes[self.text_start..self.text_end]
    }

    /// How many bytes are kept.
    pub(crate) fn size(&self) -> usize
        ensures value { result ≡ length self.now.kept }
        ensures small { result < 2 ^ 63 }
    {
        self.end - self.start
    }

    /// Where the first line of the kept bytes ends, if its end has come.
    pub(crate) fn find_line_end(&mut self) -> Option<usize>
        ensures place { result ≡ position ends_line self.old.kept }
        ensures small { IfSome result (λ place. place < 2 ^ 63) }
        ensures same { self.new ≡ self.old }
    {
        let unsearched = &self.bytes[self.searched..self.end];
        match position_of_line_end(unsearched) {
            Some(place) => Some(self.searched - self.start + place),
            None => {
                self.searched = self.end;
                None
            }
        }
    }

    /// Gives out the first bytes as a line, and passes over the byte after them.
    pub(crate) fn give_line(&mut self, size: usize)
        requires { size < length self.old.kept }
        ensures text { self.new.text ≡ take size self.old.kept }
        ensures kept { self.new.kept ≡ drop (size + 1) self.old.kept }
    {
        self.text_start = self.start;
        self.text_end = self.start + size;
        self.start = self.start + size + 1;
        self.searched = self.start;
    }

    /// Gives out all kept bytes as a line.
    pub(crate) fn give_all(&mut self)
        ensures text { self.new.text ≡ self.old.kept }
        ensures kept { self.new.kept ≡ [] }
    {
        self.text_start = self.start;
        self.text_end = self.end;
        self.start = self.end;
        self.searched = self.end;
    }

    /// Forgets the last line.
    pub(crate) fn forget_text(&mut self)
        ensures text { self.new.text ≡ [] }
        ensures kept { self.new.kept ≡ self.old.kept }
    {
        self.text_start = 0;
        self.text_end = 0;
    }

    /// Moves the kept bytes to the start of the buffer.
    fn move_to_start(&mut self)
        requires { self.old.text ≡ [] }
        ensures text { self.new.text ≡ [] }
        ensures kept { self.new.kept ≡ self.old.kept }
        ensures free { most_line < self.new.free + length self.new.kept }
    {
        let (start, end) = (self.start, self.end);
        self.bytes.copy_within(start..end, 0);
        self.text_start = 0;
        self.text_end = 0;
        self.searched -= start;
        self.start = 0;
        self.end = end - start;
    }

    /// Reserves capacity for a byte more after the kept ones, and forgets the last line, since its
    /// place may be needed. `AllocError` comes only for want of memory, if more than `MOST_LINE`
    /// bytes are kept, and leaves these.
    pub(crate) fn reserve_one(&mut self) -> Result<(), AllocError>
        ensures text { self.new.text ≡ [] }
        ensures kept { self.new.kept ≡ self.old.kept }
        ensures spare_capacity { OnOk result (0 < self.new.free) }
        ensures wants { OnErr result (most_line < length self.old.kept) }
    {
        self.forget_text();
        if self.start == self.end || self.end == self.bytes.len() {
            self.move_to_start();
        }
        self.grow()
    }

    /// Makes the buffer twice as long if it is full.
    fn grow(&mut self) -> Result<(), AllocError>
        requires { self.old.free ≡ 0 → most_line < length self.old.kept }
        ensures text { self.new.text ≡ self.old.text }
        ensures kept { self.new.kept ≡ self.old.kept }
        ensures spare_capacity { OnOk result (0 < self.new.free) }
        ensures wants { OnErr result (most_line < length self.old.kept) }
    {
        let size = self.bytes.len();
        if self.end == size {
            self.bytes.resize(size * 2, 0)?;
        }
        Ok(())
    }

    /// Takes once from the port, after the kept bytes.
    pub(crate) fn fill<P: Port>(&mut self, port: &mut P) -> Took
        requires { 0 < self.old.free }
        ensures took { (into : List ℕ) × TakesOnce (P.seen port.old) (P.seen port.new) result into
            × (self.new.kept ≡ self.old.kept ++ bytes_given result into) }
        ensures text { self.old.text ≡ [] → self.new.text ≡ [] }
    {
        let end = self.end;
        let took = port.take(&mut self.bytes[end..]);
        if let Took::Bytes(count) = took {
            self.end = end + count;
        }
        took
    }
}

fn position_of_line_end(bytes: &[u8]) -> Option<usize>
    ensures place { result ≡ position ends_line bytes.now }
    ensures within { IfSome result (λ place. place < length bytes.now) }
{
    bytes.iter().position(|byte| *byte == b'\n')
}
