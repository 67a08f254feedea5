//! A port in memory, whose takes can be cut short and whose calls can be made to fail.

ghost use Rattle.std.specs.Prelude.{◌≡◌, ◌+◌, ◌<◌, ◌≤◌, [], length, min, take, drop, OnOk, OnErr};
ghost use Rattle.plan_port.specs.Talk.{TakesOnce, PutsOnce, raised, with_put};
ghost use Rattle.plan_port.specs.Memory.{Memory, seen_of, unused_port, is_listed, limit};
ghost use Rattle.plan_port.specs.Memory.{after_piece, after_failed_take, after_failed_put};
ghost use Rattle.plan_port.specs.Memory.{TakesNext, PutsNext};

use crate::ports::{Port, Sent, Took};
use crate::source::Source;
use std::alloc::{AllocError, Global};
use std::marker::Model;

// How many pieces had been taken, and how many bytes put.
#[derive(Clone, Copy)]
pub(crate) struct Reached {
    taken: usize,
    put: usize,
}

/// A port over bytes in memory. It shows what was said over it and what is left.
///
/// The takes are counted from 1, and so are the puts. Those listed fail. Each other take gives the
/// most that its cut, the place and what is left allow; the cut of the i-th take is the i-th of
/// `cuts`, if that is above 0. Each other put takes its whole piece. A take or a put that finds no
/// memory to keep what the talk needs fails too. Clause `next` of its two calls says this
/// (`TakesNext`, `PutsNext`), beside the clause of every port.
#[derive(Drop)]
pub struct MemoryPort {
    source: Source,
    cuts: Vec<u32>,
    failing_takes: Vec<u32>,
    failing_puts: Vec<u32>,
    takes: u64,
    puts: u64,
    output: Vec<u8>,
    failed_take: Option<Reached>,
    failed_put: Option<Reached>,
    read_faults: u64,
    write_faults: u64,
}

impl Model for MemoryPort {
    ghost use Rattle.std.specs.Option.{option_map};
    ghost use Rattle.plan_port.specs.Memory.{Memory};

    ghost Value = { Memory };

    ghost view = { λ p. record {
      talk = record {
        taken = p.source.taken;
        put = p.output.items;
        failed_take = option_map (λ at. record { taken = at.taken; put = at.put }) p.failed_take;
        failed_put = option_map (λ at. record { taken = at.taken; put = at.put }) p.failed_put;
      };
      left = p.source.left;
      cuts = p.cuts.items;
      failing_takes = p.failing_takes.items;
      failing_puts = p.failing_puts.items;
      takes = p.takes;
      puts = p.puts;
      read_faults = p.read_faults;
      write_faults = p.write_faults;
    } };
}

impl MemoryPort {
    /// A port whose input is `input`. It takes no memory yet.
    pub fn new(
        alloc: Global,
        input: Vec<u8>,
        cuts: Vec<u32>,
        failing_takes: Vec<u32>,
        failing_puts: Vec<u32>,
    ) -> MemoryPort
        ensures { result ≡ unused_port input.items cuts.items failing_takes.items
            failing_puts.items }
    {
        MemoryPort {
            source: Source::new(alloc, input),
            cuts,
            failing_takes,
            failing_puts,
            takes: 0,
            puts: 0,
            output: Vec::new(alloc),
            failed_take: None,
            failed_put: None,
            read_faults: 0,
            write_faults: 0,
        }
    }

    /// All bytes that were put.
    pub fn written(&self) -> &[u8]
        ensures { result.now ≡ self.now.talk.put }
    {
        &self.output
    }

    /// How far the talk has come.
    fn reached(&self) -> Reached
        ensures taken { result.taken ≡ length self.now.talk.taken }
        ensures put { result.put ≡ length self.now.talk.put }
    {
        Reached {
            taken: self.source.count(),
            put: self.output.len(),
        }
    }

    /// Counts a take. Whether it is one that fails.
    fn begin_take(&mut self) -> bool
        ensures listed { result ≡ is_listed self.old.failing_takes (raised self.old.takes) }
        ensures counted { self.new ≡ record self.old { takes = raised self.old.takes } }
    {
        self.takes = self.takes.saturating_add(1);
        is_listed(&self.failing_takes, self.takes)
    }

    fn fail_take(&mut self) -> Took
        ensures failed { result ≡ Took.Failed }
        ensures counted { self.new ≡ after_failed_take self.old }
    {
        self.failed_take = Some(self.reached());
        self.read_faults = self.read_faults.saturating_add(1);
        Took::Failed
    }

    /// How many bytes the take that was counted gives.
    fn size_of_take(&self, place: usize) -> usize
        requires { 0 < self.now.takes }
        ensures { result ≡ min (limit self.now.cuts self.now.takes place) (length self.now.left) }
    {
        let most = limit(&self.cuts, self.takes, place);
        most.min(self.source.size_left())
    }

    /// Gives bytes from the start of what is left.
    fn give(&mut self, into: &mut [u8], size: usize) -> Result<(), AllocError>
        requires place { size ≤ length into.old }
        requires left { size ≤ length self.old.left }
        ensures ok { OnOk result (self.new ≡ after_piece self.old size) }
        ensures bytes { OnOk result (take size into.new ≡ take size self.old.left) }
        ensures err { OnErr result (self.new ≡ self.old) }
    {
        self.source.reserve()?;
        self.source.give(into, size, self.output.len());
        Ok(())
    }

    /// Counts a put. Whether it is one that fails.
    fn begin_put(&mut self) -> bool
        ensures listed { result ≡ is_listed self.old.failing_puts (raised self.old.puts) }
        ensures counted { self.new ≡ record self.old { puts = raised self.old.puts } }
    {
        self.puts = self.puts.saturating_add(1);
        is_listed(&self.failing_puts, self.puts)
    }

    fn fail_put(&mut self) -> Sent
        ensures failed { result ≡ Sent.Failed }
        ensures counted { self.new ≡ after_failed_put self.old }
    {
        self.failed_put = Some(self.reached());
        self.write_faults = self.write_faults.saturating_add(1);
        Sent::Failed
    }

    /// Keeps bytes that are put.
    fn keep(&mut self, piece: &[u8]) -> Result<(), AllocError>
        ensures ok { OnOk result (self.new ≡ record self.old
            { talk = with_put self.old.talk piece.now }) }
        ensures err { OnErr result (self.new ≡ self.old) }
    {
        self.output.extend_from_slice(piece)
    }

    fn take_next(&mut self, into: &mut [u8]) -> Took
        requires { 0 < length into.old }
        ensures next { TakesNext self.old self.new result into.new }
    {
        if self.begin_take() {
            return self.fail_take();
        }
        let size = self.size_of_take(into.len());
        if size == 0 {
            return Took::End;
        }
        match self.give(into, size) {
            Ok(()) => Took::Bytes(size),
            Err(_) => self.fail_take(),
        }
    }

    fn put_next(&mut self, piece: &[u8]) -> Sent
        ensures next { PutsNext self.old self.new result piece.now }
    {
        if self.begin_put() {
            return self.fail_put();
        }
        match self.keep(piece) {
            Ok(()) => Sent::Wrote(piece.len()),
            Err(_) => self.fail_put(),
        }
    }
}

impl Port for MemoryPort {
    ghost use Rattle.plan_port.specs.Memory.{seen_of};

    ghost seen = { λ port. seen_of port };

    fn take(&mut self, into: &mut [u8]) -> Took
        requires { 0 < length into.old }
        ensures next { TakesNext self.old self.new result into.new }
        ensures once { TakesOnce (seen_of self.old) (seen_of self.new) result into.new }
    {
        self.take_next(into)
    }

    fn put(&mut self, piece: &[u8]) -> Sent
        requires { 0 < length piece.now }
        ensures next { PutsNext self.old self.new result piece.now }
        ensures once { PutsOnce (seen_of self.old) (seen_of self.new) result piece.now }
    {
        self.put_next(piece)
    }
}

fn is_listed(listed: &[u32], number: u64) -> bool
    ensures { result ≡ is_listed listed.now number }
{
    listed.iter().any(|call| u64::from(*call) == number)
}

fn limit(cuts: &[u32], number: u64, place: usize) -> usize
    requires { 0 < number }
    ensures { result ≡ limit cuts.now number place }
{
    let index = (number - 1) as usize;
    let cut = cuts.get(index).copied().unwrap_or(0);
    if cut == 0 {
        place
    } else {
        place.min(cut as usize)
    }
}
