//! A port in memory with a fixed capacity, no call of which fails.

ghost use Rattle.std.specs.Prelude.{◌≡◌, ◌<◌, ◌≤◌, ◌↔◌, IsTrue, length, min, take, IfOk, is_some};
ghost use Rattle.plan_port.specs.Talk.{TakesOnce, PutsOnce};
ghost use Rattle.plan_port.specs.Steady.{Steady, seen_of, unused_port, after_piece, after_kept};
ghost use Rattle.plan_port.specs.Steady.{after_lost, TakesMost, PutsWhole};

use crate::ports::{Port, Sent, Took};
use crate::source::Source;
use std::alloc::{AllocError, Global};
use std::marker::Model;

/// A port over bytes in memory that keeps at most so many bytes of what is put. It reserves all
/// that it needs when it is made, so no later call takes memory, and none fails: both its counts
/// are always 0.
///
/// A take gives the most that the place and what is left allow. A put is accepted whole. Its piece
/// is kept if there is capacity for it, and lowers the spare capacity by its length. Else it is
/// lost, the spare capacity stays, and from then on the port shows no talk; it still shows what is
/// left. What fits later is kept all the same. Clauses `most` of `take` (`TakesMost`) and `whole`
/// of `put` (`PutsWhole`) say this, beside the clause of every port. That no call takes memory is
/// how the code is written: what is proved is that it has reserved what it needs, and that no call
/// fails.
#[derive(Drop)]
pub struct SteadyPort {
    source: Source,
    output: Vec<u8>,
    spare_capacity: u32,
    whole: bool,
}

impl Model for SteadyPort {
    ghost use Rattle.std.specs.Prelude.{◌+◌, ◌≤◌, length, None, vec_len};
    ghost use Rattle.std.specs.Vec.{vec_capacity};
    ghost use Rattle.plan_port.specs.Steady.{Steady};

    ghost Value = { Steady };

    ghost view = { λ p. record {
      kept = record {
        taken = p.source.taken;
        put = p.output.items;
        failed_take = None;
        failed_put = None;
      };
      left = p.source.left;
      spare_capacity = p.spare_capacity;
      whole = p.whole;
    } };

    ghost invariant = { λ p. (length p.source.left ≤ p.source.spare_capacity)
        × (vec_len p.output + p.spare_capacity ≤ vec_capacity p.output) };
}

impl SteadyPort {
    /// A port whose input is `input`, with capacity for `room` bytes of output. It reserves these
    /// and a record for each byte of the input, of which a take makes one at most. `AllocError`
    /// comes only if these can't be had, and then nothing was made.
    pub fn new(alloc: Global, input: Vec<u8>, room: u32) -> Result<SteadyPort, AllocError>
        ensures { IfOk result (λ port. port ≡ unused_port input.items room) }
    {
        let source = Source::with_reserved(alloc, input)?;
        let output = Vec::with_capacity(alloc, room as usize)?;
        Ok(SteadyPort {
            source,
            output,
            spare_capacity: room,
            whole: true,
        })
    }

    /// How many more bytes there is capacity to keep: at first the number that `new` got.
    pub fn room(&self) -> u32
        ensures { result ≡ self.now.spare_capacity }
    {
        self.spare_capacity
    }

    /// Whether all bytes that were put are kept, which is when the port shows its talk.
    pub fn whole(&self) -> bool
        ensures value { result ≡ self.now.whole }
        ensures talk { result ≡ is_some (seen_of self.now).talk }
    {
        self.whole
    }

    /// The bytes that are kept of those that were put: all of them if `whole` is true.
    pub fn written(&self) -> &[u8]
        ensures { result.now ≡ self.now.kept.put }
    {
        &self.output
    }

    /// How many bytes the next take gives.
    fn size_of_take(&self, place: usize) -> usize
        ensures { result ≡ min place (length self.now.left) }
    {
        place.min(self.source.size_left())
    }

    /// Gives bytes from the start of what is left.
    fn give(&mut self, into: &mut [u8], size: usize)
        requires some { 0 < size }
        requires place { size ≤ length into.old }
        requires left { size ≤ length self.old.left }
        ensures after { self.new ≡ after_piece self.old size }
        ensures bytes { take size into.new ≡ take size self.old.left }
    {
        self.source.give(into, size, self.output.len());
    }

    fn has_capacity_for(&self, piece: &[u8]) -> bool
        ensures { IsTrue result ↔ (length piece.now ≤ self.now.spare_capacity) }
    {
        piece.len() <= self.spare_capacity as usize
    }

    /// Keeps a piece that is put.
    fn keep(&mut self, piece: &[u8])
        requires { length piece.now ≤ self.old.spare_capacity }
        ensures { self.new ≡ after_kept self.old piece.now }
    {
        self.output.extend_from_slice(piece).unwrap();
        self.spare_capacity -= piece.len() as u32;
    }

    /// Loses a piece that is put.
    fn lose(&mut self)
        ensures { self.new ≡ after_lost self.old }
    {
        self.whole = false;
    }

    fn take_most(&mut self, into: &mut [u8]) -> Took
        requires { 0 < length into.old }
        ensures { TakesMost self.old self.new result into.new }
    {
        let size = self.size_of_take(into.len());
        if size == 0 {
            return Took::End;
        }
        self.give(into, size);
        Took::Bytes(size)
    }

    fn put_whole(&mut self, piece: &[u8]) -> Sent
        ensures { PutsWhole self.old self.new result piece.now }
    {
        if self.has_capacity_for(piece) {
            self.keep(piece);
        } else {
            self.lose();
        }
        Sent::Wrote(piece.len())
    }
}

impl Port for SteadyPort {
    ghost use Rattle.plan_port.specs.Steady.{seen_of};

    ghost seen = { λ port. seen_of port };

    fn take(&mut self, into: &mut [u8]) -> Took
        requires { 0 < length into.old }
        ensures most { TakesMost self.old self.new result into.new }
        ensures once { TakesOnce (seen_of self.old) (seen_of self.new) result into.new }
    {
        self.take_most(into)
    }

    fn put(&mut self, piece: &[u8]) -> Sent
        requires { 0 < length piece.now }
        ensures whole { PutsWhole self.old self.new result piece.now }
        ensures once { PutsOnce (seen_of self.old) (seen_of self.new) result piece.now }
    {
        self.put_whole(piece)
    }
}
