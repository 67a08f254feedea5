//! The input of a port in memory.

ghost use Rattle.std.specs.Prelude.{◌≡◌, ◌<◌, ◌≤◌, [], length, take, IfOk, OnOk, OnErr};
ghost use Rattle.plan_port.specs.Supply.{Supply, Gives};

use std::alloc::{AllocError, Global};
use std::marker::Model;

// The range of the bytes of a take in the input, and how many bytes were put before it.
#[derive(Clone, Copy)]
struct TakenPiece {
    start: usize,
    end: usize,
    put_before: usize,
}

/// The bytes of an input, taken from the start, with the pieces in which they were taken.
#[derive(Drop)]
pub(crate) struct Source {
    bytes: Vec<u8>,
    position: usize,
    taken: Vec<TakenPiece>,
}

impl Model for Source {
    ghost use Rattle.std.specs.Prelude.{◌-◌, ◌≤◌, map, drop, slice_range, vec_len};
    ghost use Rattle.std.specs.Vec.{vec_capacity};
    ghost use Rattle.plan_port.specs.Supply.{Supply};

    ghost Value = { Supply };

    ghost view = { λ s. record {
      taken = map (λ t. record { bytes = slice_range s.bytes.items t.start t.end; put_before = t.put_before }) s.taken.items;
      left = drop s.position s.bytes.items;
      spare_capacity = vec_capacity s.taken - vec_len s.taken;
    } };

    ghost invariant = { λ s. s.position ≤ vec_len s.bytes };
}

impl Source {
    /// An input of which nothing was taken. It takes no memory yet.
    pub(crate) fn new(alloc: Global, bytes: Vec<u8>) -> Source
        ensures taken { result.taken ≡ [] }
        ensures left { result.left ≡ bytes.items }
    {
        Source {
            bytes,
            position: 0,
            taken: Vec::new(alloc),
        }
    }

    /// The same with capacity for as many pieces as it has bytes.
    pub(crate) fn with_reserved(alloc: Global, bytes: Vec<u8>) -> Result<Source, AllocError>
        ensures taken { IfOk result (λ source. source.taken ≡ []) }
        ensures left { IfOk result (λ source. source.left ≡ bytes.items) }
        ensures spare_capacity { IfOk result
            (λ source. length source.left ≤ source.spare_capacity) }
    {
        let taken = Vec::with_capacity(alloc, bytes.len())?;
        Ok(Source {
            bytes,
            position: 0,
            taken,
        })
    }

    /// How many pieces were taken.
    pub(crate) fn count(&self) -> usize
        ensures { result ≡ length self.now.taken }
    {
        self.taken.len()
    }

    /// How many bytes are left.
    pub(crate) fn size_left(&self) -> usize
        ensures { result ≡ length self.now.left }
    {
        self.bytes.len() - self.position
    }

    /// Reserves capacity for one more piece.
    pub(crate) fn reserve(&mut self) -> Result<(), AllocError>
        ensures taken { self.new.taken ≡ self.old.taken }
        ensures left { self.new.left ≡ self.old.left }
        ensures spare_capacity { OnOk result (0 < self.new.spare_capacity) }
    {
        self.taken.reserve(1)
    }

    /// Gives bytes from the start of what is left.
    pub(crate) fn give(&mut self, into: &mut [u8], size: usize, put_before: usize)
        requires spare_capacity { 0 < self.old.spare_capacity }
        requires place { size ≤ length into.old }
        requires left { size ≤ length self.old.left }
        ensures gives { Gives self.old self.new size put_before }
        ensures bytes { take size into.new ≡ take size self.old.left }
    {
        let (start, end) = (self.position, self.position + size);
        self.taken.push_reserved(TakenPiece {
            start,
            end,
            put_before,
        });
        into[..size].copy_from_slice(&self.bytes[start..end]);
        self.position = end;
    }
}
