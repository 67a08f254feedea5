//! The texts of a series that were read.

ghost use Rattle.std.specs.Prelude.{◌≡◌, ◌++◌, ◌∷◌, [], OnOk, OnErr};

use std::alloc::{AllocError, Global};
use std::marker::Model;

/// What was read so far, in order. Contracts see it as a list.
#[derive(Drop)]
pub struct Done<T> {
    items: Vec<T>,
}

impl<T> Model for Done<T> {
    ghost use Rattle.std.specs.Prelude.{List};
    ghost use Rattle.std.specs.Coded.{coded_list};

    ghost Value = { List T };

    ghost coded = { coded_list T.code };

    ghost view = { λ it. it.items.items };
}

impl<T: Drop> Done<T> {
    /// Nothing was read.
    pub fn new(alloc: Global) -> Done<T>
        ensures { result ≡ [] }
    {
        Done {
            items: Vec::new(alloc),
        }
    }

    /// What was read, in order.
    pub fn as_slice(&self) -> &[T]
        ensures { result.now ≡ self.now }
    {
        self.items.as_slice()
    }

    /// One more was read. `AllocError` comes only for want of memory.
    pub fn push(&mut self, item: T) -> Result<(), AllocError>
        ensures { OnOk result (self.new ≡ self.old ++ item ∷ []) }
    {
        self.items.push(item)?;
        Ok(())
    }

    /// What was read, as a vector.
    pub fn into_vec(self) -> Vec<T>
        ensures { result.items ≡ self }
    {
        let Done { items } = self;
        items
    }
}
