//! Lists of sources, by their numbers.

ghost use Rattle.std.specs.Prelude.{◌≡◌, ◌<◌, [], length, replicate, IfOk, OnOk};
ghost use Rattle.forward_closure.specs.Sources.{list_at, added_at};

use crate::source::Source;
use std::alloc::{AllocError, Global};
use std::marker::Model;

/// So many lists of sources. Contracts see it as these lists.
#[derive(Drop)]
pub(crate) struct SourceLists {
    lists: Vec<Vec<Source>>,
}

impl Model for SourceLists {
    ghost use Rattle.std.specs.Prelude.{List, map};
    ghost use Rattle.forward_closure.specs.declared.source.Source.{Source};

    ghost Value = { List (List Source) };

    ghost view = { λ kept. map (λ list. list.items) kept.lists.items };
}

impl SourceLists {
    /// So many empty lists. `AllocError` comes only for want of memory.
    pub(crate) fn empty(alloc: Global, count: usize) -> Result<SourceLists, AllocError>
        ensures { IfOk result (λ lists. lists ≡ replicate count []) }
    {
        let mut lists = Vec::new(alloc);
        for _ in 0..count {
            lists.push(Vec::new(alloc))?;
        }
        Ok(SourceLists { lists })
    }

    /// Puts a source at the end of the list of a number. `AllocError` comes only for want of
    /// memory.
    pub(crate) fn add(&mut self, place: usize, source: Source) -> Result<(), AllocError>
        requires { place < length self.old }
        ensures { OnOk result (self.new ≡ added_at self.old place source) }
    {
        self.lists[place].push(source)?;
        Ok(())
    }

    /// The list of a number.
    pub(crate) fn at(&self, place: usize) -> &[Source]
        requires { place < length self.now }
        ensures { result.now ≡ list_at self.now place }
    {
        self.lists[place].as_slice()
    }
}
