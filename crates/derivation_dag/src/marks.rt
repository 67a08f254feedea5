//! Marks of numbers, a bit each.

use closure_model::NodeId;
use std::alloc::{AllocError, Global};

/// Which numbers of a list are marked, a bit for each.
#[derive(Debug, Drop)]
pub(crate) struct Marks {
    words: Vec<u64>,
}

impl Marks {
    /// No mark, of so many numbers. `AllocError` comes only for want of memory.
    pub(crate) fn of(alloc: Global, count: u64) -> Result<Marks, AllocError> {
        let words = vec![in alloc; 0; (count / 64) as usize + 1]?;
        Ok(Marks { words })
    }

    /// Whether a number is marked.
    pub(crate) fn has(&self, id: NodeId) -> bool {
        match self.words.get((id.0 / 64) as usize) {
            Some(word) => *word & bit(id) != 0,
            None => false,
        }
    }

    /// Marks a number, if it is one of those.
    pub(crate) fn mark(&mut self, id: NodeId) {
        if let Some(word) = self.words.get_mut((id.0 / 64) as usize) {
            *word |= bit(id);
        }
    }
}

/// The bit of a number in its word.
fn bit(id: NodeId) -> u64 {
    1 << (id.0 % 64)
}
