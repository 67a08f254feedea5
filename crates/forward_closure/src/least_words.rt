//! The least weights of a row in progress, a word for each key that it may have.

use crate::open_row::RowEdge;
use net_model::{LinkId, Network, PointId};
use std::alloc::{AllocError, Global};

/// The word of a key without a weight.
const ABSENT: i32 = i32::MAX;

/// The words of the one row that is relaxed: a word for each point in which an edge may begin, for
/// ordinary edges and for those of each label that begins in the row's point. They say which edges
/// are not worth keeping; no clause speaks of them, since whatever a row keeps is derivable.
#[derive(Drop)]
pub(crate) struct LeastWords {
    /// For each link, which of the rows of words is that of its label; that of ordinary edges is
    /// the first.
    slots: Vec<u32>,
    words: Vec<Vec<i32>>,
}

impl LeastWords {
    /// Words for the rows of a network, without weights.
    pub(crate) fn absent(alloc: Global, net: &Network) -> Result<LeastWords, AllocError> {
        let points = net.points().len();
        let slots = slots(alloc, net)?;
        let mut words = Vec::new(alloc);
        for _slot in 0..=most(slots.as_slice()) {
            words.push(vec![in alloc; ABSENT; points]?)?;
        }
        Ok(LeastWords { slots, words })
    }

    /// Which row of words is that of a label.
    fn slot(&self, label: Option<LinkId>) -> usize {
        match label {
            None => 0,
            Some(label) => match self.slots.get(label.0 as usize) {
                None => 0,
                Some(slot) => *slot as usize,
            },
        }
    }

    /// The words of a label.
    pub(crate) fn of_label(&mut self, label: Option<LinkId>) -> Option<&mut Vec<i32>> {
        let slot = self.slot(label);
        self.words.get_mut(slot)
    }

    /// Gives the key of an edge its weight if the key has none or a greater one, and says whether
    /// it did.
    pub(crate) fn lower_to(&mut self, edge: &RowEdge) -> bool {
        match self.of_label(edge.label) {
            None => false,
            Some(words) => lower_word(words.as_mut_slice(), edge.from, edge.weight),
        }
    }

    /// Whether the key of an edge has just its weight.
    pub(crate) fn has(&self, edge: &RowEdge) -> bool {
        match self.words.get(self.slot(edge.label)) {
            None => false,
            Some(words) => match words.get(edge.from.0 as usize) {
                None => false,
                Some(word) => *word == edge.weight,
            },
        }
    }

    /// Sets the weight of the key of an edge.
    pub(crate) fn set(&mut self, edge: &RowEdge) {
        self.put(edge, edge.weight);
    }

    /// Takes away the weight of the key of an edge.
    pub(crate) fn clear(&mut self, edge: &RowEdge) {
        self.put(edge, ABSENT);
    }

    fn put(&mut self, edge: &RowEdge, weight: i32) {
        if let Some(words) = self.of_label(edge.label) {
            if let Some(word) = words.get_mut(edge.from.0 as usize) {
                *word = weight;
            }
        }
    }
}

/// Lowers the word of a point to a weight, and says whether it was greater.
pub(crate) fn lower_word(words: &mut [i32], from: PointId, weight: i32) -> bool {
    match words.get_mut(from.0 as usize) {
        None => false,
        Some(word) => {
            let improves = weight < *word;
            if improves {
                *word = weight;
            }
            improves
        }
    }
}

/// For each link which of those that begin in its point it is, counted from 1.
fn slots(alloc: Global, net: &Network) -> Result<Vec<u32>, AllocError> {
    let mut counts = vec![in alloc; 0u32; net.points().len()]?;
    let mut slots = Vec::new(alloc);
    for link in net.links() {
        if let Some(count) = counts.get_mut(link.from.0 as usize) {
            *count = count.saturating_add(1);
            slots.push(*count)?;
        }
    }
    Ok(slots)
}

/// The greatest of some numbers, or 0.
fn most(numbers: &[u32]) -> u32 {
    let mut most = 0;
    for number in numbers {
        most = most.max(*number);
    }
    most
}
