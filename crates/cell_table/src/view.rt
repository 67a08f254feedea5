//! What is known of cells and of their seats.

use labelled_graph::Table;
use net_model::{Edge, LinkId, Network, PointId};
use shared_seats::Noted;
use std::snapshot::Snapshot;

/// The network of the cells, the table from which they were made, and how many seats there may be.
#[derive(Drop)]
pub struct About {
    pub net: Snapshot<Network>,
    pub first: Snapshot<Table>,
    pub seats: u32,
}

/// What a step found: a key, and the word that it had at that step.
#[derive(Clone, Copy, Debug)]
pub struct Look {
    pub from: PointId,
    pub to: PointId,
    pub label: Option<LinkId>,
    pub word: u64,
}

/// What a seat knows of its cells. Its notes are the edges that it read or relaxed.
pub type View = Noted<About, Edge, Look>;
