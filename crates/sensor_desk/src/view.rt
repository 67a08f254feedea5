//! What is known of a desk and of its seats.

use net_model::{LinkId, Network};
use shared_seats::Noted;
use std::snapshot::Snapshot;

/// The network of a desk, and how many seats there may be.
#[derive(Drop)]
pub struct About {
    pub net: Snapshot<Network>,
    pub seats: u32,
}

/// What a seat has noted of a link: the moment that stands for it.
#[derive(Clone, Copy, Debug)]
pub struct Note {
    pub link: LinkId,
    pub moment: u64,
}

/// What a step of a seat found: a link, and the word that it had at that step.
#[derive(Clone, Copy, Debug)]
pub struct Look {
    pub link: LinkId,
    pub word: u64,
}

/// What a seat knows of its desk.
pub type View = Noted<About, Note, Look>;
