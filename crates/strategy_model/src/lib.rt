//! Situations, schedules, strategies and their plays, the laws of edges, and what closed lists of
//! edges give.
//!
//! A situation has one duration for each link, a schedule one moment for each point. A strategy
//! controls a network if it has, in every situation, a play that satisfies the network; a network
//! is controllable if some strategy controls it. A closed list of edges has the edges of bounds and
//! links, and whatever the rules give from it, each at a weight that is no greater.
//!
//! Most laws about plays and control are about networks in which reaction is instantaneous
//! (`IsInstant`: sound, with a delay of 0). `laws::shown` carries them to networks with a delay, by
//! their shown forms.
#![tactic(auto)]

pub mod laws;
mod plays;
mod schedules;
mod tree;

pub use plays::play;
pub use schedules::satisfies;
pub use tree::{Case, Tree};

/// One duration for each link, in the order of the links, in whole moments.
pub type Situation = Vec<u64>;

/// One moment for each point, in the order of the points, in whole moments from 0.
pub type Schedule = Vec<u64>;
