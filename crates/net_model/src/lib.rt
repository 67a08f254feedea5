//! Temporal networks with uncertainty: names, points, bounds, links, and what a list of parts
//! builds.
#![tactic(auto)]

mod between;
mod declarations;
mod edges;
mod edit;
mod edited_network;
mod fault;
mod format;
mod ids;
mod items;
pub mod laws;
mod limits;
mod name;
mod name_index;
mod network;
mod network_lists;
mod part;
mod shown_form;
pub mod text;

pub use between::{MOST_SHORT, between_parts};
pub use edges::{bound_edge, link_edge};
pub use edit::{Edit, EditFault, User};
pub use fault::BuildFault;
pub use format::{FormatFault, FormatKind, TextFault, WordFault};
pub use ids::{BoundId, LinkId, PointId, Weight};
pub use items::Items;
pub use limits::{
    MOST_BOUNDS, MOST_DELAY, MOST_LINES, MOST_LINKS, MOST_MOMENT, MOST_NUMBER, MOST_POINTS,
    MOST_WEIGHT, law_counts_are_defined, law_limits_are_defined,
};
pub use name::{Name, NameFault};
pub use network::Network;
pub use part::{Bound, Edge, Link, Part, Which};
