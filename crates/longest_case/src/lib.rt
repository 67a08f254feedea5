//! A quick test for networks that no strategy controls: whether the situation in which every link
//! takes its longest duration excludes every schedule.
#![tactic(auto)]

mod edge_ends;
mod longest;
mod loop_check;
mod loop_search;

pub use longest::is_excluded_at_longest;
