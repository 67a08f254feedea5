//! Sessions tried as tests: edits, and what a session answers after them.
#![tactic(auto)]

#[cfg(test)]
mod refusals;
#[cfg(test)]
mod sessions;
#[cfg(test)]
mod workers;
