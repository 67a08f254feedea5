//! Tightest deadlines of plans: examples, tried as tests.
#![tactic(auto)]

#[cfg(test)]
mod deadline_text;
#[cfg(test)]
mod deadlines;
#[cfg(test)]
mod names;
#[cfg(test)]
mod trial_counts;
