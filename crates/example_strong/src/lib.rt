//! Strong schedules, certificates that there is none, and their judgement, and plans that the
//! longest durations exclude: examples, tried as tests.
#![tactic(auto)]

#[cfg(test)]
mod certificates;
#[cfg(test)]
mod judgements;
#[cfg(test)]
mod longest;
#[cfg(test)]
mod plans;
#[cfg(test)]
mod schedules;
