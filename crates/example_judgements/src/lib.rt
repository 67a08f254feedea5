//! The judgement of certificates, and strategies, what they play, and schedules that satisfy a
//! network: examples, tried as tests.
#![tactic(auto)]

#[cfg(test)]
mod delays;
#[cfg(test)]
mod refutations;
#[cfg(test)]
mod rows;
#[cfg(test)]
mod scans;
#[cfg(test)]
mod sparse;
#[cfg(test)]
mod strategies;
#[cfg(test)]
mod tables;
#[cfg(test)]
mod wide;
