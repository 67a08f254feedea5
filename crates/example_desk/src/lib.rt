//! Desks of sensors, tried as tests: the answers to posts, reads and follows, and posts that are
//! open at once.
#![tactic(auto)]

#[cfg(test)]
mod answer_words;
#[cfg(test)]
mod days;
#[cfg(test)]
mod executors;
#[cfg(test)]
mod feeders;
#[cfg(test)]
mod gates;
