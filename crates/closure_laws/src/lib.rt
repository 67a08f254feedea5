//! What the closure of a network says of its strategies: definitions and laws alone.
//!
//! The laws that speak of strategies or schedules are about networks in which reaction is
//! instantaneous (`IsInstant`: sound, with a delay of 0), as every shown form is.
#![tactic(auto)]

pub mod laws;
