//! Fleets of plans: their calls on examples, and that their plans are decided side by side, tried
//! as tests.
#![tactic(auto)]

#[cfg(test)]
mod calls;
#[cfg(test)]
mod gates;
#[cfg(test)]
mod plans;
