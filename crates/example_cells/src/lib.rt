//! Shared cells on small networks: what they settle to, what their seats answer, and that several
//! workers go over targets at once.
#![tactic(auto)]

#[cfg(test)]
mod gates;
#[cfg(test)]
mod seats;
#[cfg(test)]
mod settlements;
