//! Days tried as tests: situations by number, days that are played out, and networks that are
//! forged from a number.
#![tactic(auto)]

#[cfg(test)]
mod days;
#[cfg(test)]
mod forged_networks;
