//! Reductions, derivation lists, tables, orders and rounds of small networks, and boards: examples,
//! tried as tests.
#![tactic(auto)]

#[cfg(test)]
mod boards;
#[cfg(test)]
mod derivations;
#[cfg(test)]
mod dispatches;
#[cfg(test)]
mod edited_stores;
#[cfg(test)]
mod gates;
#[cfg(test)]
mod networks;
#[cfg(test)]
mod orders;
#[cfg(test)]
mod reductions;
#[cfg(test)]
mod rounds;
#[cfg(test)]
mod staleness;
#[cfg(test)]
mod tables;
#[cfg(test)]
mod workers;
