//! Runs of the parts of the workbench on examples, as tests: what no contract says, and each public
//! call once.
#![tactic(auto)]

#[cfg(test)]
mod checks;
#[cfg(test)]
mod days;
#[cfg(test)]
mod documents;
#[cfg(test)]
mod limits;
#[cfg(test)]
mod ports;
#[cfg(test)]
mod runs;
#[cfg(test)]
mod sessions;
