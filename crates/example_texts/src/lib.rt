//! Examples of names, networks and texts: tests alone. A table is one text with a row a line: an
//! input, ` => ` and the answer. In a plan text `|` stands for a line end.
#![tactic(auto)]

#[cfg(test)]
mod certificates;
#[cfg(test)]
mod delays;
#[cfg(test)]
mod documents;
#[cfg(test)]
mod edits;
#[cfg(test)]
mod events;
#[cfg(test)]
mod names;
#[cfg(test)]
mod networks;
#[cfg(test)]
mod plans;
#[cfg(test)]
mod rows;
#[cfg(test)]
mod steps;
