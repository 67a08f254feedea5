//! What an edit of a network takes away from a derivation list, and what is kept of it: each node
//! that rests on nothing taken away, with the numbers of the edited network. A derivation list has
//! edges in the order of making, each with its rule and its premises; a node rests on a bound or a
//! link if it, or a node from which it was made, is made of that. Definitions and laws: nothing
//! here makes an edge.
//!
//! What is kept is first said of any numbers that points, bounds and links have in the edited
//! network (`IsRenumbering`), then of those that they have by their names. The laws about what an
//! edit takes, brings and withdraws are about a new network that has the parts of what the edit
//! makes of the old one (`HasEditedParts`): the same points, and bounds and links of the same names
//! and ends; its numbers may be others.
#![tactic(auto)]

pub mod laws;
