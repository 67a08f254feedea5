//! Shared cells: a table of the labelled distance graph that several workers lower in place, a word
//! for each key, by single atomic steps. The rule of the cells is this project's own choice.
#![tactic(auto)]

mod cells;
mod closure;
mod depth_first_sweep;
mod fault;
mod final_table;
mod gate;
pub mod laws;
mod rule;
mod seat;
mod seated_cells;
mod settlement;
mod table_words;
mod view;
mod word;

pub use cells::{Cells, MOST_KEYS};
pub use closure::{close_by_cells, fits};
pub use fault::CellFault;
pub use gate::{CellGate, NoCellGate};
pub use seat::CellSeat;
pub use settlement::{Settled, settle};
pub use view::{About, Look, View};
