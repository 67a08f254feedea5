//! The verdict of a network: a table that decides it if some strategy controls the network, else
//! the certificate of its refutation.
#![tactic(auto)]

mod certificates;
mod closures;
mod deciding_tables;
mod verdict;

pub use certificates::{certify_by_closure, certify_by_rounds};
pub use deciding_tables::{DecidingTable, dispatch_by, forward_table_if_controllable};
pub use verdict::{Verdict, decide, decide_by_cells, decide_by_closure};
