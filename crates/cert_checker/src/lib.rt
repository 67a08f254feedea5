//! The judgement of certificates. It goes over the text of a certificate alone, and derives no
//! edge.
#![tactic(auto)]

mod base;
mod certificate_judge;
mod closure;
mod entries;
mod few;
mod judgement;
pub mod laws;
mod least;
mod lookup;
mod order;
mod row;
mod rules;
mod scan;
mod shown;
mod table;
mod walk;

pub use certificate_judge::judge;
pub use judgement::{CertFault, Claim, Judgement};
pub use scan::first_refused;
