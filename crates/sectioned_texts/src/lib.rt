//! Texts of lines in sections: what such a text is, as data, and how its lines are read, for each
//! of them.
#![tactic(auto)]

mod reading;
mod section_reader;

pub use reading::{missing, read_line, read_text, version_one};
pub use section_reader::SectionReader;
