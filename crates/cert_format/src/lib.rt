//! The texts of certificates, line by line: proofs that no strategy controls a network, or that one
//! does, and that no one schedule is right in every situation.
#![tactic(auto)]

mod certificate;
mod entry;
mod keyword;
mod kind;
pub mod laws;
mod limits;
mod line;
mod print;
mod printed_line;
mod read;
mod reader;
mod section;
mod strong_cert;
mod strong_print;
mod strong_read;
mod strong_reader;
mod strong_section;
mod strong_whole;
mod strong_word;
mod whole;

pub use certificate::Certificate;
pub use entry::Entry;
pub use kind::LineKind;
pub use limits::{MOST_LINE_NUMBER, MOST_WRITTEN_WEIGHT, law_limits_are_defined};
pub use line::CertLine;
pub use print::print_certificate;
pub use read::{CertText, read_cert_line};
pub use reader::CertReader;
pub use section::Section;
pub use strong_cert::{StrongCert, StrongLine};
pub use strong_print::print_strong;
pub use strong_read::StrongTextLine;
pub use strong_reader::StrongReader;
pub use strong_section::StrongSection;
pub use strong_whole::read_strong;
pub use whole::read_certificate;
