//! Plan texts, versions 1 and 2: their lines, reading a text line by line or whole, and printing a
//! network as one.
#![tactic(auto)]

mod declaration;
pub mod laws;
mod plan_line;
mod print;
mod read;
mod reader;
mod section;
mod version;

pub use declaration::DeclarationFault;
pub use plan_line::{PlanLine, read_plan_line};
pub use print::print_plan;
pub use read::{Parts, read_plan};
pub use reader::PlanReader;
pub use section::PlanSection;
pub use version::{PlanStage, PlanVersion};
