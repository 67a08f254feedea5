//! What the commands of the program share: what one promises, how it is served or printed, what its
//! words ask, the bytes and the exit status of a run, and their causes. It names no command.
//!
//! What a command promises is said of the network as it is stated, with its delay: its strategies,
//! its verdict, its earliest schedules. Certificates, closures and the network that is executed are
//! of its shown form.
#![tactic(auto)]

mod counts;
mod form_and_workers;
mod forms;
mod no_input;
mod plan_questions;
mod requests;
mod specification;
mod status;
mod worker_count;

pub use counts::{count_within, number_within};
pub use form_and_workers::FormAndWorkers;
pub use forms::form_given;
pub use no_input::{NoInput, NoInputEnd, RefusedWords, print_answer, print_words};
pub use plan_questions::{OneAnswer, PlanQuestion};
pub use requests::{Request, request_in};
pub use specification::{OneRun, Specified, serve_words};
pub use status::Status;
pub use worker_count::WorkerCount;
