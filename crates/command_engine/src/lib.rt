//! Commands: what each answers to the lines of its input, and how a run serves it over a port.
#![tactic(auto)]

mod alternatives;
mod answers;
mod endings;
mod laws;
mod limits;
mod line_texts;
mod machines;
mod pairs;
mod phases;
mod questions;
mod refusals;
mod run_loop;
mod tested_texts;
mod words;

pub use alternatives::Either;
pub use answers::Answer;
pub use endings::{End, Status};
pub use laws::{
    law_answers_once_by_grammar, law_answers_once_is_single, law_answers_once_runs,
    law_answers_once_wants, law_broken_runs_are_prefixes, law_bytes_are_exact, law_pair_reads,
    law_single_runs, law_text_then_phase_is_single, law_text_then_phase_runs,
    law_text_then_phase_wants,
};
pub use limits::{LEAST_CAPACITY, MOST_INPUT, law_limits_are_defined};
pub use line_texts::{InGrammar, Parse, Text};
pub use machines::{Command, Flow, Stop};
pub use pairs::Then;
pub use phases::{Begin, TextThenPhase};
pub use questions::{AnswersOnce, Question, refuse};
pub use refusals::Refusal;
pub use run_loop::serve;
pub use tested_texts::{Test, Tested, law_tested_texts_are_read};
pub use words::Word;
