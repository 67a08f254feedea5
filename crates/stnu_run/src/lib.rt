//! What the program does: its words, its commands, and the run that serves them over a port; and
//! the table of its commands, outside of which words are refused.
#![tactic(auto)]

mod across_laws;
mod certificate_laws;
mod dispatch;
mod laws;
mod relaxed_deadline_laws;
mod relaxed_plan_laws;
mod run_laws;
mod table_laws;

pub use across_laws::{
    law_deadlines_agree_with_check, law_played_days_are_acted,
    law_shown_plans_have_the_same_answers, law_strong_means_controllable,
    law_verdicts_agree_with_check,
};
pub use certificate_laws::{
    law_deadlines_are_accepted, law_printed_means_accepted, law_session_proofs_are_accepted,
};
pub use command_contracts::Status;
pub use dispatch::run;
pub use laws::{law_defined_run_is_one, law_feeders_change_nothing, law_workers_change_nothing};
pub use relaxed_deadline_laws::law_relaxed_deadlines_are_no_greater;
pub use relaxed_plan_laws::law_relaxed_plans_stay_controllable;
pub use run_laws::law_runs_are_lawful;
pub use table_laws::{
    law_runs_refuse_words_outside_the_table, law_words_are_refused_outside_the_table,
};
