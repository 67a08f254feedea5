//! The laws of the program as they speak of one run of it, the contract of a function without
//! parameters.

ghost use Rattle.stnu_run.specs.AcrossCommands.{AgreesAcrossCommands};
ghost use Rattle.stnu_run.specs.EngineLaws.{EngineIsLawful};
ghost use Rattle.stnu_run.specs.RelaxedRuns.{HoldsOfRelaxed};
ghost use Rattle.stnu_run.specs.RunClaims.{HoldsOfRuns};
ghost use Rattle.stnu_run.specs.RunLaws.{OptionsChangeNothing, PutsAccepted, RunsAreOnlyDefined};
ghost use Rattle.stnu_run.specs.Table.{RunsRefuseExactlyWordsOutsideTheTable};

use crate::across_laws::{
    law_deadlines_agree_with_check, law_played_days_are_acted,
    law_shown_plans_have_the_same_answers, law_strong_means_controllable,
    law_verdicts_agree_with_check,
};
use crate::certificate_laws::{
    law_deadlines_are_accepted, law_printed_means_accepted, law_session_proofs_are_accepted,
};
use crate::laws::{law_defined_run_is_one, law_feeders_change_nothing, law_workers_change_nothing};
use crate::relaxed_deadline_laws::law_relaxed_deadlines_are_no_greater;
use crate::relaxed_plan_laws::law_relaxed_plans_stay_controllable;
use crate::table_laws::{
    law_runs_refuse_words_outside_the_table, law_words_are_refused_outside_the_table,
};
use cell_table::laws::{law_settles_exactly, law_steps_are_table_histories};
use check_command::law_engine_changes_the_limit_alone;
use execution_model::laws::{
    law_feeds_execute_earliest, law_streams_are_executed, law_streams_are_shown,
};
use plan_session::laws::law_broken_sessions_say_so;
use run_command::{
    law_feeders_put_the_lines_in_order, law_orders_decide_nothing, law_run_is_read_exactly,
};
use sensor_desk::laws::law_what_is_noted_stands;
use shared_table_laws::laws::{
    law_nodes_come_by_their_rules, law_rounds_that_close_settle,
    law_settled_histories_give_the_closure,
};

/// What the laws of the program say of each run whose status has its cause. `refuses`: words are
/// refused exactly if they are not in the table. `accepted`: what is put as a certificate `judge`
/// accepts. `only`: no other bytes are defined, if the bytes are exact. `options`: the number of
/// workers and of feeders, and the engine, change nothing. `agrees`: other commands say the same of
/// the same plan. `relaxed`: what is put of a plan holds of each to which that is relaxed.
/// `engine`: what no bytes show, of tables that workers share, of executions, and of
/// sessions that memory was refused to.
pub fn law_runs_are_lawful()
    ensures refuses { RunsRefuseExactlyWordsOutsideTheTable }
    ensures accepted { HoldsOfRuns PutsAccepted }
    ensures only { RunsAreOnlyDefined }
    ensures options { HoldsOfRuns OptionsChangeNothing }
    ensures agrees { HoldsOfRuns AgreesAcrossCommands }
    ensures relaxed { HoldsOfRuns HoldsOfRelaxed }
    ensures engine { EngineIsLawful }
{
    law_runs_refuse_words_outside_the_table();
    law_words_are_refused_outside_the_table();
    law_printed_means_accepted();
    law_session_proofs_are_accepted();
    law_deadlines_are_accepted();
    law_defined_run_is_one();
    law_workers_change_nothing();
    law_feeders_change_nothing();
    law_feeders_put_the_lines_in_order();
    law_run_is_read_exactly();
    law_engine_changes_the_limit_alone();
    law_strong_means_controllable();
    law_deadlines_agree_with_check();
    law_verdicts_agree_with_check();
    law_shown_plans_have_the_same_answers();
    law_played_days_are_acted();
    law_relaxed_plans_stay_controllable();
    law_relaxed_deadlines_are_no_greater();
    law_engine_is_lawful();
}

/// The laws of the engine that no bytes of a run show.
fn law_engine_is_lawful()
    ensures { EngineIsLawful }
{
    law_settled_histories_give_the_closure();
    law_rounds_that_close_settle();
    law_nodes_come_by_their_rules();
    law_steps_are_table_histories();
    law_settles_exactly();
    law_streams_are_executed();
    law_feeds_execute_earliest();
    law_streams_are_shown();
    law_what_is_noted_stands();
    law_orders_decide_nothing();
    law_broken_sessions_say_so();
}
