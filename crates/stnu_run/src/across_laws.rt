//! Laws across commands: what two of them put of the same plan agrees. Each is the contract of a
//! function without parameters.

ghost use Rattle.stnu_run.specs.AcrossCommands.{DeadlineAgreesWithCheck};
ghost use Rattle.stnu_run.specs.AcrossCommands.{StrongMeansControllable, VerdictAgreesWithCheck};
ghost use Rattle.stnu_run.specs.PlayedDays.{PlayedDayIsActed};
ghost use Rattle.stnu_run.specs.RunClaims.{HoldsOfDefinedRuns};
ghost use Rattle.stnu_run.specs.ShownPlans.{ShownPlanHasSameAnswers};

use check_command::law_check_is_read_exactly;
use command_contracts::Specified;
use deadline_command::{DeadlineQuestion, law_deadline_is_read_exactly};
use play_command::{Play, law_play_is_read_exactly};
use run_command::{Run, law_run_is_read_exactly};
use session_command::{SessionCommand, law_session_is_read_exactly};
use show_command::{Show, law_show_is_read_exactly};
use strategy_model::laws::law_at_most_one_earliest;
use strong_command::{StrongQuestion, law_strong_is_read_exactly};
use strong_plan::laws::law_strong_is_controllable;

/// If the defined run of `strong` for an input puts first `strongly controllable`, then that of
/// `check` puts first `controllable`, with status 0, whatever delay the words ask for. The engine
/// of cells may refuse the plan in place of that, with status 4.
pub fn law_strong_means_controllable()
    ensures { HoldsOfDefinedRuns StrongMeansControllable }
{
    StrongQuestion::keeps_its_promise();
    law_strong_is_controllable();
    law_strong_is_read_exactly();
    law_check_is_read_exactly();
}

/// If the defined run of `deadline FROM TO` puts a number, then of the plan with the bound that TO
/// comes at most so much after FROM, as a text, `check` says that it is controllable at this number
/// and at each greater one, and that it is not at each lower one. If `none` is put, `check` says
/// that it is not at any number that a plan may have.
pub fn law_deadlines_agree_with_check()
    ensures { HoldsOfDefinedRuns DeadlineAgreesWithCheck }
{
    DeadlineQuestion::keeps_its_promise();
    law_deadline_is_read_exactly();
    law_check_is_read_exactly();
}

/// What the defined run of `session` puts for a line `verdict` is what `check` says of the plan
/// text of the network as it stands then: that which `plan` prints.
pub fn law_verdicts_agree_with_check()
    ensures { HoldsOfDefinedRuns VerdictAgreesWithCheck }
{
    SessionCommand::keeps_its_promise();
    law_session_is_read_exactly();
    law_check_is_read_exactly();
}

/// Of a plan that the defined run of `show` puts, in either notation, `check` defines what it
/// defines of the input, with a proof or without and with any delay; so do `strong`, `play` and
/// `show`. What is put is to be no more than a document may be.
pub fn law_shown_plans_have_the_same_answers()
    ensures { HoldsOfDefinedRuns ShownPlanHasSameAnswers }
{
    Show::keeps_its_promise();
    law_check_is_read_exactly();
    law_strong_is_read_exactly();
    law_play_is_read_exactly();
    law_show_is_read_exactly();
}

/// If the defined run of `play` puts first `controllable`, then the moments after that are those of
/// the schedule by which the defined run of `run` acts on the day with these durations: if its
/// lines of events, up to `done`, list what is shown of the earliest schedule of the situation that
/// was played.
pub fn law_played_days_are_acted()
    ensures { HoldsOfDefinedRuns PlayedDayIsActed }
{
    Play::keeps_its_promise();
    Run::keeps_its_promise();
    law_at_most_one_earliest();
    law_play_is_read_exactly();
    law_run_is_read_exactly();
}
