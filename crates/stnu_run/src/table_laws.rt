//! Laws about the table of commands: which words are those of a command, and that these alone are
//! not refused. Each is the contract of a function without parameters.

ghost use Rattle.stnu_run.specs.Table.{RunsRefuseExactlyWordsOutsideTheTable};
ghost use Rattle.stnu_run.specs.Table.{WordsAreRefusedOutsideTheTable};

use check_command::law_check_is_read_exactly;
use deadline_command::law_deadline_is_read_exactly;
use fleet_command::law_fleet_is_read_exactly;
use judge_command::law_judge_is_read_exactly;
use play_command::{law_forge_is_read_exactly, law_play_is_read_exactly};
use run_command::law_run_is_read_exactly;
use session_command::law_session_is_read_exactly;
use show_command::law_show_is_read_exactly;
use strong_command::law_strong_is_read_exactly;

/// The program of some words is the refusal of words exactly if they are not in the table of
/// commands.
pub fn law_words_are_refused_outside_the_table()
    ensures { WordsAreRefusedOutsideTheTable }
{
    law_judge_is_read_exactly();
    law_check_is_read_exactly();
    law_run_is_read_exactly();
    law_session_is_read_exactly();
    law_show_is_read_exactly();
    law_play_is_read_exactly();
    law_strong_is_read_exactly();
    law_deadline_is_read_exactly();
    law_fleet_is_read_exactly();
    law_forge_is_read_exactly();
}

/// A run, whose status has its cause, ends with 2 only if the words are not in the table of
/// commands; and there it does, unless the refusal was not put, at 6, or there was no memory, at 8.
pub fn law_runs_refuse_words_outside_the_table()
    ensures { RunsRefuseExactlyWordsOutsideTheTable }
{
    law_words_are_refused_outside_the_table();
}
