//! What `deadline` puts for a relaxed plan: a law, the contract of a function without parameters.

ghost use Rattle.stnu_run.specs.RelaxedDeadlines.{RelaxedDeadlinesAreNoGreater};

use command_contracts::Specified;
use deadline_command::{DeadlineQuestion, law_deadline_is_read_exactly};
use relaxation_laws::laws::law_relaxed_are_controllable;

/// If the defined run of `deadline` for an input puts a number, that for an input with a relaxed
/// plan, between points of the same names, puts one that is no greater, if it puts a verdict at all.
/// At the least number that a plan may have, `at-most` and that number is put.
pub fn law_relaxed_deadlines_are_no_greater()
    ensures { RelaxedDeadlinesAreNoGreater }
{
    DeadlineQuestion::keeps_its_promise();
    law_deadline_is_read_exactly();
    law_relaxed_are_controllable();
}
