//! What `check` puts for a relaxed plan: a law, the contract of a function without parameters.

ghost use Rattle.stnu_run.specs.RelaxedPlans.{RelaxedPlansStayControllable};

use check_command::{Check, law_check_is_read_exactly};
use command_contracts::Specified;
use relaxation_laws::laws::law_relaxed_are_controllable;

/// If the defined run of `check` for an input puts `controllable` first, that for an input with a
/// relaxed plan puts no `not controllable`: if it puts a verdict at all, it is `controllable`, with
/// status 0. A plan is relaxed by bounds that are loosened or dropped, intervals of links that are
/// narrowed, and a delay, its own or the requested one, that is lowered. The two calls may differ in
/// the notation of the plan, in the engine, and in whether a proof is wanted.
pub fn law_relaxed_plans_stay_controllable()
    ensures { RelaxedPlansStayControllable }
{
    Check::keeps_its_promise();
    law_check_is_read_exactly();
    law_relaxed_are_controllable();
}
