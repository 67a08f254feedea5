//! Laws about strong schedules, each the contract of a function without parameters.

ghost use Rattle.strong_plan.specs.Laws.{ReducedEdgesSuffice, ReducedEdgesHold};
ghost use Rattle.strong_plan.specs.Laws.{StrongIsControllable, LoopsExcludeStrong};
ghost use Rattle.strong_plan.specs.Laws.{RingsExcludeStrong, LeastKeptIsLeast, AcceptedExcludes};
ghost use Rattle.strong_plan.specs.Laws.{StrongAnswerIsOne};
ghost use Rattle.strong_plan.specs.Numbers.{PlanNumbersAreShown, ShownFormsHaveShownNumbers};

use strategy_model::laws::dispatch;

/// Moments of the executable points are a strong schedule if every point has a root and they keep
/// the reduced edges.
pub fn law_reduced_edges_suffice()
    ensures { ReducedEdgesSuffice }
{}

/// Moments of the executable points are a strong schedule only if every point has a root and they
/// keep the reduced edges.
pub fn law_reduced_edges_hold()
    ensures { ReducedEdgesHold }
{}

/// A strongly controllable network is controllable, whatever its delay.
pub fn law_strong_is_controllable()
    ensures { StrongIsControllable }
{
    dispatch::law_dynamic_strategies_are_trees();
}

/// A closed walk of negative total over reduced edges, or over edges above them, excludes every
/// strong schedule.
pub fn law_loops_exclude_strong()
    ensures { LoopsExcludeStrong }
{}

/// A ring of links excludes every strong schedule.
pub fn law_rings_exclude_strong()
    ensures { RingsExcludeStrong }
{}

/// If every point has a root, the least moments that keep the reduced edges are the least strong
/// schedule.
pub fn law_least_kept_is_least()
    ensures { LeastKeptIsLeast }
{}

/// An accepted strong certificate excludes every strong schedule, whoever wrote it.
pub fn law_accepted_excludes()
    ensures { AcceptedExcludes }
{}

/// Two answers to one network are the same.
pub fn law_strong_answer_is_one()
    ensures { StrongAnswerIsOne }
{}

/// The numbers of a plan are numbers that the shown form of a plan may have.
pub fn law_plan_numbers_are_shown()
    ensures { PlanNumbersAreShown }
{}

/// The numbers of the shown form of a plan are such numbers too, whatever its delay.
pub fn law_shown_forms_have_shown_numbers()
    ensures { ShownFormsHaveShownNumbers }
{}
