//! Laws about plays and edges, each the contract of a function without parameters.

ghost use Rattle.strategy_model.specs.Laws.{CompletionFollowsActivation, PlaysAgree};
ghost use Rattle.strategy_model.specs.Laws.{BoundKeepsTruth, LinkKeepsTruth, NoCaseKeepsTruth};
ghost use Rattle.strategy_model.specs.Laws.{UpperCaseKeepsTruth, LowerCaseKeepsTruth};
ghost use Rattle.strategy_model.specs.Laws.{CrossCaseKeepsTruth, RemovalKeepsTruth, RulesKeepTruth};
ghost use Rattle.strategy_model.specs.Laws.{DerivationsAreTrue, RulesKeepEdges};
ghost use Rattle.strategy_model.specs.Laws.{LoopsExcludeSchedules, LoopsExcludeStrategies};
ghost use Rattle.strategy_model.specs.Laws.{RefutationsExcludeStrategies};
ghost use Rattle.strategy_model.specs.Laws.{LoopsOfBoundsExcludeSchedules};
ghost use Rattle.strategy_model.specs.Laws.{LoopsOfBoundsExcludeStrategies, AtMostOneEarliest};
ghost use Rattle.strategy_model.specs.Laws.{ExactRulesKeepTruth, ExactDerivationsHaveEdges};
ghost use Rattle.strategy_model.specs.Laws.{ExactDerivationsAreTrue};
ghost use Rattle.strategy_model.specs.Laws.{NegativeCyclesExcludeStrategies};
ghost use Rattle.strategy_model.specs.LooserLaws.{LooserBoundsKeepControl};

pub mod dispatch;
pub mod shown;

/// In a play each contingent point comes its link's duration after its activation point.
pub fn law_completion_follows_activation()
    ensures { CompletionFollowsActivation }
{}

/// In two situations that differ in one link the plays of a strategy agree on each point that comes
/// before the sooner of that link's two completions.
pub fn law_plays_agree()
    ensures { PlaysAgree }
{}

/// The edge of a bound is true of every strategy that controls the network.
pub fn law_bound_keeps_truth()
    ensures { BoundKeepsTruth }
{}

/// The edge of a link is true of every strategy that controls the network.
pub fn law_link_keeps_truth()
    ensures { LinkKeepsTruth }
{}

/// What no-case gives from edges that are true of a controlling strategy is true of it.
pub fn law_no_case_keeps_truth()
    ensures { NoCaseKeepsTruth }
{}

/// What upper-case gives from edges that are true of a controlling strategy is true of it.
pub fn law_upper_case_keeps_truth()
    ensures { UpperCaseKeepsTruth }
{}

/// What lower-case gives from an edge that is true of a controlling strategy is true of it.
pub fn law_lower_case_keeps_truth()
    ensures { LowerCaseKeepsTruth }
{}

/// What cross-case gives from an edge that is true of a controlling strategy is true of it.
pub fn law_cross_case_keeps_truth()
    ensures { CrossCaseKeepsTruth }
{}

/// What removal gives from an edge that is true of a controlling strategy is true of it.
pub fn law_removal_keeps_truth()
    ensures { RemovalKeepsTruth }
{}

/// What follows by one rule from edges that are true of a controlling strategy is true of it.
pub fn law_rules_keep_truth()
    ensures { RulesKeepTruth }
{}

/// Every edge of a derivation is true of every strategy that controls the network.
pub fn law_derivations_are_true()
    ensures { DerivationsAreTrue }
{}

/// What follows by one rule from edges of the network is an edge of it.
pub fn law_rules_keep_edges()
    ensures { RulesKeepEdges }
{}

/// No schedule keeps every edge of a closed walk of negative total.
pub fn law_loops_exclude_schedules()
    ensures { LoopsExcludeSchedules }
{}

/// Of no strategy that controls the network is every edge of a closed walk of negative total true.
pub fn law_loops_exclude_strategies()
    ensures { LoopsExcludeStrategies }
{}

/// A derivation and a closed walk of negative total over its edges exclude every strategy that
/// controls the network.
pub fn law_refutations_exclude_strategies()
    ensures { RefutationsExcludeStrategies }
{}

/// A closed walk over bounds of negative total excludes every schedule that satisfies the network.
pub fn law_loops_of_bounds_exclude_schedules()
    ensures { LoopsOfBoundsExcludeSchedules }
{}

/// A closed walk over bounds of negative total excludes every strategy that controls the network.
pub fn law_loops_of_bounds_exclude_strategies()
    ensures { LoopsOfBoundsExcludeStrategies }
{}

/// A situation has at most one earliest schedule.
pub fn law_at_most_one_earliest()
    ensures { AtMostOneEarliest }
{}

/// What an exact rule gives from edges of the network that are true of a controlling strategy is
/// true of it.
pub fn law_exact_rules_keep_truth()
    ensures { ExactRulesKeepTruth }
{}

/// Every edge of a derivation by the exact rules is an edge of the network.
pub fn law_exact_derivations_have_edges()
    ensures { ExactDerivationsHaveEdges }
{}

/// Every edge of a derivation by the exact rules is true of every strategy that controls the
/// network.
pub fn law_exact_derivations_are_true()
    ensures { ExactDerivationsAreTrue }
{}

/// A cycle of negative ordinary edges that are derived by the exact rules excludes every strategy
/// that controls the network.
pub fn law_negative_cycles_exclude_strategies()
    ensures { NegativeCyclesExcludeStrategies }
{}

/// A strategy that controls a network controls it with looser bounds in place of its own, whatever
/// the delay is.
pub fn law_looser_bounds_keep_control()
    ensures { LooserBoundsKeepControl }
{}
