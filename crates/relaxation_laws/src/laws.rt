//! Laws about relaxed networks, each the contract of a function without parameters.

ghost use Rattle.relaxation_laws.specs.Laws.{RelaxationsCompose, EditsRelax, LowerDelaysRelax};
ghost use Rattle.relaxation_laws.specs.Laws.{SameStrategiesControlRelaxed};
ghost use Rattle.relaxation_laws.specs.Laws.{DynamicAsShownAreTrees, TreesAreDynamicAsShown};
ghost use Rattle.relaxation_laws.specs.Laws.{RelaxedArePlayedAlike, RelaxedAreControllable};
ghost use Rattle.relaxation_laws.specs.Laws.{RelaxedAreNoLater};

/// A network is relaxed to itself, and if it is relaxed to another and that to a third, it is
/// relaxed to the third.
pub fn law_relaxations_compose()
    ensures { RelaxationsCompose }
{}

/// What an edit that drops a bound, loosens it, or narrows the interval of a link makes of a network
/// is relaxed.
pub fn law_edits_relax()
    ensures { EditsRelax }
{}

/// A lower delay relaxes a network.
pub fn law_lower_delays_relax()
    ensures { LowerDelaysRelax }
{}

/// With the same delay, a strategy that controls a network controls each to which it is relaxed.
pub fn law_same_strategies_control_relaxed()
    ensures { SameStrategiesControlRelaxed }
{}

/// Every execution strategy that is dynamic under the delay of a network is what some tree plays.
pub fn law_dynamic_as_shown_are_trees()
    ensures { DynamicAsShownAreTrees }
{}

/// What a tree plays in every situation is an execution strategy that is dynamic under the delay of
/// the network.
pub fn law_trees_are_dynamic_as_shown()
    ensures { TreesAreDynamicAsShown }
{}

/// What a strategy plays that controls a network, some strategy plays in each network to which that
/// is relaxed, and controls it. With a lower delay it may be another tree: it sees each completion
/// sooner.
pub fn law_relaxed_are_played_alike()
    ensures { RelaxedArePlayedAlike }
{}

/// What a controllable network is relaxed to is controllable.
pub fn law_relaxed_are_controllable()
    ensures { RelaxedAreControllable }
{}

/// In each situation the earliest schedule of what a network is relaxed to has no point later than
/// that of the network.
pub fn law_relaxed_are_no_later()
    ensures { RelaxedAreNoLater }
{}
