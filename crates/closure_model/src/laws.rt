//! Laws about derivable edges, the closure and derivation lists, each the contract of a function
//! without parameters.

ghost use Rattle.closure_model.specs.ClosureLaws.{RulesKeepDerivable, DerivableAreEdges};
ghost use Rattle.closure_model.specs.ClosureLaws.{DerivableAreBounded, ReachedAreDerivable};
ghost use Rattle.closure_model.specs.ClosureLaws.{ClosureIsClosed, ClosureIsWeakest, ClosureIsOne};
ghost use Rattle.closure_model.specs.ClosureLaws.{ClosedAndDerivableIsClosure, CyclesAreInClosures};
ghost use Rattle.closure_model.specs.DerivationLaws.{NodesAreDerivable, PremisesAreEarlier};
ghost use Rattle.closure_model.specs.DerivationLaws.{UnderIsEarlier, LabelledRestOnLinks};
ghost use Rattle.closure_model.specs.DerivationLaws.{BaseStands, FollowingKeepsStanding};
ghost use Rattle.closure_model.specs.DerivationLaws.{StandingIsDerivable, TablesMatchNodes};
ghost use Rattle.closure_model.specs.DerivationLaws.{NewestHasTheWeight, NodeOfKeyIsOne};

/// What follows from derivable edges by one rule is derivable.
pub fn law_rules_keep_derivable()
    ensures { RulesKeepDerivable }
{}

/// A derivable edge is an edge of the network.
pub fn law_derivable_are_edges()
    ensures { DerivableAreEdges }
{}

/// A derivable weight lies from -M to M, where M is the greatest size of a number of the network.
pub fn law_derivable_are_bounded()
    ensures { DerivableAreBounded }
{}

/// The base table of a network, and every table that rules reach from it, hold derivable edges
/// only.
pub fn law_reached_are_derivable()
    ensures { ReachedAreDerivable }
{}

/// If a network has a closure, it is closed and has the base edges.
pub fn law_closure_is_closed()
    ensures { ClosureIsClosed }
{}

/// The closure is the weakest closed table: every closed table has at each key of the closure a
/// weight that is no greater.
pub fn law_closure_is_weakest()
    ensures { ClosureIsWeakest }
{}

/// A network has at most one closure.
pub fn law_closure_is_one()
    ensures { ClosureIsOne }
{}

/// A closed table of derivable edges is the closure.
pub fn law_closed_and_derivable_is_closure()
    ensures { ClosedAndDerivableIsClosure }
{}

/// A cycle of derivable edges is a cycle of the closure.
pub fn law_cycles_are_in_closures()
    ensures { CyclesAreInClosures }
{}

/// The weight of every node of a derivation list is derivable for its key.
pub fn law_nodes_are_derivable()
    ensures { NodesAreDerivable }
{}

/// The premises of every node of a derivation list stand earlier.
pub fn law_premises_are_earlier()
    ensures { PremisesAreEarlier }
{}

/// Resting is by finite descent: what stands under a node stands no later.
pub fn law_under_is_earlier()
    ensures { UnderIsEarlier }
{}

/// A node whose edge has a label rests on the link of that label.
pub fn law_labelled_rest_on_links()
    ensures { LabelledRestOnLinks }
{}

/// The base nodes and the base table of a network stand on it.
pub fn law_base_stands()
    ensures { BaseStands }
{}

/// A list and a table still stand on their network when a node that follows comes to the list and
/// its edge to the table.
pub fn law_following_keeps_standing()
    ensures { FollowingKeepsStanding }
{}

/// A table that stands on a network with its list holds derivable edges only.
pub fn law_standing_is_derivable()
    ensures { StandingIsDerivable }
{}

/// The table of a list has exactly the keys of its nodes, each at the weight of the node of the
/// key.
pub fn law_tables_match_nodes()
    ensures { TablesMatchNodes }
{}

/// What is found as the node of a key has the weight that the table of the list has for it.
pub fn law_newest_has_the_weight()
    ensures { NewestHasTheWeight }
{}

/// A key has one node at most.
pub fn law_node_of_key_is_one()
    ensures { NodeOfKeyIsOne }
{}
