//! Laws about the histories of a table that several workers share, each the contract of a function
//! without parameters.

ghost use Rattle.shared_table_laws.specs.LaterNodes.{LaterNodesImprove};
ghost use Rattle.shared_table_laws.specs.TableHistory.{HistoriesAreDerivable};
ghost use Rattle.shared_table_laws.specs.TableHistory.{SettledHistoriesGiveTheClosure};
ghost use Rattle.shared_table_laws.specs.TableHistory.{RoundsAreHistories, RoundsThatCloseSettle};
ghost use Rattle.shared_table_laws.specs.TableHistory.{StaleReadsMayBeUsed};
ghost use Rattle.shared_table_laws.specs.NodeRules.{NodesComeByTheirRules};
ghost use Rattle.shared_table_laws.specs.NodeRules.{RoundHistoriesAreHistories};

/// If the first table holds derivable edges only, so does the table of every history, and what was
/// read is derivable.
pub fn law_histories_are_derivable()
    ensures { HistoriesAreDerivable }
{}

/// If the first table is for the network, and holds derivable edges only, the final table of every
/// settled history is the closure, whatever was read early or late.
pub fn law_settled_histories_give_the_closure()
    ensures { SettledHistoriesGiveTheClosure }
{}

/// Rounds are a history of the table from which they start, with a worker for each row: the edges
/// of the new nodes are relaxed in the order of the list, each follows from what the worker of its
/// row read, and each lowers its key.
pub fn law_rounds_are_histories()
    ensures { RoundsAreHistories }
{}

/// Each node of a round comes by its own rule, from the edges of its own premises, which the worker
/// of its row read before: a first premise at the weight that its key had before the round, a
/// premise in the row at the weight that its key then has.
pub fn law_nodes_come_by_their_rules()
    ensures { NodesComeByTheirRules }
{}

/// A history of one round is a history of its table with the same reads: each node that comes is a
/// step in which the worker of its row relaxes its edge.
pub fn law_round_histories_are_histories()
    ensures { RoundHistoriesAreHistories }
{}

/// Rounds that close are a settled history of the table from which they start. No law says that any
/// other history becomes settled.
pub fn law_rounds_that_close_settle()
    ensures { RoundsThatCloseSettle }
{}

/// A worker may use a weight that its key no longer has: what follows from it is relaxed when the
/// key has a lesser one.
pub fn law_stale_reads_may_be_used()
    ensures { StaleReadsMayBeUsed }
{}

/// The nodes that a history of rounds adds come after those before it, and each has a weight below
/// that of every earlier node of its key: nothing that stands is derived again.
pub fn law_later_nodes_improve()
    ensures { LaterNodesImprove }
{}
