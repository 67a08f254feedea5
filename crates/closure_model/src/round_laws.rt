//! Laws about rows and rounds, each the contract of a function without parameters.

ghost use Rattle.closure_model.specs.ReferenceRow.{FirstIsNext, RowsAreLeast, RowsStayWithin};
ghost use Rattle.closure_model.specs.ReferenceRounds.{RoundsEndInOneWay, RoundsKeepStanding};
ghost use Rattle.closure_model.specs.ReferenceRounds.{RoundsStand, RoundsThatCloseGiveTheClosure};
ghost use Rattle.closure_model.specs.DeltaEdges.{RowsAreSaturatedAfterARound, UnimprovedWereThere};
ghost use Rattle.closure_model.specs.DeltaEdges.{UnstaleRowsMakeNothing};
ghost use Rattle.closure_model.specs.RoundLaws.{ClosuresAreOfRounds, RoundsAlwaysEnd, RoundsAreFew};
ghost use Rattle.closure_model.specs.RoundLaws.{RowsNeedImprovedRows, UnstaleRowsStay};

/// Whatever slot of a row is first of those that can be settled, it is the one that is settled
/// next. So a body that keeps the slots in a heap has to show this alone.
pub fn law_first_is_next()
    ensures { FirstIsNext }
{}

/// The reference row is the least row: each of its weights is derivable in the row, each weight
/// that is derivable there is at least it, and nothing but the keys that improved changes. Each key
/// improves once, and no weight of what improved is below the one before it.
pub fn law_rows_are_least()
    ensures { RowsAreLeast }
{}

/// Whatever is derivable in a row against a table whose weights are from -M to M is from -M to M,
/// where M is the greatest size of a number of the network.
pub fn law_rows_stay_within()
    ensures { RowsStayWithin }
{}

/// A round keeps what stands on a network standing on it, so every entry stays derivable; and no
/// weight rises.
pub fn law_rounds_keep_standing()
    ensures { RoundsKeepStanding }
{}

/// Whatever rounds make stands on the network, and no weight rises.
pub fn law_rounds_stand()
    ensures { RoundsStand }
{}

/// Rounds that close give the closure.
pub fn law_rounds_that_close()
    ensures { RoundsThatCloseGiveTheClosure }
{}

/// Rounds end in one way.
pub fn law_rounds_end_in_one_way()
    ensures { RoundsEndInOneWay }
{}

/// An edge that did not improve in a round was there before, so it is no delta edge.
pub fn law_unimproved_were_there()
    ensures { UnimprovedWereThere }
{}

/// After a round the table has whatever follows from its edges, at a weight that is no greater, but
/// for what follows with a delta edge as first premise: an ordinary edge that is new, or whose
/// weight, counted as 0 if it is below, was lowered.
pub fn law_rows_are_saturated_after_a_round()
    ensures { RowsAreSaturatedAfterARound }
{}

/// A row that is saturated but for delta edges as first premises makes nothing if no delta edge
/// ends where a negative edge of the row begins.
pub fn law_unstale_rows_make_nothing()
    ensures { UnstaleRowsMakeNothing }
{}

/// After a round the row of a target makes nothing unless something improved in that round in the
/// row of a point from which a negative ordinary edge goes to the target.
pub fn law_rows_need_improved_rows()
    ensures { RowsNeedImprovedRows }
{}

/// A row that is not stale after the points in whose rows something improved in a round makes
/// nothing in the next one.
pub fn law_unstale_rows_stay()
    ensures { UnstaleRowsStay }
{}

/// Rounds are at most one more than the points: a row in which something improves after so many
/// rounds ends a walk of as many negative ordinary edges, and if there is no cycle such a walk has
/// no point twice.
pub fn law_rounds_are_few()
    ensures { RoundsAreFew }
{}

/// Rounds end, from whatever stands on a network.
pub fn law_rounds_always_end()
    ensures { RoundsAlwaysEnd }
{}

/// If the closure of a network has an order, the rounds from its base close, with the closure and
/// the order that they seek; however the closure was made.
pub fn law_closures_are_of_rounds()
    ensures { ClosuresAreOfRounds }
{}
