//! Laws about shared cells, each the contract of a function without parameters.

ghost use Rattle.cell_table.specs.CellHistory.{StepsAreTableHistories};
ghost use Rattle.cell_table.specs.Laws.{SettlesAsItCloses, SettlesExactly};

/// After every list of steps of cells, of any seats in any order, the words show a table of a
/// history (`TableHistory`), whose edges are derivable, and what each seat that is live has noted
/// holds of it. By this rule `atomic_table` makes each step of the program too.
pub fn law_steps_are_table_histories()
    ensures { StepsAreTableHistories }
{}

/// A network settles to its closure exactly if this has no cycle of negative ordinary edges, and
/// else to a cycle of it.
pub fn law_settles_exactly()
    ensures { SettlesExactly }
{}

/// A network settles to what it closes to without shared cells. `law_closing_decides` of
/// network_closure says what that tells of the network.
pub fn law_settles_as_it_closes()
    ensures { SettlesAsItCloses }
{}
