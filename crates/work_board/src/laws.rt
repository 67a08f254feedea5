//! The law of the histories of a board, the contract of a function without parameters.

ghost use Rattle.work_board.specs.BoardRule.{HistoriesKeepTheRule};

/// Every history of a board, of any steps in any order, keeps its rule.
pub fn law_histories_keep_the_rule()
    ensures { HistoriesKeepTheRule }
{}
