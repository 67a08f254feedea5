//! Laws about keys and tables, each the contract of a function without parameters.

ghost use Rattle.closure_model.specs.TableLaws.{AllKeysAreListed, EdgesAreListed, RowsAreListed};
ghost use Rattle.closure_model.specs.TableLaws.{TablesHoldTheLeast, BaseTableIsWeakest};
ghost use Rattle.closure_model.specs.TableLaws.{ForwardClosedTablesHaveTheBase};

/// The keys that there are stand in the list of all keys, in their order, each once.
pub fn law_all_keys_are_listed()
    ensures { AllKeysAreListed }
{}

/// The listed edges of a table are those that it has.
pub fn law_edges_are_listed()
    ensures { EdgesAreListed }
{}

/// The edges of a sound table, and those of each of its rows, are what it has at the keys in their
/// order.
pub fn law_rows_are_listed()
    ensures { RowsAreListed }
{}

/// The table of a list of edges has exactly the least of each key.
pub fn law_tables_hold_the_least()
    ensures { TablesHoldTheLeast }
{}

/// The base table of a network is a sound table and the weakest one that has the base edges.
pub fn law_base_table_is_weakest()
    ensures { BaseTableIsWeakest }
{}

/// A forward closed table has the base edges.
pub fn law_forward_closed_tables_have_the_base()
    ensures { ForwardClosedTablesHaveTheBase }
{}
