//! Laws about closed tables, each the contract of a function without parameters.

ghost use Rattle.network_closure.specs.Laws.{ClosingDecides};

/// A network in which reaction is instantaneous (`IsInstant`) is controllable exactly if `close`
/// gives a table: some strategy controls it then, and none if it gives none.
pub fn law_closing_decides()
    ensures { ClosingDecides }
{}
