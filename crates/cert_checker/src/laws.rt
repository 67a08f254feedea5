//! Laws about the judgement of certificates, each the contract of a function without parameters.

ghost use Rattle.cert_checker.specs.Laws.{AcceptedControls, AcceptedExcludes, PassedLinesAreTrue};
ghost use Rattle.cert_checker.specs.Laws.{RefusalsAreOfOneLine, TablesAreRefusedAtTheFirstLine};

use strategy_model::laws;
use strategy_model::laws::{dispatch, shown};

/// Each rule line that passes is true of every strategy that controls the network.
pub fn law_passed_lines_are_true()
    ensures { PassedLinesAreTrue }
{
    laws::law_rules_keep_edges();
    laws::law_derivations_are_true();
    shown::law_control_is_shown();
    shown::law_truth_is_shown();
    shown::law_shown_form_is_instant();
}

/// An accepted refutation excludes every strategy that controls the network, whoever wrote it.
pub fn law_accepted_excludes()
    ensures { AcceptedExcludes }
{
    laws::law_rules_keep_edges();
    laws::law_refutations_exclude_strategies();
    shown::law_controllable_is_shown();
    shown::law_shown_form_is_instant();
}

/// An accepted table proof gives a strategy that controls the network, whoever wrote it. It rests
/// on what closed lists with an order give (strategy_model), and on nothing of the engine.
pub fn law_accepted_controls()
    ensures { AcceptedControls }
{
    dispatch::law_forward_lists_give_strategies();
    shown::law_controllable_is_shown();
    shown::law_shown_form_is_instant();
}

/// A refused refutation is refused at the first rule line that does not pass, by its own first test
/// that fails, with the numbers of that line; or every rule line passes and the walk does not, and
/// a total that is named is the sum of the weights of its steps, and not negative.
pub fn law_refusals_are_of_one_line()
    ensures { RefusalsAreOfOneLine }
{}

/// A refused table proof names the first line that does not pass a test, if all pass the tests
/// before it; or line 0, if the edge of a bound or a link is missing, with the first of these, or
/// if a point is missing in the order.
pub fn law_tables_are_refused_at_the_first_line()
    ensures { TablesAreRefusedAtTheFirstLine }
{}
