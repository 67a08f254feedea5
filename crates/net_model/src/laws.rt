//! Laws about the rules, about edits and about shown forms, each the contract of a function without
//! parameters.

ghost use Rattle.net_model.specs.Laws.{ExactMayBeStated};
ghost use Rattle.net_model.specs.EditLaws.{EditsKeepSound, EditsChangeByNames};
ghost use Rattle.net_model.specs.ShownLaws.{ShownFormsAreSound, ShownNumbersAreNear};
ghost use Rattle.net_model.specs.ShownLaws.{ShownWithoutDelayIsSame};

/// A certificate may state every edge that an exact rule derives from edges of the network.
pub fn law_exact_may_be_stated()
    ensures { ExactMayBeStated }
{}

/// What an accepted edit, whose names are names, makes of a sound network is sound. What an
/// accepted edit makes has the numbers of a plan if the network has them.
pub fn law_edits_keep_sound()
    ensures { EditsKeepSound }
{}

/// An accepted edit of a sound network changes, by names, just what it says: all else keeps its
/// name, its ends, its numbers and its order, and the network its delay.
pub fn law_edits_change_by_names()
    ensures { EditsChangeByNames }
{}

/// The shown form of a sound network is sound.
pub fn law_shown_forms_are_sound()
    ensures { ShownFormsAreSound }
{}

/// No number of the shown form exceeds the greatest of the network by more than the delay.
pub fn law_shown_numbers_are_near()
    ensures { ShownNumbersAreNear }
{}

/// A network with a delay of 0 is its own shown form.
pub fn law_shown_without_delay_is_same()
    ensures { ShownWithoutDelayIsSame }
{}
