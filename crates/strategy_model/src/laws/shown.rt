//! What the delay changes: laws about the shown form.

ghost use Rattle.strategy_model.specs.ShownLaws.{NoDelayIsInstant, PlaysAreShown, SatisfiesAsShown};
ghost use Rattle.strategy_model.specs.ShownLaws.{SituationsAreShown, ControlIsShown};
ghost use Rattle.strategy_model.specs.ShownLaws.{ControllableIsShown, EarliestIsShown};
ghost use Rattle.strategy_model.specs.ShownLaws.{TruthIsShown, ShownFormIsInstant};
ghost use Rattle.strategy_model.specs.ShownLaws.{ShownRefutationsExclude};

/// If the delay is 0 the plays are those of instantaneous reaction.
pub fn law_no_delay_is_instant()
    ensures { NoDelayIsInstant }
{}

/// The play in the shown form is the play as it is shown, and there is one exactly if there is the
/// other. So the moments of the two differ by the delay at contingent points and nowhere else.
pub fn law_plays_are_shown()
    ensures { PlaysAreShown }
{}

/// A schedule satisfies the network exactly if it satisfies the shown form as it is shown.
pub fn law_satisfies_as_shown()
    ensures { SatisfiesAsShown }
{}

/// The situations of the shown form are those of the network as they are shown.
pub fn law_situations_are_shown()
    ensures { SituationsAreShown }
{}

/// A strategy controls a network exactly if it controls the shown form.
pub fn law_control_is_shown()
    ensures { ControlIsShown }
{}

/// A network is controllable exactly if its shown form is.
pub fn law_controllable_is_shown()
    ensures { ControllableIsShown }
{}

/// The earliest schedules of the shown form are those of the network as they are shown, and the
/// other way round.
pub fn law_earliest_is_shown()
    ensures { EarliestIsShown }
{}

/// An edge holds of the shown moments exactly if it is true in the shown form.
pub fn law_truth_is_shown()
    ensures { TruthIsShown }
{}

/// The shown form of a sound network is one in which reaction is instantaneous: it is sound, and
/// its delay is 0.
pub fn law_shown_form_is_instant()
    ensures { ShownFormIsInstant }
{}

/// A derivation in the shown form and a closed walk of negative total over its edges exclude every
/// strategy that controls the network.
pub fn law_shown_refutations_exclude()
    ensures { ShownRefutationsExclude }
{}
