//! Laws of plans in an input, each the contract of a function without parameters.

ghost use Rattle.std.specs.Prelude.{ℕ};
ghost use Rattle.input_texts.specs.BuiltPlans.{DocumentsAreRefusedByTheirFaults};
ghost use Rattle.input_texts.specs.PlanInput.{PlansHaveTheRequestedDelay};
ghost use Rattle.input_texts.specs.PlanTexts.{AreAsTheFormatSays};

/// Wherever a plan text stands in an input, its grammar declares just the networks that the format
/// says, and it is refused as a whole by its first part that is refused, in the line of that.
pub fn law_plan_texts_are_as_the_format_says()
    ensures { (past : ℕ) → AreAsTheFormatSays past }
{}

/// A document is refused as a whole by its fault: its bytes have no reading, or it is that of the
/// document, or a part is refused, reported by its place.
pub fn law_documents_are_refused_by_their_faults()
    ensures { DocumentsAreRefusedByTheirFaults }
{}

/// Lines declare as a plan of a form just the networks that they declare as a plan of its notation,
/// with the requested delay, if there is one, in place of the plan's own.
pub fn law_plans_have_the_requested_delay()
    ensures { PlansHaveTheRequestedDelay }
{}
