//! A plan in an input, as a plan text or as a JSON document.

ghost use Rattle.std.specs.Prelude.{◌≡◌};
ghost use Rattle.input_texts.specs.PlanInput.{initial_in};

use crate::delay::Delay;
use crate::plan_document::{BuildDocument, PlanDocument};
use crate::plan_text::{BuildPlan, PlanText};
use command_engine::{Either, Tested};
use std::alloc::Global;

/// How a plan is written.
#[derive(Clone, Copy, Debug, PartialEq, Eq)]
pub enum Notation {
    /// A plan text.
    Text,
    /// A JSON document, up to the first line whose only word is `end`.
    Json,
}

impl Notation {
    ghost use Rattle.std.specs.Prelude.{◌≡◌};
    ghost use Rattle.input_texts.specs.PlanInput.{notation_by};

    /// The notation by whether it is that of documents.
    pub fn of(json: bool) -> Notation
        ensures { result ≡ notation_by json }
    {
        if json { Notation::Json } else { Notation::Text }
    }
}

/// The form in which a plan is given.
#[derive(Clone, Copy, Debug, PartialEq, Eq)]
pub struct PlanForm {
    /// How it is written.
    pub notation: Notation,
    /// The requested delay.
    pub delay: Delay,
}

/// A plan of either notation, and how far it was read. It says the network that it declares; if its
/// parts build none, it is refused as a whole, at its last line.
pub type NotedPlan = Either<Tested<PlanText, BuildPlan>, Tested<PlanDocument, BuildDocument>>;

/// A plan of either notation, for which a delay may be requested that is not its own.
pub type PlanInput = Tested<NotedPlan, Delay>;

impl PlanForm {
    ghost use Rattle.std.specs.Prelude.{◌≡◌};
    ghost use Rattle.input_texts.specs.PlanInput.{form_by, initial_input};

    /// The form by whether the flag `--json` is given, and the requested delay.
    pub fn of(json: bool, delay: Delay) -> PlanForm
        ensures { result ≡ form_by json delay }
    {
        PlanForm {
            notation: Notation::of(json),
            delay,
        }
    }

    /// A plan of this form before the first line.
    pub fn initial(self, alloc: Global) -> PlanInput
        ensures { result ≡ initial_input self }
    {
        Tested {
            text: noted_plan(alloc, self.notation),
            test: self.delay,
        }
    }
}

/// A plan of this notation before the first line.
fn noted_plan(alloc: Global, notation: Notation) -> NotedPlan
    ensures { result ≡ initial_in notation }
{
    match notation {
        Notation::Text => Either::Left(Tested {
            text: PlanText::new(alloc),
            test: BuildPlan,
        }),
        Notation::Json => Either::Right(Tested {
            text: PlanDocument::new(alloc),
            test: BuildDocument,
        }),
    }
}
