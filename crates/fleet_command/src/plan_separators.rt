//! The lines between the plans of a fleet.

ghost use Rattle.std.specs.Prelude.{◌≡◌};
ghost use Rattle.texts.specs.Words.{words};
ghost use Rattle.fleet_command.specs.FleetText.{fleet_between, go_line, is_taken, plan_name_line};
ghost use Rattle.fleet_command.specs.PlanOrRefusals.{initial_plan_or_refusal};
ghost use Rattle.fleet_command.specs.PlanOrRefusals.{plan_or_refusal_texts};

use crate::plan_or_refusal::{KeepRefusal, PlanOrRefusal, PlanOrRefusalText};
use command_engine::{Stop, Tested, law_tested_texts_are_read};
use common_answers::{Fault, stop_fault};
use input_texts::PlanText;
use net_model::{FormatKind, Name};
use std::alloc::{AllocError, Global};
use text_sequence::{Separator, Separators};
use texts::{first_word, next_word};

/// How many plans a fleet may have.
pub(crate) const MOST_PLANS: usize = 64;

/// The lines between the plans of a fleet: `plan NAME` opens a plan text, and `go` closes them.
#[derive(Clone, Copy, Debug, PartialEq, Eq)]
pub struct PlanSeparators;

impl Separators for PlanSeparators {
    type Key = Name;

    type Text = PlanOrRefusalText;

    ghost between = { fleet_between };

    ghost initial_text = { initial_plan_or_refusal };

    ghost texts = { plan_or_refusal_texts };

    fn initial(&self, alloc: Global) -> PlanOrRefusalText {
        Tested {
            text: PlanText::new(alloc),
            test: KeepRefusal,
        }
    }

    fn open(
        &self,
        _alloc: Global,
        done: &[(Name, PlanOrRefusal)],
        number: u32,
        line: &[u8],
    ) -> Result<Separator<Name, Fault>, AllocError> {
        let Some((first, rest)) = first_word(line) else {
            return Ok(Separator::Passes);
        };
        if first == b"plan".as_slice() {
            return Ok(open_plan(done, number, rest));
        }
        if first == b"go".as_slice() {
            return Ok(close(number, rest));
        }
        Ok(Separator::Refuses(Fault::Format(number, FormatKind::UnknownWord)))
    }

    fn stop(&self, _done: &[(Name, PlanOrRefusal)], number: u32, stop: Stop) -> Fault {
        stop_fault(number, stop, FormatKind::NoEnd)
    }

    fn reads_by_grammar() {
        law_tested_texts_are_read::<PlanText, KeepRefusal>();
    }
}

/// What stands after `plan`: the name of one more plan.
fn open_plan(done: &[(Name, PlanOrRefusal)], number: u32, line: &[u8]) -> Separator<Name, Fault>
    ensures { result ≡ plan_name_line done.now number (words line.now) }
{
    let Some((word, rest)) = next_word(line) else {
        return Separator::Refuses(Fault::Format(number, FormatKind::WordCount));
    };
    if next_word(rest).is_some() {
        return Separator::Refuses(Fault::Format(number, FormatKind::WordCount));
    }
    let Ok(name) = Name::new(word) else {
        return Separator::Refuses(Fault::Format(number, FormatKind::BadName));
    };
    if is_taken(done, word) {
        return Separator::Refuses(Fault::DuplicatePlan(number));
    }
    if done.len() >= MOST_PLANS {
        return Separator::Refuses(Fault::TooManyPlans(number));
    }
    Separator::Opens(name)
}

/// What stands after `go`: nothing.
fn close(number: u32, line: &[u8]) -> Separator<Name, Fault>
    ensures { result ≡ go_line number (words line.now) }
{
    match next_word(line) {
        None => Separator::Closes,
        Some(_) => Separator::Refuses(Fault::Format(number, FormatKind::WordCount)),
    }
}

/// Whether a plan of this name stands before.
fn is_taken(done: &[(Name, PlanOrRefusal)], name: &[u8]) -> bool
    ensures { result ≡ is_taken done.now name.now }
{
    done.iter().any(|plan| name == plan.0.bytes())
}
