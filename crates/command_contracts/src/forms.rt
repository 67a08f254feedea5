//! The form of a plan, as words say it: its notation and the requested delay.

ghost use Rattle.std.specs.Prelude.{◌≡◌, option_map};
ghost use Rattle.command_contracts.specs.PlanWords.{delay_given, form_given};

use crate::counts::number_within;
use input_texts::{Delay, PlanForm};
use net_model::MOST_DELAY;

/// The form of a plan, by whether the flag `--json` is given, and the value of the option
/// `--delay`, if it is given; `None` if that is no number from 0 to 1,000,000.
pub fn form_given(json: bool, delay: Option<&str>) -> Option<PlanForm>
    ensures { result ≡ form_given json (option_map (λ text. text.now) delay.entry) }
{
    Some(PlanForm::of(json, delay_given(delay)?))
}

/// The requested delay: the plan's own if the option is not given.
fn delay_given(value: Option<&str>) -> Option<Delay>
    ensures { result ≡ delay_given (option_map (λ text. text.now) value.entry) }
{
    match value {
        None => Some(Delay::Own),
        Some(word) => {
            let moments = number_within(word.as_bytes(), u64::from(MOST_DELAY))?;
            Some(Delay::Moments(moments as u32))
        }
    }
}
