//! How often streams were refused, by the cause.

use execution_model::Why;

/// How many streams were refused for each cause.
#[derive(Clone, Copy, Debug, Default)]
pub(crate) struct Refusals {
    not_later: u32,
    not_contingent: u32,
    twice: u32,
    not_active: u32,
    too_soon: u32,
    overdue: u32,
    moment_limit: u32,
}

/// Counts one more refusal for a cause.
fn add_one(count: &mut u32) {
    *count = count.saturating_add(1);
}

impl Refusals {
    pub(crate) fn count(&mut self, why: Why) {
        match why {
            Why::NotLater(_) => add_one(&mut self.not_later),
            Why::NotContingent(_) => add_one(&mut self.not_contingent),
            Why::Twice(_, _) => add_one(&mut self.twice),
            Why::NotActive(_) => add_one(&mut self.not_active),
            Why::TooSoon(_, _) => add_one(&mut self.too_soon),
            Why::Overdue(_, _) => add_one(&mut self.overdue),
            Why::MomentLimit => add_one(&mut self.moment_limit),
        }
    }

    /// How many for the cause that came least often.
    pub(crate) fn fewest(&self) -> u32 {
        self.not_later
            .min(self.not_contingent)
            .min(self.twice)
            .min(self.not_active)
            .min(self.too_soon)
            .min(self.overdue)
            .min(self.moment_limit)
    }
}
