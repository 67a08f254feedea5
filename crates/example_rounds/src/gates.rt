//! A gate that is passed only if as many workers make rows at once as there are.

use example_plans::Meeting;
use parallel_rounds::Gate;

/// Blocks each of the first rows, as many as there are workers, until all of these have begun.
#[derive(Drop)]
pub(crate) struct FirstRows(pub(crate) Meeting);

impl Gate for FirstRows {
    fn before(&self, _target: u32) {
        self.0.join();
    }
}
