//! A gate that is passed only if so many feeders post at once.

use example_plans::Meeting;
use net_model::LinkId;
use sensor_desk::PostGate;

/// Blocks each of so many first posts until all of these have begun.
#[derive(Drop)]
pub(crate) struct FirstPosts(pub(crate) Meeting);

impl PostGate for FirstPosts {
    fn before(&self, _link: LinkId) {
        self.0.join();
    }
}
