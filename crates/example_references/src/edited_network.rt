//! A network before and after an edit.

use net_model::{Edit, Network};

/// A network, an edit, and the network after it.
#[derive(Drop)]
pub struct Edited<'a> {
    pub before: &'a Network,
    pub edit: &'a Edit,
    pub after: &'a Network,
}
