//! The commands `play` and `forge`: a plan that is read, or drawn, and its schedule in a situation.
#![tactic(auto)]

mod forged_network;
mod laws;
mod plan_day;
mod which_situation;

pub use forged_network::{Forge, ForgeWords};
pub use laws::{
    law_forge_is_lawful, law_forge_is_read_exactly, law_play_is_lawful, law_play_is_read_exactly,
};
pub use plan_day::{Play, PlayWords};
pub use which_situation::WhichSituation;
