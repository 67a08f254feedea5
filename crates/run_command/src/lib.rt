//! The command `run`: a plan, and after it lines of events, over which its network is executed.
#![tactic(auto)]

mod feeders;
mod laws;
mod plan_execution;

pub use laws::{
    law_feeders_decide_nothing, law_feeders_put_the_lines_in_order, law_orders_decide_nothing,
    law_run_is_lawful, law_run_is_read_exactly,
};
pub use plan_execution::Run;
