//! Executions of a network by a forward closed table of it, which contracts see as its executions
//! by its closure.
#![tactic(auto)]

mod forward_executor;

pub use forward_executor::ForwardExecutor;
