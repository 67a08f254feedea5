//! Strong controllability: whether one schedule of the executable points is right in every
//! situation.
#![tactic(auto)]

mod answer;
mod certificate_judge;
mod certificates;
mod chain;
mod judgement;
pub mod laws;
mod least_schedule;
mod lines;
mod lookup;
mod ring;

pub use answer::Strong;
pub use certificate_judge::judge_strong;
pub use judgement::StrongJudgement;
pub use least_schedule::strong;
