//! Executions over streams of completions, tried as tests: an executor that steps through every
//! moment, on lists, whose contracts are the definitions; tables of streams; and the executor
//! compared with the slow one on many streams.
#![tactic(auto)]

#[cfg(test)]
mod answer_words;
#[cfg(test)]
mod comparison;
#[cfg(test)]
mod days;
#[cfg(test)]
mod lists;
#[cfg(test)]
mod live;
#[cfg(test)]
mod moment_completions;
#[cfg(test)]
mod plans;
#[cfg(test)]
mod refusals;
#[cfg(test)]
mod slow_executor;
#[cfg(test)]
mod streams;
#[cfg(test)]
mod time_steps;
