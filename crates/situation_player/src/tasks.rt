//! The tasks of a forged network.

ghost use Rattle.std.specs.Prelude.{◌≡◌, ◌*◌, IfOk, OnOk};
ghost use Rattle.situation_player.specs.Generator.{state_after};
ghost use Rattle.situation_player.specs.Tasks.{task_from, tasks_drawn};

use crate::generator::Generator;
use std::alloc::{AllocError, Global};

/// A task of a forged network, in whole moments.
#[derive(Clone, Copy, Debug, PartialEq, Eq)]
pub struct Task {
    /// The shortest duration of its link.
    pub low: u32,
    /// The longest duration of its link.
    pub high: u32,
    /// How long after its end the next task starts at most.
    pub slack: u32,
    /// How long after its watch its end comes at most.
    pub early: u32,
    /// How long after its end its watch comes at most.
    pub late: u32,
}

impl Task {
    /// Draws a task, by five draws.
    pub fn draw(generator: &mut Generator) -> Task
        ensures task { result ≡ task_from generator.old.state }
        ensures state { generator.new.state ≡ state_after generator.old.state 5 }
    {
        let low = 1 + generator.draw(20);
        let high = low + generator.draw(20);
        let slack = generator.draw(10);
        let early = generator.draw(20);
        let late = generator.draw(5);
        Task {
            low,
            high,
            slack,
            early,
            late,
        }
    }
}

/// Draws tasks, one after another.
pub(crate) fn draw_tasks(
    alloc: Global,
    generator: &mut Generator,
    count: u32,
) -> Result<Vec<Task>, AllocError>
    ensures tasks { IfOk result (λ tasks. tasks.items ≡ tasks_drawn generator.old.state count) }
    ensures state { OnOk result (generator.new.state ≡ state_after generator.old.state
        (5 * count)) }
{
    let mut tasks = Vec::new(alloc);
    for _ in 0..count {
        tasks.push(Task::draw(generator))?;
    }
    Ok(tasks)
}
