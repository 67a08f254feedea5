//! The parts of a forged network.

ghost use Rattle.std.specs.Prelude.{◌≡◌, true, ◌++◌, ◌≤◌, ◌<◌, ◌^◌, length, map, sum, IfOk, OnOk};
ghost use Rattle.std.specs.List.{All};
ghost use Rattle.std.specs.Fmt.{decimal};
ghost use Rattle.net_model.specs.Names.{is_name};
ghost use Rattle.situation_player.specs.ForgedParts.{is_one_letter, most_tasks, task_points};
ghost use Rattle.situation_player.specs.ForgedParts.{task_parts, next_parts, parts_from};
ghost use Rattle.situation_player.specs.ForgedParts.{deadline_part, parts_of_tasks};
ghost use Rattle.situation_player.specs.Tasks.{IsSmall};
ghost use Rattle.situation_player.specs.declared.tasks.Task.{Task};

use crate::tasks::Task;
use net_model::{Name, Part};
use std::alloc::{AllocError, Global};

/// The greatest number of tasks of a forged network.
pub const MOST_TASKS: u32 = 333;

/// The parts of tasks, of which there is one at least: their points, their links with the bounds of
/// their watches, the bounds from each to the next, and the deadline, which is cut by so much.
pub(crate) fn parts_of_tasks(
    alloc: Global,
    tasks: &[Task],
    cut: u32,
) -> Result<Vec<Part>, AllocError>
    requires some { 1 ≤ length tasks.now }
    requires few { length tasks.now ≤ most_tasks }
    requires small { All IsSmall tasks.now }
    ensures { IfOk result (λ parts. parts.items ≡ parts_of_tasks tasks.now cut) }
{
    let mut parts = Vec::new(alloc);
    push_points(alloc, &mut parts, tasks)?;
    push_tasks(alloc, &mut parts, tasks)?;
    push_nexts(alloc, &mut parts, &tasks[..tasks.len() - 1])?;
    parts.push(deadline(alloc, tasks, cut)?)?;
    Ok(parts)
}

/// Adds the points of each task.
fn push_points(alloc: Global, parts: &mut Vec<Part>, tasks: &[Task]) -> Result<(), AllocError>
    requires { length tasks.now ≤ most_tasks }
    ensures { OnOk result (parts.new.items ≡ parts.old.items ++ parts_from
        (λ i task. task_points i) 1 tasks.now) }
{
    for k in 0..tasks.len() {
        push_task_points(alloc, parts, k as u32 + 1)?;
    }
    Ok(())
}

/// Adds the points of a task.
fn push_task_points(alloc: Global, parts: &mut Vec<Part>, i: u32) -> Result<(), AllocError>
    ensures { OnOk result (parts.new.items ≡ parts.old.items ++ task_points i) }
{
    parts.push(Part::Point(name(alloc, "s", i)?))?;
    parts.push(Part::Point(name(alloc, "e", i)?))?;
    parts.push(Part::Point(name(alloc, "w", i)?))?;
    Ok(())
}

/// Adds the link of each task, and the bounds of its watch.
fn push_tasks(alloc: Global, parts: &mut Vec<Part>, tasks: &[Task]) -> Result<(), AllocError>
    requires { length tasks.now ≤ most_tasks }
    ensures { OnOk result (parts.new.items ≡ parts.old.items ++ parts_from task_parts 1 tasks.now) }
{
    for (k, task) in tasks.iter().enumerate() {
        push_task(alloc, parts, k as u32 + 1, task)?;
    }
    Ok(())
}

/// Adds the link of a task, and the bounds of its watch.
fn push_task(alloc: Global, parts: &mut Vec<Part>, i: u32, task: &Task) -> Result<(), AllocError>
    ensures { OnOk result (parts.new.items ≡ parts.old.items ++ task_parts i task.now) }
{
    let start = name(alloc, "s", i)?;
    let end = name(alloc, "e", i)?;
    let watch = name(alloc, "w", i)?;
    let before = name(alloc, "v", i)?;
    let after = name(alloc, "u", i)?;
    parts.push(Part::Link(start, task.low.into(), task.high.into(), end))?;
    parts.push(Part::Bound(before, watch, end, task.early.into()))?;
    parts.push(Part::Bound(after, end, watch, task.late.into()))?;
    Ok(())
}

/// Adds the bounds from each task to the next.
fn push_nexts(alloc: Global, parts: &mut Vec<Part>, tasks: &[Task]) -> Result<(), AllocError>
    requires { length tasks.now ≤ most_tasks }
    ensures { OnOk result (parts.new.items ≡ parts.old.items ++ parts_from next_parts 1 tasks.now) }
{
    for (k, task) in tasks.iter().enumerate() {
        push_next(alloc, parts, k as u32 + 1, task)?;
    }
    Ok(())
}

/// Adds the bounds from a task to the next.
fn push_next(alloc: Global, parts: &mut Vec<Part>, i: u32, task: &Task) -> Result<(), AllocError>
    requires { i < 2 ^ 31 }
    ensures { OnOk result (parts.new.items ≡ parts.old.items ++ next_parts i task.now) }
{
    let end = name(alloc, "e", i)?;
    let next = name(alloc, "s", i + 1)?;
    let order = name(alloc, "g", i)?;
    let slack = name(alloc, "h", i)?;
    parts.push(Part::Bound(order, next, end, 0))?;
    parts.push(Part::Bound(slack, end, next, task.slack.into()))?;
    Ok(())
}

/// The deadline: from the first start to the last end.
fn deadline(alloc: Global, tasks: &[Task], cut: u32) -> Result<Part, AllocError>
    requires few { length tasks.now ≤ most_tasks }
    requires small { All IsSmall tasks.now }
    ensures { IfOk result (λ part. part ≡ deadline_part tasks.now cut) }
{
    let start = name(alloc, "s", 1)?;
    let end = name(alloc, "e", tasks.len() as u32)?;
    let most = i64::from(longest_together(tasks)) - i64::from(cut);
    Ok(Part::Bound(named(b"dl"), start, end, most))
}

/// The longest durations of tasks, together.
fn longest_together(tasks: &[Task]) -> u32
    requires { sum (map (λ (task : Task). task.high) tasks.now) < 2 ^ 32 }
    ensures { result ≡ sum (map (λ (task : Task). task.high) tasks.now) }
{
    tasks.iter().map(|task| task.high).sum()
}

/// The name that is a letter with a number.
fn name(alloc: Global, letter: &str, number: u32) -> Result<Name, AllocError>
    requires { is_one_letter letter.now ≡ true }
    ensures { IfOk result (λ name. name ≡ letter.now ++ decimal number) }
{
    let text = format!(in alloc; "{letter}{number}")?;
    Ok(named(text.as_bytes()))
}

/// The name that a text is.
fn named(text: &[u8]) -> Name
    requires { is_name text.now ≡ true }
    ensures { result ≡ text.now }
{
    match Name::new(text) {
        Ok(name) => name,
        Err(_) => unreachable!(),
    }
}
