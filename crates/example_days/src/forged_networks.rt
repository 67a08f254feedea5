//! What the generator draws, and the networks that are forged from it.

use example_plans::network;
use plan_format::print_plan;
use situation_player::{Generator, Task, forge};
use std::alloc::Global;
use std::process::Abort;
use std::test::Fail;

/// Starts of the generator, with its first six draws below 32,768, and the task and the cut that
/// are drawn from the start.
const DRAWS: [(u32, [u32; 6], [u32; 6]); 2] = [
    (
        9,
        [20472, 11155, 11119, 13471, 22102, 13534],
        [13, 28, 9, 11, 2, 0],
    ),
    (
        7,
        [19564, 9806, 10868, 22674, 32531, 3365],
        [5, 11, 8, 14, 1, 1],
    ),
];

/// Numbers with counts of tasks, and the lines of the plan that is forged from them.
const FORGED: [(u32, u32, &str); 4] = [
    (
        9,
        1,
        "point s1|point e1|point w1|bound v1 w1 e1 11|bound u1 e1 w1 2|bound dl s1 e1 28|link s1 13 28 e1",
    ),
    (
        7,
        1,
        "point s1|point e1|point w1|bound v1 w1 e1 14|bound u1 e1 w1 1|bound dl s1 e1 10|link s1 5 11 e1",
    ),
    (
        9,
        2,
        "point s1|point e1|point w1|point s2|point e2|point w2|bound v1 w1 e1 11|bound u1 e1 w1 2|bound v2 w2 e2 5|bound u2 e2 w2 0|bound g1 s2 e1 0|bound h1 e1 s2 9|bound dl s1 e2 59|link s1 13 28 e1|link s2 15 32 e2",
    ),
    (
        2147483647,
        3,
        "point s1|point e1|point w1|point s2|point e2|point w2|point s3|point e3|point w3|bound v1 w1 e1 18|bound u1 e1 w1 3|bound v2 w2 e2 12|bound u2 e2 w2 4|bound v3 w3 e3 16|bound u3 e3 w3 4|bound g1 s2 e1 0|bound h1 e1 s2 2|bound g2 s3 e2 0|bound h2 e2 s3 3|bound dl s1 e3 49|link s1 10 19 e1|link s2 7 7 e2|link s3 14 23 e3",
    ),
];

#[test]
fn draws_are_those_of_the_generator(rt: HostRuntime) -> Result<(), Fail> {
    for (start, draws, task) in DRAWS {
        try_draws(&rt, start, draws, task);
    }
    Ok(())
}

fn try_draws(rt: &impl Abort, start: u32, draws: [u32; 6], expected: [u32; 6]) {
    let mut generator = Generator::new(start);
    for drawn in draws {
        assert_eq!(rt; generator.draw(32_768), drawn);
    }
    let mut generator = Generator::new(start);
    let task = Task::draw(&mut generator);
    let cut = generator.draw(2);
    assert_eq!(rt;
        [task.low, task.high, task.slack, task.early, task.late, cut],
        expected
    );
}

#[test]
fn networks_are_forged(rt: HostRuntime) -> Result<(), Fail> {
    for (number, tasks, plan) in FORGED {
        try_forged(&rt, rt.alloc(), number, tasks, plan)?;
    }
    Ok(())
}

fn try_forged(
    rt: &impl Abort,
    alloc: Global,
    number: u32,
    tasks: u32,
    plan: &str,
) -> Result<(), Fail> {
    let forged = forged(alloc, number, tasks)?;
    let expected = printed(alloc, plan)?;
    assert_eq!(rt; forged.as_slice(), expected.as_slice(), "{plan}");
    Ok(())
}

/// The text of a forged network.
fn forged(alloc: Global, number: u32, tasks: u32) -> Result<Vec<u8>, Fail> {
    if !(1..=333).contains(&tasks) {
        return Err(Fail::from("no such count"));
    }
    let net = forge(alloc, number, tasks)?;
    Ok(print_plan(alloc, &net)?)
}

/// The text of the network of the lines of a plan.
fn printed(alloc: Global, plan: &str) -> Result<Vec<u8>, Fail> {
    let net = network(alloc, plan)?;
    Ok(print_plan(alloc, &net)?)
}
