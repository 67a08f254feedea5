//! The workers with which a session was opened: they make the rows after an edit too, and when it
//! is reopened.

use example_plans::{Meeting, edit, network};
use net_model::{Edit, Network};
use parallel_rounds::Gate;
use plan_session::Session;
use std::alloc::Global;
use std::process::Abort;
use std::test::Fail;
use std::thread::Threads;

const PLAN: &str = "point a|point b|bound early b a -2|bound late a b 9";

const EDIT: &str = "set bound late 8";

/// Blocks each row until two have begun.
#[derive(Drop)]
struct Pair(Meeting);

impl Pair {
    fn new() -> Pair {
        Pair(Meeting::of(2))
    }

    /// Whether two rows have begun at once.
    fn was_met(&self) -> bool {
        self.0.met().is_some_and(|begun| begun >= 2)
    }
}

impl Gate for Pair {
    fn before(&self, _target: u32) {
        self.0.arrive();
        self.0.wait();
    }
}

#[test]
fn sessions_keep_their_workers(rt: HostRuntime) -> Result<(), Fail> {
    let edit = edit(EDIT).ok_or("no edit")?;
    let net = network(rt.alloc(), PLAN)?;
    try_workers(&rt, rt.alloc(), net, &edit)
}

/// A session of two workers: each time two rows begin at once.
fn try_workers<R: Abort + Threads + Sync>(
    rt: &R,
    alloc: Global,
    net: Network,
    edit: &Edit,
) -> Result<(), Fail> {
    let gate = Pair::new();
    let mut session = Session::open(rt, alloc, net, 2, &gate)?;
    assert!(rt; gate.was_met(), "opened");
    see_edited(rt, alloc, &mut session, edit)
}

fn see_edited<R: Abort + Threads + Sync>(
    rt: &R,
    alloc: Global,
    session: &mut Session,
    edit: &Edit,
) -> Result<(), Fail> {
    let gate = Pair::new();
    session.apply(rt, alloc, edit, &gate)?;
    assert!(rt; gate.was_met(), "edited");
    see_reopened(rt, alloc, session)
}

fn see_reopened<R: Abort + Threads + Sync>(
    rt: &R,
    alloc: Global,
    session: &mut Session,
) -> Result<(), Fail> {
    let gate = Pair::new();
    session.reopen(rt, alloc, &gate)?;
    assert!(rt; gate.was_met(), "reopened");
    Ok(())
}
