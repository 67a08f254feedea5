//! What stands after a growth of memory is refused: a broken session that keeps its network, and is
//! whole again after `reopen`. Nothing is refused while the gate runs; `tools/probe failed-growths`
//! refuses one growth after the other from outside.

use example_plans::{edit, network};
use net_model::{Edit, Network};
use parallel_rounds::NoGate;
use plan_session::{AskFault, Session, SessionFault, Verdict};
use std::alloc::{AllocError, Global};
use std::process::Abort;
use std::test::Fail;
use std::thread::Threads;

/// A plan in which a loop runs over a link that no single situation shows; without the second bound
/// it can be kept.
const PLAN: &str = "point A|point C|point D|bound b1 D C 1|bound b2 C D -1|link A 3 8 C";

const EDIT: &str = "drop bound b2";

#[test]
fn refused_growths_break_sessions(rt: HostRuntime) -> Result<(), Fail> {
    let edit = edit(EDIT).ok_or("no edit")?;
    let net = network(rt.alloc(), PLAN)?;
    try_refusals(&rt, rt.alloc(), net, &edit)
}

/// Tries to reopen and to edit a session of a network.
fn try_refusals<R: Abort + Threads + Sync>(
    rt: &R,
    alloc: Global,
    net: Network,
    edit: &Edit,
) -> Result<(), Fail> {
    let mut session = Session::open(rt, alloc, net, 1, &NoGate)?;
    try_session(rt, alloc, &mut session, edit)
}

/// Reopens a session and edits it, each once more if memory was refused, and checks its state.
fn try_session<R: Abort + Threads + Sync>(
    rt: &R,
    alloc: Global,
    session: &mut Session,
    edit: &Edit,
) -> Result<(), Fail> {
    reopen(rt, alloc, session, edit)?;
    assert!(rt; session.verdict() == Verdict::NotControllable);
    apply(rt, alloc, session, edit)?;
    assert!(rt; session.verdict() == Verdict::Controllable);
    assert!(rt; session.network().bound(b"b2").is_none());
    Ok(())
}

fn reopen<R: Abort + Threads + Sync>(
    rt: &R,
    alloc: Global,
    session: &mut Session,
    edit: &Edit,
) -> Result<(), Fail> {
    if session.reopen(rt, alloc, &NoGate).is_err() {
        see_broken(rt, alloc, session, edit);
        session.reopen(rt, alloc, &NoGate)?;
    }
    Ok(())
}

fn apply<R: Abort + Threads + Sync>(
    rt: &R,
    alloc: Global,
    session: &mut Session,
    edit: &Edit,
) -> Result<(), Fail> {
    match session.apply(rt, alloc, edit, &NoGate) {
        Ok(_) => Ok(()),
        Err(fault) => {
            assert!(rt; fault == SessionFault::OutOfMemory);
            see_broken(rt, alloc, session, edit);
            apply_again(rt, alloc, session, edit)
        }
    }
}

/// Reopens a broken session and edits it.
fn apply_again<R: Abort + Threads + Sync>(
    rt: &R,
    alloc: Global,
    session: &mut Session,
    edit: &Edit,
) -> Result<(), Fail> {
    session.reopen(rt, alloc, &NoGate)?;
    assert!(rt; session.verdict() == Verdict::NotControllable);
    session.apply(rt, alloc, edit, &NoGate)?;
    Ok(())
}

/// A broken session says so, and has the network of before.
fn see_broken<R: Abort + Threads + Sync>(
    rt: &R,
    alloc: Global,
    session: &mut Session,
    edit: &Edit,
) {
    assert!(rt; session.verdict() == Verdict::Broken);
    assert!(rt; session.apply(rt, alloc, edit, &NoGate) == Err(SessionFault::Broken));
    assert!(rt; matches!(session.certificate(rt, alloc), Err(AskFault::Broken)));
    see_network(rt, session.network());
}

/// The network has all its parts.
fn see_network(rt: &impl Abort, net: &Network) {
    assert!(rt; net.points().len() == 3);
    assert!(rt; net.bounds().len() == 2);
    assert!(rt; net.bound(b"b2").is_some());
    assert!(rt; net.links().len() == 1);
}
