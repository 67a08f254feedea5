//! Lines of sessions: each edit with what it keeps and withdraws and the rounds that follow, and
//! each question.

ghost use Rattle.std.specs.Prelude.{◌≡◌, ◌<◌, length};

use cert_format::print_certificate;
use dispatch_net::Dispatch;
use edit_script::{Step, read_step};
use example_plans::network_with_delay;
use net_model::{Edit, LinkId, Name, Network, PointId, Weight};
use parallel_rounds::NoGate;
use plan_session::{Session, SessionFault, Verdict};
use std::alloc::Global;
use std::process::Abort;
use std::test::Fail;
use std::thread::Threads;

/// A plan, the lines of a session, and the answers. First a loop that no single situation shows,
/// dropped and added again; a bound whose key returns to an older one; entries that follow from
/// each other and are withdrawn together with what both rest on; a wait that follows its link; a
/// bound that is tightened until it breaks; two bounds of which one is dropped and added again; and
/// the first plan, whose session is reopened as it was opened and as it was edited.
const SESSIONS: [(&str, &str, &str); 7] = [
    (
        "point A|point C|point D|bound b1 D C 1|bound b2 C D -1|link A 3 8 C",
        "verdict|drop bound b2|verdict|add bound b2 C D -1|proof|drop bound zz|proof",
        "not controllable|ok 6 5 1|controllable|ok 6 0 2|certificate 1|refutation|bound b1 D C 1|bound b2 C D -1|link C C A -8|up 1 3 D A C -7|low C 2 A D 2|up 5 4 A A C -5|drop 6 A A -3|walk 7|end|refused unknown-name|certificate 1|refutation|bound b1 D C 1|bound b2 C D -1|link C C A -8|up 1 3 D A C -7|low C 2 A D 2|up 5 4 A A C -5|drop 6 A A -3|walk 7|end|",
    ),
    (
        "point A|point B|bound b1 A B 5|bound b2 A B 3|bound b3 B A -4",
        "proof|drop bound b2|verdict|table",
        "certificate 1|refutation|bound b2 A B 3|bound b3 B A -4|no 1 2 A A -1|walk 3|end|ok 2 2 2|controllable|after B A 4|table end|",
    ),
    (
        "point X|point Y|point Z|bound a X Y 0|bound b Y X 0|bound g X Z -5|bound c Z X 3",
        "verdict|drop bound g|verdict|drop point X|verdict",
        "not controllable|ok 3 3 1|controllable|refused still-used|controllable|",
    ),
    (
        "point A|point C|point D|bound b1 D C 4|link A 3 8 C",
        "proof|table|set link C 3 9|table|set link C 0 9|set bound b1 2|add point E|add bound b2 E D 0|add link A 1 2 C|drop link C|table|add link A 2 2 C|table",
        "certificate 1|table|order A|order C|order D|edge A A 0|edge C A -3|upper C C -8|edge D A -3|upper D C -4|edge D C 4|end|after D A 3|wait D C 4|table end|ok 1 5 2|after D A 3|wait D C 5|table end|refused bad-interval|ok 3 3 2|ok 6 0 1|ok 6 0 2|refused two-links-on-point|ok 2 7 1|table end|ok 2 0 2|table end|",
    ),
    (
        "point leave|point arrive|point meet|bound most leave meet 20|bound early meet arrive -2|link leave 5 15 arrive",
        "verdict|set bound most 18|verdict|set bound most 16|table|proof|set bound most 17|table",
        "controllable|ok 6 4 3|controllable|ok 6 4 2|not controllable|certificate 1|refutation|bound most leave meet 16|bound early meet arrive -2|link arrive arrive leave -15|no 1 2 leave arrive 14|up 4 3 leave leave arrive -1|drop 5 leave leave -1|walk 6|end|ok 6 5 3|after meet leave 5|after meet arrive 2|wait meet arrive 15|table end|",
    ),
    (
        "point A|point B|bound b1 A B 5|bound b2 B A -2",
        "proof|drop bound b2|proof|add bound b2 B A -2|proof",
        "certificate 1|table|order A|order B|edge A A 3|edge B A -2|edge A B 5|end|ok 1 2 1|certificate 1|table|order A|order B|edge A B 5|end|ok 1 0 2|certificate 1|table|order A|order B|edge A A 3|edge B A -2|edge A B 5|end|",
    ),
    (
        "point A|point C|point D|bound b1 D C 1|bound b2 C D -1|link A 3 8 C",
        "verdict|reopen|verdict|proof|drop bound b2|verdict|reopen|verdict|add bound b2 C D -1|reopen|proof|drop bound b2",
        "not controllable|reopened|not controllable|certificate 1|refutation|bound b1 D C 1|bound b2 C D -1|link C C A -8|up 1 3 D A C -7|low C 2 A D 2|up 5 4 A A C -5|drop 6 A A -3|walk 7|end|ok 6 5 1|controllable|reopened|controllable|ok 6 0 2|reopened|certificate 1|refutation|bound b1 D C 1|bound b2 C D -1|link C C A -8|up 1 3 D A C -7|low C 2 A D 2|up 5 4 A A C -5|drop 6 A A -3|walk 7|end|ok 6 5 1|",
    ),
];

/// The same of plans with a delay: a link that makes its point contingent, and so the bound beside
/// it another; a loop that only the delay makes; a link that is set, and the session reopened; and
/// a link that is dropped, by which that from its point gains the delay.
const DELAYED: [(Weight, &str, &str, &str); 4] = [
    (
        1,
        "point A|point C|point D|bound b1 D C 4",
        "add link A 3 8 C|table|verdict|drop link C|verdict",
        "ok 0 1 2|after D A 4|wait D C 4|table end|controllable|ok 0 6 1|controllable|",
    ),
    (
        1,
        "point A|point C|point D|bound e1 C D 0|bound e2 D C 0|link A 3 8 C",
        "verdict|proof|drop link C|verdict|reopen|verdict|add link A 3 8 C|proof",
        "not controllable|certificate 1|refutation|bound e1 C D -1|bound e2 D C 1|link C C A -9|up 2 3 D A C -8|low C 1 A D 3|up 5 4 A A C -5|drop 6 A A -4|walk 7|end|ok 0 11 1|controllable|reopened|controllable|ok 0 2 2|certificate 1|refutation|bound e1 C D -1|bound e2 D C 1|link C C A -9|up 2 3 D A C -8|low C 1 A D 3|up 5 4 A A C -5|drop 6 A A -4|walk 7|end|",
    ),
    (
        1,
        "point A|point C|point D|bound b1 D C 4|link A 3 8 C",
        "table|set link C 3 9|table|reopen|table|proof",
        "after D A 4|wait D C 4|table end|ok 1 5 2|after D A 4|wait D C 5|table end|reopened|after D A 4|wait D C 5|table end|certificate 1|table|order A|order C|order D|edge A A 0|edge C A -4|upper C C -10|edge D A -4|upper D C -5|edge D C 5|end|",
    ),
    (
        2,
        "point A|point C|point D|point E|bound e1 C E 3|bound e2 E D 0|link A 2 4 C|link C 1 2 D",
        "proof|drop link C|verdict|proof|add link A 2 4 C|reopen|proof",
        "certificate 1|table|order A|order C|order D|order E|edge A A 0|edge C A -4|upper C C -6|edge D A -4|upper D C -6|edge E A -4|upper E C -6|edge C C 0|edge D C -1|upper D D -2|edge E C 0|upper E D 0|edge E D 2|edge C E 1|end|ok 1 13 2|controllable|certificate 1|table|order A|order C|order D|order E|edge C C 0|upper C D 1|edge D C -3|upper D D -4|edge E C -2|upper E D -2|edge E D 2|edge C E 3|end|ok 1 7 3|reopened|certificate 1|table|order A|order C|order D|order E|edge A A 0|edge C A -4|upper C C -6|edge D A -4|upper D C -6|edge E A -4|upper E C -6|edge C C 0|edge D C -1|upper D D -2|edge E C 0|upper E D 0|edge E D 2|edge C E 1|end|",
    ),
];

#[test]
fn sessions_answer(rt: HostRuntime) -> Result<(), Fail> {
    for workers in [1, 2, 7, 64] {
        try_sessions(&rt, rt.alloc(), workers)?;
    }
    Ok(())
}

/// A plan with its delay, the lines of a session, and the answers.
#[derive(Clone, Copy)]
struct TestCase<'a> {
    delay: Weight,
    plan: &'a str,
    lines: &'a str,
    expected: &'a str,
}

fn try_sessions<R: Abort + Threads + Sync>(
    rt: &R,
    alloc: Global,
    workers: u32,
) -> Result<(), Fail> {
    for (plan, lines, expected) in SESSIONS {
        let case = TestCase {
            delay: 0,
            plan,
            lines,
            expected,
        };
        try_session(rt, alloc, workers, case)?;
    }
    for (delay, plan, lines, expected) in DELAYED {
        let case = TestCase {
            delay,
            plan,
            lines,
            expected,
        };
        try_session(rt, alloc, workers, case)?;
    }
    Ok(())
}

fn try_session<R: Abort + Threads + Sync>(
    rt: &R,
    alloc: Global,
    workers: u32,
    case: TestCase<'_>,
) -> Result<(), Fail> {
    let net = network_with_delay(alloc, case.plan, case.delay)?;
    let mut session = open(rt, alloc, net, workers)?;
    try_answers(rt, alloc, &mut session, case)?;
    see_delays(rt, session, case.delay);
    Ok(())
}

fn try_answers<R: Abort + Threads + Sync>(
    rt: &R,
    alloc: Global,
    session: &mut Session,
    case: TestCase<'_>,
) -> Result<(), Fail> {
    let mut text = String::new(alloc);
    answer_all(rt, alloc, session, case.lines, &mut text)?;
    see_answers(rt, text.as_str(), case);
    Ok(())
}

fn see_answers(rt: &impl Abort, text: &str, case: TestCase<'_>) {
    assert_eq!(rt;
        text,
        case.expected,
        "{} {}: {}",
        case.delay, case.plan, case.lines
    );
}

/// The network keeps its delay, and its shown form has none.
fn see_delays(rt: &impl Abort, session: Session, delay: Weight) {
    see_delays_of(rt, session.network(), session.shown(), delay);
    let (stated, shown) = session.into_networks();
    see_delays_of(rt, &stated, &shown, delay);
}

fn see_delays_of(rt: &impl Abort, stated: &Network, shown: &Network, delay: Weight) {
    assert!(rt; stated.delay() == delay);
    assert!(rt; shown.delay() == 0);
}

fn open<R: Threads + Sync>(
    rt: &R,
    alloc: Global,
    net: Network,
    workers: u32,
) -> Result<Session, Fail> {
    if workers < 1 || workers > 64 {
        return Err(Fail::from("no such workers"));
    }
    Ok(Session::open(rt, alloc, net, workers, &NoGate)?)
}

fn answer_all<R: Threads + Sync>(
    rt: &R,
    alloc: Global,
    session: &mut Session,
    lines: &str,
    text: &mut String,
) -> Result<(), Fail> {
    for line in lines.split('|') {
        answer(rt, alloc, session, line, text)?;
    }
    Ok(())
}

fn answer<R: Threads + Sync>(
    rt: &R,
    alloc: Global,
    session: &mut Session,
    line: &str,
    text: &mut String,
) -> Result<(), Fail> {
    if line == "reopen" {
        session.reopen(rt, alloc, &NoGate)?;
        return push_line(text, "reopened");
    }
    match read_step(line.as_bytes())? {
        Step::Edit(edit) => push_edit(rt, alloc, session, &edit, text),
        Step::Verdict => push_line(text, verdict_word(session.verdict())),
        Step::Proof => push_proof(rt, alloc, session, text),
        Step::Table => push_table(alloc, session, text),
        _ => Err(Fail::from("no such line")),
    }
}

fn push_line(text: &mut String, line: &str) -> Result<(), Fail> {
    text.push_str(line)?;
    text.push('|')?;
    Ok(())
}

fn verdict_word(verdict: Verdict) -> &'static str {
    match verdict {
        Verdict::Controllable => "controllable",
        Verdict::NotControllable => "not controllable",
        Verdict::Broken => "broken",
    }
}

fn push_edit<R: Threads + Sync>(
    rt: &R,
    alloc: Global,
    session: &mut Session,
    edit: &Edit,
    text: &mut String,
) -> Result<(), Fail> {
    match session.apply(rt, alloc, edit, &NoGate) {
        Ok(report) => {
            Ok(write!(
                text,
                "ok {} {} {}|",
                report.kept, report.withdrawn, report.rounds
            )?)
        }
        Err(SessionFault::Edit(cause)) => Ok(write!(text, "refused {cause}|")?),
        Err(fault) => Err(fault.into()),
    }
}

fn push_proof<R: Threads + Sync>(
    rt: &R,
    alloc: Global,
    session: &Session,
    text: &mut String,
) -> Result<(), Fail> {
    let certificate = session.certificate(rt, alloc)?;
    let printed = print_certificate(alloc, &certificate)?;
    push_lines(text, printed.as_slice())
}

/// Lines, with `|` in place of their ends.
fn push_lines(text: &mut String, lines: &[u8]) -> Result<(), Fail> {
    for byte in lines {
        text.push(if *byte == b'\n' { '|' } else { *byte as char })?;
    }
    Ok(())
}

fn push_table(alloc: Global, session: &Session, text: &mut String) -> Result<(), Fail> {
    match session.verdict() {
        Verdict::Controllable => {
            let dispatch = session.dispatch(alloc)?;
            push_points(session.shown(), &dispatch, text)
        }
        verdict => push_line(text, verdict_word(verdict)),
    }
}

fn push_points(net: &Network, dispatch: &Dispatch, text: &mut String) -> Result<(), Fail>
    requires { length dispatch.now.kept ≡ length net.now.points }
{
    for point in 0..net.points().len() as u32 {
        push_point(net, dispatch, PointId(point), text)?;
    }
    push_line(text, "table end")
}

/// The lower bounds and waits of a point.
fn push_point(
    net: &Network,
    dispatch: &Dispatch,
    point: PointId,
    text: &mut String,
) -> Result<(), Fail>
    requires { point.0 < length dispatch.now.kept }
{
    for (other, n) in dispatch.lower_bounds(point) {
        push_condition(text, "after", name(net, point), name(net, *other), *n)?;
    }
    for (link, n) in dispatch.waits(point) {
        push_condition(text, "wait", name(net, point), link_name(net, *link), *n)?;
    }
    Ok(())
}

/// A lower bound or a wait of a point.
fn push_condition(
    text: &mut String,
    word: &str,
    point: Option<Name>,
    other: Option<Name>,
    n: Weight,
) -> Result<(), Fail> {
    match (point, other) {
        (Some(point), Some(other)) => Ok(write!(text, "{word} {point} {other} {n}|")?),
        _ => Err(Fail::from("no point")),
    }
}

/// The name of a point.
fn name(net: &Network, point: PointId) -> Option<Name> {
    net.points().get(point.0 as usize).copied()
}

/// The name of a link.
fn link_name(net: &Network, link: LinkId) -> Option<Name> {
    name(net, net.links().get(link.0 as usize)?.to)
}
