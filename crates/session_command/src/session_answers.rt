//! The answers of a session: to edits, and to questions about its network.

ghost use Rattle.std.specs.Prelude.{◌≡◌, ◌<◌, ◌++◌, length, OnOk};
ghost use Rattle.std.specs.List.{flat_map};
ghost use Rattle.net_model.specs.NetworkParts.{point_name};
ghost use Rattle.refutation_certificates.specs.Certificates.{bound_name, link_name};
ghost use Rattle.session_command.specs.SessionAnswers.{refused_line, report_line, lower_bound_line};
ghost use Rattle.session_command.specs.SessionAnswers.{wait_line, conditions_text, table_text};
ghost use Rattle.dispatch_net.specs.Dispatchable.{conditions_at};

use command_engine::{Answer, Word};
use dispatch_net::Dispatch;
use net_model::{BoundId, EditFault, LinkId, Network, PointId, User, Weight};
use plan_session::Report;
use std::alloc::AllocError;

/// Puts why an edit of a network is refused.
pub(crate) fn push_refused(
    answer: &mut Answer,
    net: &Network,
    cause: EditFault,
) -> Result<(), AllocError>
    ensures { OnOk result (answer.new.text ≡ answer.old.text ++ refused_line net.now cause) }
{
    let (refused, word) = (Word::Text("refused"), Word::Text(cause.word()));
    match cause {
        EditFault::Limit(which) => answer.push_line(&[refused, word, Word::Text(which.word())]),
        EditFault::StillUsed(User::Bound(id)) => {
            answer.push_line(&[
                refused,
                word,
                Word::Text("bound"),
                Word::Name(bound_name(net, id)),
            ])
        }
        EditFault::StillUsed(User::Link(id)) => {
            answer.push_line(&[
                refused,
                word,
                Word::Text("link"),
                Word::Name(link_name(net, id)),
            ])
        }
        EditFault::DuplicateName
        | EditFault::UnknownName
        | EditFault::TwoLinksOnPoint
        | EditFault::LinkToItself
        | EditFault::BadInterval
        | EditFault::OutOfMemory => answer.push_line(&[refused, word]),
    }
}

/// Puts the numbers of the last accepted edit, or that there was none.
pub(crate) fn push_report(answer: &mut Answer, report: Option<Report>) -> Result<(), AllocError>
    ensures { OnOk result (answer.new.text ≡ answer.old.text ++ report_line report) }
{
    match report {
        None => answer.push_line(&[Word::Text("report"), Word::Text("none")]),
        Some(report) => answer.push_line(&[
            Word::Text("report"),
            Word::Number(report.kept),
            Word::Number(report.withdrawn),
            Word::Number(report.rounds),
        ]),
    }
}

/// Puts by what each point of a network is executed.
pub(crate) fn push_table(
    answer: &mut Answer,
    net: &Network,
    dispatch: &Dispatch,
) -> Result<(), AllocError>
    requires { length dispatch.now.kept ≡ length net.now.points }
    ensures { OnOk result (answer.new.text ≡ answer.old.text ++ table_text net.now
        dispatch.now.kept) }
{
    for point in 0..net.points().len() as u32 {
        push_conditions(answer, net, dispatch, PointId(point))?;
    }
    answer.push_line(&[Word::Text("table"), Word::Text("end")])
}

/// Puts by what a point is executed.
fn push_conditions(
    answer: &mut Answer,
    net: &Network,
    dispatch: &Dispatch,
    point: PointId,
) -> Result<(), AllocError>
    requires { point.0 < length dispatch.now.kept }
    ensures { OnOk result (answer.new.text ≡ answer.old.text ++ conditions_text net.now point
        (conditions_at dispatch.now.kept point)) }
{
    push_bounds(answer, net, point, dispatch.lower_bounds(point))?;
    push_waits(answer, net, point, dispatch.waits(point))
}

/// Puts the lower bounds of a point.
fn push_bounds(
    answer: &mut Answer,
    net: &Network,
    point: PointId,
    bounds: &[(PointId, Weight)],
) -> Result<(), AllocError>
    ensures { OnOk result (answer.new.text ≡ answer.old.text ++ flat_map
        (lower_bound_line net.now point) bounds.now) }
{
    for bound in bounds {
        let (other, moments) = *bound;
        answer.push_line(&[
            Word::Text("after"),
            Word::Name(point_name(net, point)),
            Word::Name(point_name(net, other)),
            Word::Number(moments.unsigned_abs()),
        ])?;
    }
    Ok(())
}

/// Puts the waits of a point.
fn push_waits(
    answer: &mut Answer,
    net: &Network,
    point: PointId,
    waits: &[(LinkId, Weight)],
) -> Result<(), AllocError>
    ensures { OnOk result (answer.new.text ≡ answer.old.text ++ flat_map
        (wait_line net.now point) waits.now) }
{
    for wait in waits {
        let (link, moments) = *wait;
        answer.push_line(&[
            Word::Text("wait"),
            Word::Name(point_name(net, point)),
            Word::Name(link_name(net, link)),
            Word::Number(moments.unsigned_abs()),
        ])?;
    }
    Ok(())
}

/// The name of a point.
pub(crate) fn point_name(net: &Network, point: PointId) -> &[u8]
    ensures { result.now ≡ point_name net.now.points point }
{
    match net.points().get(point.0 as usize) {
        Some(name) => name.bytes(),
        None => b"",
    }
}

/// The name of a bound.
fn bound_name(net: &Network, bound: BoundId) -> &[u8]
    ensures { result.now ≡ bound_name net.now bound }
{
    match net.bounds().get(bound.0 as usize) {
        Some(bound) => bound.name.bytes(),
        None => b"",
    }
}

/// The name of the contingent point of a link.
fn link_name(net: &Network, link: LinkId) -> &[u8]
    ensures { result.now ≡ link_name net.now link }
{
    match net.links().get(link.0 as usize) {
        Some(link) => point_name(net, link.to),
        None => b"",
    }
}
