//! An executor that follows a desk: it is fed with the points whose links stand at a moment.

ghost use Rattle.std.specs.Prelude.{◌≡◌, ◌≤◌, length};
ghost use Rattle.net_model.specs.Network.{IsPoint};
ghost use Rattle.sensor_desk.specs.Desks.{IsSeatOfDesk};
ghost use Rattle.sensor_desk.specs.Follower.{FollowsDesk, IsExecutionFor, Sees, AreFindingsSoFar};
ghost use Rattle.sensor_desk.specs.Follower.{open_link};

use crate::desk::Desk;
use crate::findings::{Findings, take_in};
use crate::follow_result::Followed;
use crate::seat::DeskSeat;
use live_executor::Executor;
use net_model::{LinkId, Network, PointId};

impl Desk {
    /// Feeds an executor at a moment with exactly the points whose links stand at it. The links of
    /// all contingent points for which the executor has no moment are loaded, in the order of the
    /// points. `Late` exactly if one of them stands at a moment below this one, with the first such
    /// point; then the executor is unchanged. Else `Fed`, with the answer of the feed. The desk was
    /// made with the network, the executor started with it, and the buffer has space for as many
    /// points as the network has links.
    pub fn follow(
        &self,
        seat: &mut DeskSeat,
        net: &Network,
        executor: &mut Executor,
        moment: u64,
        room: &mut [PointId],
    ) -> Followed
        requires seat { IsSeatOfDesk self.now seat.old }
        requires net { self.now.about.net.value ≡ net.now }
        requires executor { IsExecutionFor net.now executor.old }
        requires room { length net.now.links ≤ length room.old }
        ensures follows { FollowsDesk net.now moment seat.old seat.new executor.old result
            executor.new }
        ensures kept { IsSeatOfDesk self.now seat.new × IsExecutionFor net.now executor.new
            × (length room.new ≡ length room.old) }
    {
        let findings = self.look_at_all(seat, net, executor, moment, room);
        match findings.late {
            Some((point, posted)) => Followed::Late(point, posted),
            None => Followed::Fed(executor.feed(moment, &room[..findings.count])),
        }
    }

    /// Looks at the links of all open points, in the order of the points, and writes those that
    /// stand at the moment to a prefix of the buffer.
    fn look_at_all(
        &self,
        seat: &mut DeskSeat,
        net: &Network,
        executor: &Executor,
        moment: u64,
        room: &mut [PointId],
    ) -> Findings
        requires seat { IsSeatOfDesk self.now seat.old }
        requires net { self.now.about.net.value ≡ net.now }
        requires executor { IsExecutionFor net.now executor.now }
        requires room { length net.now.links ≤ length room.old }
        ensures so_far { AreFindingsSoFar net.now executor.now.moments moment
            (length net.now.points) seat.old seat.new room.new result.late result.count }
        ensures room { length room.new ≡ length room.old }
    {
        let mut findings = Findings {
            late: None,
            count: 0,
        };
        for number in 0..net.points().len() as u32 {
            let point = PointId(number);
            let found = self.look_at(seat, net, executor, point);
            findings = take_in(findings, room, point, found, moment);
        }
        findings
    }

    /// Looks at the link of a point, if the point is open.
    fn look_at(
        &self,
        seat: &mut DeskSeat,
        net: &Network,
        executor: &Executor,
        point: PointId,
    ) -> Option<u64>
        requires seat { IsSeatOfDesk self.now seat.old }
        requires net { self.now.about.net.value ≡ net.now }
        requires executor { IsExecutionFor net.now executor.now }
        requires point { IsPoint net.now point }
        ensures { Sees net.now executor.now.moments point seat.old seat.new result }
    {
        match open_link(net, executor, point) {
            None => None,
            Some(link) => self.look(seat, link),
        }
    }
}

/// The link that ends in a point, if the point is open: contingent, and without a moment.
fn open_link(net: &Network, executor: &Executor, point: PointId) -> Option<LinkId>
    requires executor { IsExecutionFor net.now executor.now }
    requires point { IsPoint net.now point }
    ensures { result ≡ open_link net.now executor.now.moments point }
{
    match executor.moment_of(point) {
        Some(_) => None,
        None => net.activation(point),
    }
}
