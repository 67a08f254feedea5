//! The feeders of an execution, and the buffers that a line of events needs.

ghost use Rattle.std.specs.Prelude.{◌≡◌, ◌<◌, ◌≤◌, ◌^◌, ◌+◌, ◌++◌, [], length, vec_len, IfOk};
ghost use Rattle.std.specs.Prelude.{◌≢◌, OnOk, is_some};
ghost use Rattle.std.specs.Vec.{vec_capacity};
ghost use Rattle.std.specs.List.{All, cons_option};
ghost use Rattle.net_model.specs.Network.{IsPoint, activation};
ghost use Rattle.sensor_desk.specs.Desks.{IsSeatOfDesk, HasLink};
ghost use Rattle.sensor_desk.specs.Follower.{open_link};
ghost use Rattle.desk_feeding.specs.Fed.{IsFedInOrder, most_feeders, most_listed};
ghost use Rattle.desk_feeding.specs.Feedings.{ArePosted, FeedsAtDesk, HasReadOpen, IsFeedingOf};
ghost use Rattle.desk_feeding.specs.Feedings.{ReadsIfOpen, have_links, is_at, links_to, none_met};
ghost use Rattle.desk_feeding.specs.Ordered.{IsInOrder};

use crate::point_order::{first_where_same, put_in_order};
use execution_model::Fed;
use forward_executor::ForwardExecutor;
use net_model::{LinkId, Network, PointId};
use sensor_desk::{Desk, DeskSeat, Feeder, NoPostGate};
use std::alloc::{AllocError, Global};
use std::marker::Model;
use std::thread::Threads;

/// How many points a line of events may list.
const MOST_LISTED: usize = 32_768;

/// The desk of an execution with its feeders. Contracts see it as the desk, the seat by which it is
/// read, and the feeders.
#[derive(Drop)]
pub struct Feeding {
    desk: Desk,
    seat: DeskSeat,
    feeders: Vec<Feeder>,
    ordered: Vec<PointId>,
    links: Vec<LinkId>,
    read: Vec<PointId>,
}

impl Model for Feeding {
    ghost use Rattle.std.specs.Vec.{vec_capacity};
    ghost use Rattle.desk_feeding.specs.Fed.{IsFeeding};
    ghost use Rattle.desk_feeding.specs.Feedings.{FeedingSeen, feeding_code};

    ghost Value = { FeedingSeen };

    ghost coded = { feeding_code };

    ghost view = { λ feeding. record {
      desk = feeding.desk;
      seat = feeding.seat;
      feeders = feeding.feeders.items;
    } };

    ghost invariant = { λ feeding. IsFeeding feeding.desk feeding.seat feeding.feeders.items
        (vec_capacity feeding.ordered) (vec_capacity feeding.links) (vec_capacity feeding.read) };
}

impl Feeding {
    /// The feeding of an execution of a network by so many feeders, from 1 to 64. All memory that
    /// it needs is taken here: the desk, the feeders, and capacity for 32,768 points, for as many
    /// links, and for a point of each link of the network. `AllocError` comes only if memory is
    /// refused.
    pub fn new(alloc: Global, net: &Network, count: u32) -> Result<Feeding, AllocError>
        requires count { (1 ≤ count) × (count ≤ most_feeders) }
        ensures net { IfOk result (IsFeedingOf net.now) }
        ensures count { IfOk result (λ feeding. length feeding.feeders ≡ count) }
    {
        let buffers = buffers_for(alloc, net.links().len())?;
        let (desk, mut seat) = Desk::new(alloc, net, count + 1)?;
        let feeders = feeders_of(alloc, &desk, &mut seat)?;
        let FeedBuffers {
            ordered,
            links,
            read,
        } = buffers;
        Ok(Feeding {
            desk,
            seat,
            feeders,
            ordered,
            links,
            read,
        })
    }

    /// Feeds an executor of the network of the desk at a moment with the listed points, in the
    /// order of their numbers. The links that end in them are posted by all feeders, each in its
    /// own thread, and the link of each open point is read back; what was read is fed if it equals
    /// what was listed and each post was the first, else what was listed. It takes no memory. Which
    /// of the two is fed no clause says: they are the same. How many threads a line starts is
    /// counted by `tools/probe threads`: one less than there are feeders.
    pub fn feed<R: Threads + Sync>(
        &mut self,
        rt: &R,
        net: &Network,
        executor: &mut ForwardExecutor,
        moment: u64,
        listed: &[PointId],
    ) -> Fed
        requires net { IsFeedingOf net.now self.old }
        requires executor { length executor.old.setting.dispatch ≡ length net.now.points }
        requires moment { moment < 2 ^ 63 }
        requires listed { All (IsPoint net.now) listed.now × (length listed.now ≤ most_listed) }
        ensures fed { IsFedInOrder executor.old moment listed.now result executor.new }
        ensures desk { FeedsAtDesk net.now executor.old.moments moment listed.now self.old
            self.new }
    {
        fill_in_order(&mut self.ordered, listed);
        let all = links_of(net, self.ordered.as_slice(), &mut self.links);
        let links = self.links.as_slice();
        let first = post(rt, &self.desk, &mut self.feeders, moment, links);
        let (desk, seat, read) = (&self.desk, &mut self.seat, &mut self.read);
        read_open(desk, seat, net, executor, moment, read);
        let (read, ordered) = (self.read.as_slice(), self.ordered.as_slice());
        executor.feed(moment, first_where_same(read, ordered, all && first))
    }
}

/// The buffers that a feed needs: for the points of a line, for the links that end in them, and for
/// those that are read back.
#[derive(Drop)]
struct FeedBuffers {
    ordered: Vec<PointId>,
    links: Vec<LinkId>,
    read: Vec<PointId>,
}

/// The buffers for the feeds of a network with so many links. `AllocError` comes only if memory is
/// refused.
fn buffers_for(alloc: Global, links: usize) -> Result<FeedBuffers, AllocError>
    ensures ordered { IfOk result (λ buffers. most_listed ≤ vec_capacity buffers.ordered) }
    ensures links { IfOk result (λ buffers. most_listed ≤ vec_capacity buffers.links) }
    ensures read { IfOk result (λ buffers. links ≤ vec_capacity buffers.read) }
{
    Ok(FeedBuffers {
        ordered: Vec::with_capacity(alloc, MOST_LISTED)?,
        links: Vec::with_capacity(alloc, MOST_LISTED)?,
        read: Vec::with_capacity(alloc, links)?,
    })
}

/// A feeder for each seat that may be split from the first one.
fn feeders_of(alloc: Global, desk: &Desk, seat: &mut DeskSeat) -> Result<Vec<Feeder>, AllocError>
    requires { IsSeatOfDesk desk.now seat.old }
    ensures seat { OnOk result (IsSeatOfDesk desk.now seat.new) }
    ensures count { IfOk result (λ feeders. vec_len feeders ≡ seat.old.view.to_split) }
    ensures seats { IfOk result (λ feeders. All (λ feeder. IsSeatOfDesk desk.now feeder.seat)
        feeders.items) }
{
    let mut feeders = Vec::new(alloc);
    while seat.to_split() > 0 {
        let seat = desk.split(seat);
        feeders.push(Feeder { seat, met: None })?;
    }
    Ok(feeders)
}

/// Replaces what was there with points, in the order of their numbers.
fn fill_in_order(into: &mut Vec<PointId>, points: &[PointId])
    requires spare_capacity { length points.now ≤ vec_capacity into.old }
    ensures order { IsInOrder points.now into.new.items }
    ensures few { length into.new.items ≤ length points.now }
    ensures spare_capacity { vec_capacity into.new ≡ vec_capacity into.old }
{
    fill(into, points);
    put_in_order(into);
}

/// Replaces what was there with points.
fn fill(into: &mut Vec<PointId>, points: &[PointId])
    requires spare_capacity { length points.now ≤ vec_capacity into.old }
    ensures points { into.new.items ≡ points.now }
    ensures spare_capacity { vec_capacity into.new ≡ vec_capacity into.old }
{
    into.clear();
    for point in points {
        into.push_reserved(*point);
    }
}

/// The links that end in points, in their order, and whether one ends in each.
fn links_of(net: &Network, points: &[PointId], links: &mut Vec<LinkId>) -> bool
    requires spare_capacity { length points.now ≤ vec_capacity links.old }
    requires points { All (IsPoint net.now) points.now }
    ensures to { links.new.items ≡ links_to net.now points.now }
    ensures all { result ≡ have_links net.now points.now }
    ensures links { All (λ link. link.0 < length net.now.links) links.new.items }
    ensures few { length links.new.items ≤ length points.now }
    ensures spare_capacity { vec_capacity links.new ≡ vec_capacity links.old }
{
    links.clear();
    let mut all = true;
    for point in points {
        let ends = push_link(net, *point, links);
        all &= ends;
    }
    all
}

/// Adds the link that ends in a point to links, and answers whether one does.
fn push_link(net: &Network, point: PointId, links: &mut Vec<LinkId>) -> bool
    requires point { IsPoint net.now point }
    requires spare_capacity { length links.old.items < vec_capacity links.old }
    requires links { All (λ link. link.0 < length net.now.links) links.old.items }
    ensures to { links.new.items ≡ links.old.items ++ cons_option
        (activation net.now point) [] }
    ensures ends { result ≡ is_some (activation net.now point) }
    ensures links { All (λ link. link.0 < length net.now.links) links.new.items }
    ensures few { length links.new.items ≤ length links.old.items + 1 }
    ensures spare_capacity { vec_capacity links.new ≡ vec_capacity links.old }
{
    match net.activation(point) {
        Some(link) => {
            links.push_reserved(link);
            true
        }
        None => false,
    }
}

/// Posts a moment for links by all feeders, and answers whether each post was the first for its
/// link. If there is no link no thread is started.
fn post<R: Threads + Sync>(
    rt: &R,
    desk: &Desk,
    feeders: &mut Vec<Feeder>,
    moment: u64,
    links: &[LinkId],
) -> bool
    requires some { 0 < vec_len feeders.old }
    requires few { length links.now ≤ most_listed }
    requires seats { All (λ feeder. IsSeatOfDesk desk.now feeder.seat) feeders.old.items }
    requires links { All (HasLink desk.now) links.now }
    requires moment { moment < 2 ^ 63 }
    ensures posted { ArePosted links.now moment feeders.old.items feeders.new.items }
    ensures first { links.now ≢ [] → result ≡ none_met feeders.new.items }
    ensures seats { All (λ feeder. IsSeatOfDesk desk.now feeder.seat) feeders.new.items }
{
    if links.is_empty() {
        return true;
    }
    let feeders = feeders.as_mut_slice();
    desk.post_all(rt, feeders, moment, links, &NoPostGate);
    none_met(feeders)
}

/// Whether no feeder found a moment that stood before.
fn none_met(feeders: &[Feeder]) -> bool
    ensures { result ≡ none_met feeders.now }
{
    feeders.iter().all(|feeder| feeder.met.is_none())
}

/// Reads the links of the open points, in order, and keeps the points whose links stand at a
/// moment.
fn read_open(
    desk: &Desk,
    seat: &mut DeskSeat,
    net: &Network,
    executor: &ForwardExecutor,
    moment: u64,
    read: &mut Vec<PointId>,
)
    requires seat { IsSeatOfDesk desk.now seat.old }
    requires net { desk.now.about.net.value ≡ net.now }
    requires executor { length executor.now.setting.dispatch ≡ length net.now.points }
    ensures reads { HasReadOpen net.now executor.now.moments moment seat.old
        (length net.now.points) seat.new }
    ensures seat { IsSeatOfDesk desk.now seat.new }
    ensures spare_capacity { vec_capacity read.new ≡ vec_capacity read.old }
{
    read.clear();
    for number in 0..net.points().len() as u32 {
        let point = PointId(number);
        if stands_at(desk, seat, net, executor, moment, point) && read.len() < read.capacity() {
            read.push_reserved(point);
        }
    }
}

/// Reads the link of a point if it is open, and answers whether it stands at a moment.
fn stands_at(
    desk: &Desk,
    seat: &mut DeskSeat,
    net: &Network,
    executor: &ForwardExecutor,
    moment: u64,
    point: PointId,
) -> bool
    requires seat { IsSeatOfDesk desk.now seat.old }
    requires net { desk.now.about.net.value ≡ net.now }
    requires executor { length executor.now.setting.dispatch ≡ length net.now.points }
    requires point { IsPoint net.now point }
    ensures reads { ReadsIfOpen net.now executor.now.moments moment point seat.old seat.new
        result }
    ensures seat { IsSeatOfDesk desk.now seat.new }
{
    match open_link(net, executor, point) {
        None => false,
        Some(link) => is_at(desk.read(seat, link), moment),
    }
}

/// Whether what was read of a link stands at a moment.
fn is_at(read: Option<u64>, moment: u64) -> bool
    ensures { result ≡ is_at moment read }
{
    match read {
        Some(at) => at == moment,
        None => false,
    }
}

/// The link that ends in a point, if the point is open: contingent, and without a moment.
fn open_link(net: &Network, executor: &ForwardExecutor, point: PointId) -> Option<LinkId>
    requires executor { length executor.now.setting.dispatch ≡ length net.now.points }
    requires point { IsPoint net.now point }
    ensures { result ≡ open_link net.now executor.now.moments point }
{
    match executor.moment_of(point) {
        Some(_) => None,
        None => net.activation(point),
    }
}
