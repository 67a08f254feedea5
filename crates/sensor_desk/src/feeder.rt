//! Feeders, each with a seat, that post concurrently, each in its own thread.

ghost use Rattle.std.specs.Prelude.{◌≡◌, ◌<◌, ◌≤◌, ◌^◌, ◌-◌, length, slice_index_or};
ghost use Rattle.std.specs.List.{All};
ghost use Rattle.sensor_desk.specs.Desks.{IsSeatOfDesk, HasLink};
ghost use Rattle.sensor_desk.specs.Feeders.{IsPostedAt, HasPostedAll, AreFedBy, met_after};

use crate::desk::Desk;
use crate::post_result::Posted;
use crate::seat::DeskSeat;
use net_model::LinkId;
use std::thread::{Threads, for_each_mut};

/// A feeder, made by the caller.
#[derive(Drop)]
pub struct Feeder {
    pub seat: DeskSeat,
    /// The first of the places that it posted last at which a moment stood before.
    pub met: Option<u32>,
}

/// What is called before each post of `post_all`. It can change no answer; a test can delay posts
/// with it.
pub trait PostGate: Sync {
    /// Called with the link, before a moment is posted for it.
    fn before(&self, link: LinkId);
}

/// The gate that delays nothing.
#[derive(Clone, Copy, Debug)]
pub struct NoPostGate;

impl PostGate for NoPostGate {
    fn before(&self, _link: LinkId) {}
}

impl Desk {
    /// Posts a moment, below 2^63, for fewer than 2^32 links by one feeder or several concurrently:
    /// with n of them, feeder k, counted from 0, posts the links at the places k, k + n and so on,
    /// each once and in this order. Its `met` becomes the first of its places whose answer was
    /// `Before`, or `None` if each was `First`. If a thread can't be started, the caller makes its
    /// posts. That two posts are made at once is tested in `example_desk`; no clause says it.
    pub fn post_all<R: Threads + Sync, G: PostGate>(
        &self,
        rt: &R,
        feeders: &mut [Feeder],
        moment: u64,
        links: &[LinkId],
        gate: &G,
    )
        requires some { 0 < length feeders.old }
        requires seats { All (λ feeder. IsSeatOfDesk self.now feeder.seat) feeders.old }
        requires links { All (HasLink self.now) links.now × (length links.now < 2 ^ 32) }
        requires moment { moment < 2 ^ 63 }
        ensures fed { AreFedBy links.now moment feeders.old feeders.new }
        ensures seats { All (λ feeder. IsSeatOfDesk self.now feeder.seat) feeders.new }
    {
        let count = feeders.len();
        let post = |number: usize, feeder: &mut Feeder|
            requires step { (0 < count) × (count < 2 ^ 63) }
            requires few { length links.now < 2 ^ 32 }
            requires seat { IsSeatOfDesk self.now feeder.old.seat }
            requires links { All (HasLink self.now) links.now }
            requires moment { moment < 2 ^ 63 }
            ensures fed { HasPostedAll links.entry.now moment number count feeder.entry.now
                feeder.exit.now }
            ensures seat { IsSeatOfDesk self.entry.now feeder.exit.now.seat }
        { self.post_in_turn(feeder, number, count, moment, links, gate) };
        for_each_mut(rt, feeders, count, &post);
    }

    /// The posts of one feeder: at its first place, and each time a step further.
    fn post_in_turn<G: PostGate>(
        &self,
        feeder: &mut Feeder,
        first: usize,
        step: usize,
        moment: u64,
        links: &[LinkId],
        gate: &G,
    )
        requires step { (0 < step) × (step < 2 ^ 63) }
        requires few { length links.now < 2 ^ 32 }
        requires seat { IsSeatOfDesk self.now feeder.old.seat }
        requires links { All (HasLink self.now) links.now }
        requires moment { moment < 2 ^ 63 }
        ensures fed { HasPostedAll links.now moment first step feeder.old feeder.new }
        ensures seat { IsSeatOfDesk self.now feeder.new.seat }
    {
        feeder.met = None;
        let mut place = first;
        while place < links.len() {
            self.post_at(feeder, place, moment, links, gate);
            place += step;
        }
    }

    /// One post of a feeder.
    fn post_at<G: PostGate>(
        &self,
        feeder: &mut Feeder,
        place: usize,
        moment: u64,
        links: &[LinkId],
        gate: &G,
    )
        requires place { place < length links.now }
        requires few { length links.now < 2 ^ 32 }
        requires seat { IsSeatOfDesk self.now feeder.old.seat }
        requires links { All (HasLink self.now) links.now }
        requires moment { moment < 2 ^ 63 }
        ensures { IsPostedAt links.now moment place feeder.old feeder.new }
    {
        let link = links[place];
        gate.before(link);
        let posted = self.post(&mut feeder.seat, link, moment);
        feeder.met = met_after(feeder.met, place as u32, posted);
    }
}

/// The first place at which a moment stood before, after the answer at one place more.
fn met_after(met: Option<u32>, place: u32, posted: Posted) -> Option<u32>
    ensures { result ≡ met_after met place posted }
{
    match (met, posted) {
        (Some(first), _) => Some(first),
        (None, Posted::First) => None,
        (None, Posted::Before(_)) => Some(place),
    }
}
