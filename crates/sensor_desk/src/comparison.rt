//! The end of a desk: what its words say, compared with the moments of an executor.

ghost use Rattle.std.specs.Prelude.{◌≡◌, ◌<◌, ◌+◌, ◌^◌, length};
ghost use Rattle.std.specs.Mem.Slots.{slots_items, slots_len, IsFull};
ghost use Rattle.sensor_desk.specs.Comparison.{AreCompared, Closes, IsAgreed};
ghost use Rattle.sensor_desk.specs.Follower.{IsExecutionFor};
ghost use Rattle.sensor_desk.specs.Desks.{IsSeatOfDesk};

use crate::desk::{Desk, moment_of_word};
use crate::end::Closing;
use crate::same::is_same;
use crate::seat::DeskSeat;
use atomic_table::Closed;
use execution_model::laws::law_finishes_are_earliest;
use live_executor::Executor;
use net_model::{LinkId, Network};
use std::alloc::Global;

impl Desk {
    /// Ends a desk: `Agreed` exactly if what stands for each link is the moment that the executor
    /// has for its point, or there is neither, else `Differs` with the first link for which this is
    /// not so. The desk was made with the network, and the executor started with it.
    ///
    /// If the executor was started on the dispatchable network of the closure, each of its feeds
    /// was taken, its end was `Complete`, and this answers `Agreed`, then its moments are the
    /// execution of the one stream that the words give, said to be done. Nothing more is required
    /// of how it was fed: neither that it followed the desk, nor that no `follow` was `Late`.
    pub fn close(self, seat: DeskSeat, net: &Network, executor: &Executor) -> Closing
        requires seat { IsSeatOfDesk self seat }
        requires net { self.about.net.value ≡ net.now }
        requires executor { IsExecutionFor net.now executor.now }
        // What stands includes all that the seat has noted. If all is agreed and the execution is
        // complete, without a feed refused, it is the execution of the stream that the words give,
        // whoever fed it and however.
        ensures { Closes net.now seat.view executor.now result }
    {
        law_finishes_are_earliest();
        // The proof reads here that there is a moment, or none, for each point.
        let _acts = executor.acts();
        let links = net.links().len();
        let words = self.into_words(seat);
        let closing = compared(&words, net, executor, links);
        words.free();
        closing
    }
}

/// Compares the words of the links with the moments of an executor, link by link.
fn compared(words: &Closed<(), Global>, net: &Network, executor: &Executor, links: usize) -> Closing
    requires full { IsFull words.now.words }
    requires links { links ≡ length net.now.links }
    requires few { links < 2 ^ 32 }
    requires count { slots_len words.now.words ≡ links + 1 }
    requires executor { IsExecutionFor net.now executor.now }
    ensures { AreCompared net.now executor.now.moments (slots_items words.now.words) result }
{
    for number in 0..links {
        if !agrees(words, net, executor, number) {
            return Closing::Differs(LinkId(number as u32));
        }
    }
    Closing::Agreed
}

/// Whether the word of a link gives the moment of its point.
fn agrees(words: &Closed<(), Global>, net: &Network, executor: &Executor, number: usize) -> bool
    requires full { IsFull words.now.words }
    requires number { number < length net.now.links }
    requires count { slots_len words.now.words ≡ length net.now.links + 1 }
    requires executor { IsExecutionFor net.now executor.now }
    ensures { IsAgreed net.now executor.now.moments (slots_items words.now.words) number result }
{
    let posted = moment_of_word(words.word(number + 1));
    let link = net.links()[number];
    is_same(posted, executor.moment_of(link.to))
}
