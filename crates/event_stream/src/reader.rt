//! The lines of events, one at a time.

ghost use Rattle.std.specs.Prelude.{◌≡◌, ◌≤◌, List, [], length, IfOk, IfErr, OnErr, IsOk};
ghost use Rattle.texts.specs.Words.{words};
ghost use Rattle.net_model.specs.Network.{Plan};
ghost use Rattle.texts.specs.Limits.{most_line};
ghost use Rattle.event_stream.specs.Limits.{most_completions};
ghost use Rattle.event_stream.specs.EventText.{EventLine, IsEventLine, IsEventFault, said};
ghost use Rattle.event_stream.specs.EventText.{event_of, kept, HasPoints};
ghost use Rattle.event_stream.specs.EventLines.{AnswersEventLine, event_line, completions_line};
ghost use Rattle.event_stream.specs.EventLines.{done_line, points_by_names};

use crate::event::Event;
use crate::limits::MOST_COMPLETIONS;
use crate::names::{check_names, point_of};
use net_model::{FormatKind, MOST_MOMENT, Network, PointId, text};
use std::alloc::{AllocError, Global};
use std::marker::Model;

/// Reads lines of events, and keeps the completions of the last one that stated any. Contracts see
/// it as the list of these points. It has capacity for those of every line, so that reading takes
/// no memory.
#[derive(Debug, Drop)]
pub struct EventReader {
    completions: Vec<PointId>,
}

impl Model for EventReader {
    ghost use Rattle.std.specs.Prelude.{◌≤◌, List, vec_len};
    ghost use Rattle.std.specs.Vec.{vec_capacity};
    ghost use Rattle.net_model.specs.declared.ids.PointId.{PointId};
    ghost use Rattle.event_stream.specs.Limits.{most_completions};

    ghost Value = { List PointId };

    ghost view = { λ reader. reader.completions.items };

    ghost invariant = { λ reader. (most_completions ≤ vec_capacity reader.completions)
        × (vec_len reader.completions ≤ most_completions) };
}

impl EventReader {
    /// A reader without completions, with capacity for 32,768 of them. `AllocError` comes only for
    /// want of memory, and then nothing was made.
    pub fn new(alloc: Global) -> Result<EventReader, AllocError>
        ensures { IfOk result (λ reader. reader ≡ []) }
    {
        Ok(EventReader {
            completions: Vec::with_capacity(alloc, MOST_COMPLETIONS)?,
        })
    }

    /// The completions of the last line for which `read` answered `At`, in the order in which that
    /// line names them, or none before the first such line: at most 32,768.
    pub fn completions(&self) -> &[PointId]
        ensures points { result.now ≡ self.now }
        ensures few { length result.now ≤ most_completions }
    {
        self.completions.as_slice()
    }

    /// Reads one line of events of at most 65,536 bytes, without its line end: a blank line, `at
    /// MOMENT NAME NAME ..` with any number of names of points of the network, or `done`. After
    /// `At` the completions are the points that the line names; every other answer leaves them as
    /// they were. The fault is the first one: `UnknownWord` of the first word; `WordCount` if `at`
    /// has no moment, or `done` has a word after it; then of the words from left to right: of the
    /// moment `BadNumber`, also if it has a `-`, and `NumberLimit` above 4,000,000,000,000; of each
    /// name `BadName`, and then `UnknownName` if no point of the network has it. It takes no
    /// memory. Clause `reads` says the same once more, as a function of the words of the line.
    pub fn read(&mut self, line: &[u8], net: &Network) -> Result<Event, FormatKind>
        requires { length line.now ≤ most_line }
        ensures reads { AnswersEventLine (event_line net.now (words line.now)) self.old result
            self.new × ((stated : EventLine) → IsEventLine net.now stated line.now
            → (result ≡ Ok (event_of stated)) × (self.new ≡ kept stated self.old)) }
        ensures grammar { IfOk result (λ event. IsEventLine net.now
            (said event self.new) line.now) }
        ensures fault { IfErr result (IsEventFault net.now line.now) }
        ensures refused { OnErr result (self.new ≡ self.old) }
        ensures points { IfOk result (λ event. HasPoints net.now event self.new) }
    {
        self.read_words(line, net)
    }

    /// Reads a line by its words.
    #[tactic(auto, unfolding(crate::specs::EventLines::event_line))]
    fn read_words(&mut self, line: &[u8], net: &Network) -> Result<Event, FormatKind>
        requires { length line.now ≤ most_line }
        ensures { AnswersEventLine (event_line net.now (words line.now)) self.old result self.new }
    {
        let Some((first, rest)) = texts::first_word(line) else {
            return Ok(Event::Blank);
        };
        if first == b"at".as_slice() {
            return self.read_at(rest, net);
        }
        if first == b"done".as_slice() {
            text::no_more(rest)?;
            return Ok(Event::Done);
        }
        Err(FormatKind::UnknownWord)
    }

    /// Reads what stands after `at`.
    fn read_at(&mut self, rest: &[u8], net: &Network) -> Result<Event, FormatKind>
        requires { length (words rest.now) ≤ most_completions }
        ensures { AnswersEventLine (completions_line net.now (words rest.now)) self.old result
            self.new }
    {
        let (word, names) = text::word(rest)?;
        let moment = text::natural(word, MOST_MOMENT)?;
        check_names(net, names)?;
        self.keep(net, names);
        Ok(Event::At(moment))
    }

    /// Keeps the points that the words name, in place of those that were kept. Each word names a
    /// point, and there is capacity for all of them.
    fn keep(&mut self, net: &Network, names: &[u8])
        requires spare_capacity { length (words names.now) ≤ most_completions }
        requires named { IsOk (points_by_names net.now (words names.now)) }
        ensures { points_by_names net.now (words names.now) ≡ Ok self.new }
    {
        self.completions.clear();
        let mut rest = names;
        while let Some((word, others)) = texts::next_word(rest) {
            let point = point_of(net, word).unwrap();
            self.completions.push_reserved(point);
            rest = others;
        }
    }
}
