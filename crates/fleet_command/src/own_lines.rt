//! The answer to a line of one plan of a fleet, without the plan's name.

ghost use Rattle.std.specs.Prelude.{◌≡◌, ◌<◌, ◌≤◌, false, length};
ghost use Rattle.std.specs.List.{All};
ghost use Rattle.net_model.specs.Network.{IsPoint};
ghost use Rattle.texts.specs.Limits.{most_line};
ghost use Rattle.event_stream.specs.EventText.{IsEventFault, completed, done};
ghost use Rattle.plan_fleet.specs.Fleets.{AtPlan, ChangesOne};
ghost use Rattle.multiplexed_commands.specs.Alone.{idle_said};
ghost use Rattle.fleet_command.specs.FleetStands.{HasCapacityAt, HaveCapacity, SaysLine};
ghost use Rattle.fleet_command.specs.FleetStands.{SaysStated, SlotSays, idle_capacity};
ghost use Rattle.fleet_command.specs.FleetStands.{said_capacity, slot_stands};
ghost use Rattle.fleet_command.specs.declared.entries.FleetSlot.TheVariants.{Opened};

use crate::entries::FleetSlot;
use command_engine::{Answer, Word};
use event_phase::{put_end, put_fed, refuse_line};
use event_stream::{Event, EventReader};
use net_model::FormatKind;
use plan_fleet::{Fleet, FleetFed, FleetFinished, State};
use texts::first_word;

/// The plans of a fleet, with the reader of their lines and a buffer in which one answer of one
/// plan stands.
#[derive(Drop)]
pub(crate) struct FleetAnswerer {
    pub(crate) fleet: Fleet,
    pub(crate) events: EventReader,
    pub(crate) said: Answer,
}

impl FleetAnswerer {
    /// Answers a line of one plan by its number among its own, in place of what stood in the buffer:
    /// one that runs by its execution, and every other by `idle`.
    pub(crate) fn answer(&mut self, slot: FleetSlot, number: u32, line: &[u8])
        requires placed { (place : _) → slot ≡ Opened place → place < length self.old.fleet }
        requires spare_capacity { HaveCapacity self.old.fleet self.old.said.capacity }
        requires line { length line.now ≤ most_line }
        ensures says { SlotSays self.old.fleet slot number line.now self.new.said.text
            self.new.fleet }
        ensures size { length self.new.said.text ≤ said_capacity
            (slot_stands self.old.fleet slot) }
        ensures capacity { self.old.said.capacity ≤ self.new.said.capacity }
    {
        match slot {
            FleetSlot::Opened(place) => self.answer_opened(place, number, line),
            FleetSlot::Refused(_) => {
                if first_word(line).is_some() {
                    put_idle(&mut self.said);
                } else {
                    self.said.clear();
                }
            }
        }
    }

    /// Answers a line of a plan that was opened, in place of what stood in the buffer.
    fn answer_opened(&mut self, place: u32, number: u32, line: &[u8])
        requires spare_capacity { HasCapacityAt self.old.fleet place self.old.said.capacity }
        requires line { length line.now ≤ most_line }
        ensures changes { ChangesOne self.old.fleet place
            (SaysLine number line.now self.new.said.text) self.new.fleet }
        ensures size { length self.new.said.text ≤ said_capacity
            (slot_stands self.old.fleet (Opened place)) }
        ensures capacity { self.old.said.capacity ≤ self.new.said.capacity }
    {
        match self.events.read(line, self.fleet.network(place)) {
            Ok(Event::Blank) => self.said.clear(),
            Ok(Event::At(moment)) => self.feed(place, number, moment),
            Ok(Event::Done) => self.finish(place, number),
            Err(kind) => self.end(place, number, kind),
        }
    }

    /// Feeds a plan the points that the reader has, and puts the answer in place of what stood in
    /// the buffer.
    fn feed(&mut self, place: u32, number: u32, moment: u64)
        requires spare_capacity { HasCapacityAt self.old.fleet place self.old.said.capacity }
        requires points { AtPlan self.old.fleet place
            (λ plan. All (IsPoint plan.net) self.old.events) }
        ensures changes { ChangesOne self.old.fleet place
            (SaysStated number (completed moment self.old.events) self.new.said.text)
            self.new.fleet }
        ensures size { length self.new.said.text ≤ said_capacity
            (slot_stands self.old.fleet (Opened place)) }
        ensures capacity { self.old.said.capacity ≤ self.new.said.capacity }
    {
        // The proof reads here that the plan is sound before the feed, and after it by the same
        // call below.
        let _ = self.fleet.network(place);
        match self.fleet.feed(place, moment, self.events.completions()) {
            FleetFed::Fed(fed) => {
                let net = self.fleet.network(place);
                let due = self.fleet.next_due(place);
                put_fed(
                    &mut self.said,
                    net,
                    number,
                    fed,
                    self.fleet.acts(place),
                    due,
                );
            }
            FleetFed::Idle => put_idle(&mut self.said),
        }
    }

    /// Ends the execution of a plan, and puts the answer in place of what stood in the buffer.
    fn finish(&mut self, place: u32, number: u32)
        requires spare_capacity { HasCapacityAt self.old.fleet place self.old.said.capacity }
        ensures changes { ChangesOne self.old.fleet place
            (SaysStated number done self.new.said.text) self.new.fleet }
        ensures size { length self.new.said.text ≤ said_capacity
            (slot_stands self.old.fleet (Opened place)) }
        ensures capacity { self.old.said.capacity ≤ self.new.said.capacity }
    {
        let _ = self.fleet.network(place);
        match self.fleet.finish(place) {
            FleetFinished::Finished(finished) => {
                let net = self.fleet.network(place);
                put_end(
                    &mut self.said,
                    net,
                    number,
                    finished,
                    self.fleet.acts(place),
                );
            }
            FleetFinished::Idle => put_idle(&mut self.said),
        }
    }

    /// Ends a plan that runs, for the fault of its line, and puts the answer in place of what stood
    /// in the buffer.
    fn end(&mut self, place: u32, number: u32, kind: FormatKind)
        requires place { place < length self.old.fleet }
        ensures changes { (line : _)
            → AtPlan self.old.fleet place (λ plan. IsEventFault plan.net line kind)
            → ChangesOne self.old.fleet place (SaysLine number line self.new.said.text)
            self.new.fleet }
        ensures size { length self.new.said.text ≤ said_capacity
            (slot_stands self.old.fleet (Opened place)) }
        ensures capacity { self.old.said.capacity ≤ self.new.said.capacity }
    {
        if self.fleet.state(place) == State::Running {
            refuse_line(&mut self.said, number, kind);
            self.fleet.end(place);
        } else {
            put_idle(&mut self.said);
        }
    }
}

/// Puts that a plan is idle in place of what stood in the buffer.
fn put_idle(said: &mut Answer)
    ensures text { said.new.text ≡ idle_said false }
    ensures size { length said.new.text ≤ idle_capacity }
    ensures capacity { said.old.capacity ≤ said.new.capacity }
{
    said.refuse(&[Word::Text("idle")]);
}
