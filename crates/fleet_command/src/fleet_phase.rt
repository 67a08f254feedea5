//! The plans of a fleet after `go`, and the answers to their lines.

ghost use Rattle.std.specs.Prelude.{◌<◌, ◌≤◌, length};
ghost use Rattle.texts.specs.Limits.{most_line};
ghost use Rattle.fleet_command.specs.FleetCommand.{plans_machine};
ghost use Rattle.fleet_command.specs.FleetStands.{AnswersMember, fleet_capacity};

use crate::entries::{FleetEntry, place_of};
use crate::own_lines::FleetAnswerer;
use command_engine::{Answer, Command, End, Flow, Refusal, Stop};
use common_answers::{Fault, stop_fault};
use multiplexed_commands::{after_first, put_named};
use net_model::FormatKind;
use plan_port::MOST_LINE;
use std::alloc::{AllocError, Global};
use std::marker::Model;
use std::thread::Threads;
use texts::{first_word, next_word};

/// The plans of a fleet after `go`, with what their lines are answered by. Contracts see it as the
/// plans under their names.
#[derive(Drop)]
pub struct Serving {
    pub(crate) answerer: FleetAnswerer,
    pub(crate) entries: Vec<FleetEntry>,
}

impl Model for Serving {
    ghost use Rattle.std.specs.Prelude.{List};
    ghost use Rattle.multiplexed_commands.specs.Merged.{Member};
    ghost use Rattle.event_phase.specs.EventRuns.{EventRun};
    ghost use Rattle.fleet_command.specs.FleetStands.{ArePlaced, HaveCapacity, members_of};

    ghost Value = { List (Member EventRun) };

    ghost view = { λ serving. members_of serving.answerer.fleet serving.entries.items };

    ghost invariant = { λ serving. ArePlaced serving.answerer.fleet serving.entries.items
        × HaveCapacity serving.answerer.fleet serving.answerer.said.capacity };
}

impl Command for Serving {
    ghost machine = { plans_machine };

    fn longest(&self) -> u32 {
        MOST_LINE
    }

    fn take_line<R: Threads + Sync>(
        self,
        _rt: &R,
        _alloc: Global,
        answer: &mut Answer,
        number: u32,
        line: &[u8],
    ) -> Result<Flow<Serving>, AllocError> {
        let Some((name, rest)) = first_word(line) else {
            return Ok(Flow::Continue(self));
        };
        if name == b"end".as_slice() && next_word(rest).is_none() {
            return Ok(Flow::Finish(End::Done));
        }
        match place_of(self.entries.as_slice(), name) {
            Some(place) => {
                let own = after_first(line);
                Ok(Flow::Continue(answer_line(self, answer, place, number, own)))
            }
            None => {
                let fault = Fault::Format(number, FormatKind::UnknownName);
                fault.put(answer);
                Ok(Flow::Finish(fault.end()))
            }
        }
    }

    fn stop(&self, answer: &mut Answer, number: u32, stop: Stop) -> End {
        let fault = stop_fault(number, stop, FormatKind::NoEnd);
        fault.put(answer);
        fault.end()
    }
}

/// Answers a line of the plan at a place among the entries, which stands there without the name, by
/// the plan's own count of its lines. The answer stands in place of what stood in the buffer.
fn answer_line(
    serving: Serving,
    answer: &mut Answer,
    place: usize,
    number: u32,
    line: &[u8],
) -> Serving
    requires spare_capacity { fleet_capacity serving ≤ answer.old.capacity }
    requires within { place < length serving }
    requires line { length line.now ≤ most_line }
    ensures answers { AnswersMember serving place number line.now answer.new.text result }
    ensures spare_capacity { fleet_capacity result ≤ answer.new.capacity }
{
    answer.has_capacity();
    answer.clear();
    let Serving {
        mut answerer,
        mut entries,
    } = serving;
    let entry = entries[place];
    let count = entry.count.saturating_add(1).min(number);
    entries[place] = FleetEntry { count, ..entry };
    answerer.answer(entry.slot, count, line);
    put_named(answer, entry.name.bytes(), answerer.said.bytes());
    Serving { answerer, entries }
}
