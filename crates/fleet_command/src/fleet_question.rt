//! The command `fleet`, and what it puts at `go`.

ghost use Rattle.std.specs.Prelude.{◌≡◌, ◌≤◌, ◌<◌, length, OnOk, slice_get, Some};
ghost use Rattle.net_model.specs.Limits.{most_points};
ghost use Rattle.multiplexed_commands.specs.NamedLines.{IsOfWholeLines};
ghost use Rattle.texts.specs.PrintedLines.{printed_line};
ghost use Rattle.command_contracts.specs.Programs.{or_nothing};
ghost use Rattle.fleet_command.specs.FleetCauses.{fleet_causes};
ghost use Rattle.fleet_command.specs.FleetCommand.{fleet_request, fleet_begins, fleet_start};
ghost use Rattle.fleet_command.specs.FleetCommand.{fleet_syntax, refusal_words};
ghost use Rattle.fleet_command.specs.FleetPromise.{FleetPromise};
ghost use Rattle.fleet_command.specs.PlanDivision.{BeginsAll, SlotBegins, HaveAtMost};
ghost use Rattle.fleet_command.specs.declared.entries.FleetSlot.TheVariants.{Opened};

use crate::entries::{FleetEntry, FleetSlot};
use crate::fleet_phase::Serving;
use crate::own_lines::FleetAnswerer;
use crate::plan_division::{Divided, divide};
use crate::plans_text::{FleetText, Plans, initial};
use command_contracts::{OneRun, Request, Specified};
use command_engine::{Answer, Begin, Flow, LEAST_CAPACITY, TextThenPhase, Word};
use command_words::{Arguments, Syntax};
use event_phase::put_due;
use event_stream::EventReader;
use event_stream::laws::law_lines_have_one_reading;
use execution_model::laws as execution_laws;
use multiplexed_commands::push_named;
use net_model::BuildFault;
use parallel_rounds::NoGate;
use plan_fleet::{Fleet, State};
use std::alloc::{AllocError, Global};
use std::thread::Threads;

/// How many bytes a byte of an answer takes at most once its line stands after a name of at most 32
/// bytes.
const MOST_NAMED: usize = 34;

/// How many bytes the line of an act takes at most.
const MOST_ACT: usize = 64;

/// Plans side by side: the command `fleet` reads plans, each under a name. At `go` it puts of each
/// whether a strategy controls its network, and then its first due moment, or which part is
/// refused. From then on each line belongs to the plan that it names first, and is answered as
/// `run` answers it for that plan alone, after the plan's name. The line `end` ends it with 0.
///
/// What a plan is answered depends on no other plan and on no line of another. A plan that is not
/// controllable, or of which a part is refused, is answered `idle` to each of its lines that is not
/// passed over, and so is one whose run ended. The fault of an input that ends too soon is put
/// once, and after no name. The command never ends with 1 or 7, and with 8 only before `go` was
/// answered, with nothing put. That plans are decided side by side, and that one buffer is used for
/// all answers, no clause says. What it promises is `FleetPromise`.
#[derive(Clone, Copy, Debug, PartialEq, Eq)]
pub struct FleetQuestion;

/// The command: how far its input was read.
pub type FleetReading = TextThenPhase<FleetQuestion, FleetText, Serving>;

impl Request for FleetQuestion {
    ghost syntax = { fleet_syntax };

    ghost query = { fleet_request };

    fn words() -> Syntax<'static> {
        Syntax {
            flags: &[],
            options: &[],
            operands: &[],
        }
    }

    fn of(_arguments: &Arguments<'_>) -> Option<FleetQuestion> {
        Some(FleetQuestion)
    }

    fn workers_decide_nothing() {}
}

impl Begin<((), Plans)> for FleetQuestion {
    type Phase = Serving;

    ghost begins = { fleet_begins };

    fn begin<R: Threads + Sync>(
        self,
        rt: &R,
        alloc: Global,
        answer: &mut Answer,
        value: ((), Plans),
    ) -> Result<Flow<Serving>, AllocError> {
        let (_, plans) = value;
        let Divided { entries, nets } = divide(alloc, plans.into_vec())?;
        let count = nets.len() as u32;
        let fleet = Fleet::open(rt, alloc, nets, &NoGate)?;
        let events = EventReader::new(alloc)?;
        let mut said = Answer::new(alloc)?;
        put_starts(answer, &mut said, &fleet, entries.as_slice())?;
        let spare_capacity = MOST_ACT * most_points(&fleet, count) + LEAST_CAPACITY;
        said.clear();
        said.reserve(spare_capacity)?;
        answer.reserve(MOST_NAMED * spare_capacity + 1)?;
        let answerer = FleetAnswerer {
            fleet,
            events,
            said,
        };
        Ok(Flow::Continue(Serving { answerer, entries }))
    }
}

impl Specified for FleetQuestion {
    type Request = FleetQuestion;

    type Served = FleetReading;

    ghost start = { fleet_start };

    ghost promise = { λ query. or_nothing fleet_causes FleetPromise };

    fn initial(alloc: Global, request: FleetQuestion) -> FleetReading {
        TextThenPhase::Reading(request, initial(alloc))
    }

    fn keeps_its_promise() {
        law_lines_have_one_reading();
        execution_laws::law_faithful_streams_are_taken();
        execution_laws::law_done_where_none_is_open();
        execution_laws::law_ends_are_earliest();
        execution_laws::law_acts_are_earliest();
        execution_laws::law_last_acts_are_earliest();
        execution_laws::law_streams_are_shown();
        execution_laws::law_acts_are_shown();
    }

    fn ends_by_its_causes() {}

    fn keeps_it_without_memory() {}
}

impl OneRun for FleetQuestion {
    fn defines_one() {
        law_lines_have_one_reading();
    }
}

/// The greatest number of points that a network of a fleet has.
fn most_points(fleet: &Fleet, count: u32) -> usize
    requires { length fleet.now ≡ count }
    ensures most { HaveAtMost result fleet.now }
    ensures limit { result ≤ most_points }
{
    let mut most = 0;
    for place in 0..count {
        most = most.max(fleet.network(place).points().len());
    }
    most
}

/// Puts of each plan how it begins, after its name, in place of what stood in the buffer.
/// `AllocError` comes only for want of memory.
fn put_starts(
    answer: &mut Answer,
    said: &mut Answer,
    fleet: &Fleet,
    entries: &[FleetEntry],
) -> Result<(), AllocError>
    requires placed { (at place : _) (entry : _) → slice_get entries.now at ≡ Some entry
        → entry.slot ≡ Opened place → place < length fleet.now }
    ensures { OnOk result (BeginsAll fleet.now entries.now answer.new.text) }
{
    answer.clear();
    for entry in entries {
        say_start(said, fleet, entry.slot);
        push_named(answer, entry.name.bytes(), said.bytes())?;
    }
    Ok(())
}

/// Puts how one plan begins in place of what stood in the buffer.
fn say_start(said: &mut Answer, fleet: &Fleet, slot: FleetSlot)
    requires placed { (place : _) → slot ≡ Opened place → place < length fleet.now }
    ensures says { SlotBegins fleet.now slot said.new.text }
    ensures whole { IsOfWholeLines said.new.text }
{
    match slot {
        FleetSlot::Refused(why) => say_refusal(said, why),
        FleetSlot::Opened(place) => {
            if fleet.state(place) == State::Running {
                said.has_capacity();
                said.clear();
                said.put_line(&[Word::Text("controllable")]);
                put_due(said, fleet.next_due(place));
            } else {
                said.refuse(&[Word::Text("not controllable")]);
            }
        }
    }
}

/// Puts which part of a plan is refused in place of what stood in the buffer.
fn say_refusal(said: &mut Answer, why: BuildFault)
    ensures { said.new.text ≡ printed_line (refusal_words why) }
{
    let place = Word::Number(u64::from(why.place().unwrap_or(0)));
    match why {
        BuildFault::Limit(which, _) => {
            said.refuse(&[
                Word::Text("refused"),
                Word::Text("limit"),
                place,
                Word::Text(which.word()),
            ]);
        }
        _ => {
            said.refuse(&[
                Word::Text("refused"),
                Word::Text("plan"),
                place,
                Word::Text(why.word()),
            ]);
        }
    }
}
