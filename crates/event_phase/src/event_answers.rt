//! The answers to events: acts, due moments, and why an event is refused.

ghost use Rattle.std.specs.Prelude.{◌≡◌, ◌≤◌, ◌++◌, ◌∷◌, ◌*◌, ◌+◌, [], length};
ghost use Rattle.std.specs.Fmt.{decimal};
ghost use Rattle.std.specs.List.{All};
ghost use Rattle.net_model.specs.Network.{IsPoint};
ghost use Rattle.command_engine.specs.Limits.{least_capacity};
ghost use Rattle.command_engine.specs.Words.{most_word, word_text};
ghost use Rattle.command_engine.specs.declared.endings.End.TheVariants.{EventRefused};
ghost use Rattle.net_model.specs.NetworkParts.{point_name};
ghost use Rattle.event_phase.specs.EventAnswers.{acts_text, act_line, due_line, complete_line};
ghost use Rattle.event_phase.specs.EventAnswers.{most_act, NamesPoints, why_words};
ghost use Rattle.event_phase.specs.EventAnswers.{unfinished_words, event_refusal_line};
ghost use Rattle.event_phase.specs.EventAnswers.{event_fault_line};
ghost use Rattle.common_answers.specs.Faults.{fault_end};
ghost use Rattle.common_answers.specs.declared.faults.Fault.TheVariants.{Format};

use command_engine::{Answer, End, Refusal, Word};
use common_answers::Fault;
use execution_model::{Act, MOST_MOMENT, Why};
use net_model::{FormatKind, Network, PointId};

/// How many bytes the line of an act takes at most.
pub(crate) const MOST_ACT: usize = 64;

/// Puts a line for each of these acts.
pub(crate) fn put_acts(answer: &mut Answer, net: &Network, acts: &[Act])
    requires points { All (λ act. IsPoint net.now act.point) acts.now }
    requires spare_capacity { length answer.old.text + most_act * length
        acts.now ≤ answer.old.capacity }
    ensures text { answer.new.text ≡ answer.old.text ++ acts_text net.now acts.now }
    ensures size { length answer.new.text ≤ length answer.old.text + most_act * length acts.now }
    ensures capacity { answer.old.capacity ≤ answer.new.capacity }
{
    for act in acts {
        put_act(answer, net, act);
    }
}

fn put_act(answer: &mut Answer, net: &Network, act: &Act)
    requires point { IsPoint net.now act.now.point }
    requires spare_capacity { length answer.old.text + most_act ≤ answer.old.capacity }
    ensures text { answer.new.text ≡ answer.old.text ++ act_line net.now act.now }
    ensures size { length answer.new.text ≤ length answer.old.text + most_act }
    ensures capacity { answer.old.capacity ≤ answer.new.capacity }
{
    answer.put_line(&[
        Word::Text("act"),
        Word::Number(act.moment),
        Word::Name(name_of(net, act.point)),
    ]);
}

/// Puts the next due moment, without memory.
pub fn put_due(answer: &mut Answer, due: Option<u64>)
    requires { length answer.old.text + most_act ≤ answer.old.capacity }
    ensures text { answer.new.text ≡ answer.old.text ++ due_line due }
    ensures size { length answer.new.text ≤ length answer.old.text + most_act }
    ensures capacity { answer.old.capacity ≤ answer.new.capacity }
{
    match due {
        Some(moment) => answer.put_line(&[Word::Text("due"), Word::Number(moment)]),
        None => answer.put_line(&[Word::Text("due"), Word::Text("none")]),
    }
}

/// Puts that the execution is complete.
pub(crate) fn put_complete(answer: &mut Answer)
    requires { length answer.old.text + least_capacity ≤ answer.old.capacity }
    ensures text { answer.new.text ≡ answer.old.text ++ complete_line }
    ensures size { length answer.new.text ≤ length answer.old.text + least_capacity }
    ensures capacity { answer.old.capacity ≤ answer.new.capacity }
{
    answer.put_line(&[Word::Text("complete")]);
}

/// Refuses a line that is no line of events, without memory: its line stands in place of what stood
/// in the buffer.
pub fn refuse_line(answer: &mut Answer, number: u32, kind: FormatKind) -> End
    ensures put { answer.new.text ≡ event_fault_line number kind }
    ensures size { length answer.new.text ≤ least_capacity }
    ensures end { result ≡ fault_end (Format number kind) }
    ensures capacity { answer.old.capacity ≤ answer.new.capacity }
{
    if kind == FormatKind::NumberLimit {
        answer.has_capacity();
        answer.clear();
        answer.put_line(&[
            Word::Text("error"),
            Word::Text("limit"),
            Word::Number(u64::from(number)),
            Word::Text("moment"),
        ]);
        return End::Limit;
    }
    let fault = Fault::Format(number, kind);
    fault.put(answer);
    fault.end()
}

/// Refuses an event, for this cause.
pub(crate) fn refuse_event(answer: &mut Answer, net: &Network, number: u32, why: Why) -> End
    requires { NamesPoints net.now why }
    ensures put { answer.new.text ≡ event_refusal_line number (why_words net.now why) }
    ensures size { length answer.new.text ≤ least_capacity }
    ensures end { result ≡ EventRefused }
    ensures capacity { answer.old.capacity ≤ answer.new.capacity }
{
    match why {
        Why::NotLater(last) => refuse(answer, number, "not-later", Word::Number(last)),
        Why::NotContingent(point) => refuse_point(answer, net, number, "not-contingent", point),
        Why::Twice(point, moment) => refuse_point_at(answer, net, number, "twice", point, moment),
        Why::NotActive(point) => refuse_point(answer, net, number, "not-active", point),
        Why::TooSoon(point, earliest) => {
            refuse_point_at(answer, net, number, "too-soon", point, earliest)
        }
        Why::Overdue(point, latest) => {
            refuse_point_at(answer, net, number, "overdue", point, latest)
        }
        Why::MomentLimit => refuse(answer, number, "moment", Word::Number(MOST_MOMENT)),
    }
    End::EventRefused
}

/// Refuses the end of an execution in which a contingent point has not completed.
pub(crate) fn refuse_end(answer: &mut Answer, net: &Network, number: u32, point: PointId) -> End
    requires { IsPoint net.now point }
    ensures put { answer.new.text ≡ event_refusal_line number (unfinished_words net.now point) }
    ensures size { length answer.new.text ≤ least_capacity }
    ensures end { result ≡ EventRefused }
    ensures capacity { answer.old.capacity ≤ answer.new.capacity }
{
    refuse_point(answer, net, number, "unfinished", point);
    End::EventRefused
}

/// Puts the line of an event that is refused: a word, and the name of a point.
fn refuse_point(answer: &mut Answer, net: &Network, number: u32, word: &str, point: PointId)
    requires { (length word.now ≤ 32) × IsPoint net.now point }
    ensures put { answer.new.text ≡ event_refusal_line number
        (word.now ∷ point_name net.now.points point ∷ []) }
    ensures size { length answer.new.text ≤ least_capacity }
    ensures capacity { answer.old.capacity ≤ answer.new.capacity }
{
    refuse(answer, number, word, Word::Name(name_of(net, point)));
}

/// Puts the line of an event that is refused: a word, the name of a point, and a moment.
fn refuse_point_at(
    answer: &mut Answer,
    net: &Network,
    number: u32,
    word: &str,
    point: PointId,
    moment: u64,
)
    requires { (length word.now ≤ 32) × IsPoint net.now point }
    ensures put { answer.new.text ≡ event_refusal_line number
        (word.now ∷ point_name net.now.points point ∷ decimal moment ∷ []) }
    ensures size { length answer.new.text ≤ least_capacity }
    ensures capacity { answer.old.capacity ≤ answer.new.capacity }
{
    refuse_at(
        answer,
        number,
        word,
        Word::Name(name_of(net, point)),
        moment,
    );
}

/// Puts the line of an event that is refused: a word, and what it names.
fn refuse<'a>(answer: &mut Answer, number: u32, word: &'a str, of: Word<'a>)
    requires { (length word.now ≤ 32) × (most_word of ≤ 32) }
    ensures put { answer.new.text ≡ event_refusal_line number (word.now ∷ word_text of.entry ∷ []) }
    ensures size { length answer.new.text ≤ least_capacity }
    ensures capacity { answer.old.capacity ≤ answer.new.capacity }
{
    let line = Word::Number(u64::from(number));
    answer.has_capacity();
    answer.clear();
    answer.put_line(&[
        Word::Text("error"),
        Word::Text("event"),
        line,
        Word::Text(word),
        of,
    ]);
}

/// Puts the line of an event that is refused: a word, a point, and a moment.
fn refuse_at<'a>(answer: &mut Answer, number: u32, word: &'a str, point: Word<'a>, moment: u64)
    requires { (length word.now ≤ 32) × (most_word point ≤ 32) }
    ensures put { answer.new.text ≡ event_refusal_line number
        (word.now ∷ word_text point.entry ∷ decimal moment ∷ []) }
    ensures size { length answer.new.text ≤ least_capacity }
    ensures capacity { answer.old.capacity ≤ answer.new.capacity }
{
    answer.has_capacity();
    answer.clear();
    answer.put_line(&[
        Word::Text("error"),
        Word::Text("event"),
        Word::Number(u64::from(number)),
        Word::Text(word),
        point,
        Word::Number(moment),
    ]);
}

/// The name of a point, of at most 32 bytes.
fn name_of(net: &Network, point: PointId) -> &[u8]
    requires { IsPoint net.now point }
    ensures text { result.now ≡ point_name net.now.points point }
    ensures size { length result.now ≤ 32 }
{
    net.point_name(point).bytes()
}
