//! What an executor answers, in words.

use crate::live::Live;
use execution_model::{Fed, Finished, Why};
use net_model::{Network, PointId};
use std::test::Fail;

/// An answer: a word, a cause, and the point and the moment that it names.
#[derive(Clone, Copy)]
struct AnswerWords {
    word: &'static str,
    point: Option<PointId>,
    moment: Option<u64>,
}

fn cause(why: Why) -> AnswerWords {
    let (word, point, moment) = match why {
        Why::NotLater(last) => ("not-later", None, Some(last)),
        Why::NotContingent(point) => ("not-contingent", Some(point), None),
        Why::Twice(point, moment) => ("twice", Some(point), Some(moment)),
        Why::NotActive(point) => ("not-active", Some(point), None),
        Why::TooSoon(point, moment) => ("too-soon", Some(point), Some(moment)),
        Why::Overdue(point, moment) => ("overdue", Some(point), Some(moment)),
        Why::MomentLimit => ("moment-limit", None, None),
    };
    AnswerWords {
        word,
        point,
        moment,
    }
}

/// Pushes a blank and the name of a point.
fn push_point(net: &Network, point: PointId, text: &mut String) -> Result<(), Fail> {
    match net.points().get(point.0 as usize) {
        Some(name) => Ok(write!(text, " {name}")?),
        None => Err(Fail::from("no point")),
    }
}

/// Pushes a blank and a moment.
fn push_moment(moment: u64, text: &mut String) -> Result<(), Fail> {
    Ok(write!(text, " {moment}")?)
}

/// Pushes the words of an answer.
fn push_words(net: &Network, reported: &AnswerWords, text: &mut String) -> Result<(), Fail> {
    text.push_str(reported.word)?;
    if let Some(point) = reported.point {
        push_point(net, point, text)?;
    }
    if let Some(moment) = reported.moment {
        push_moment(moment, text)?;
    }
    Ok(())
}

/// Pushes a word and the words of a cause.
fn push_cause(net: &Network, word: &str, why: Why, text: &mut String) -> Result<(), Fail> {
    text.push_str(word)?;
    push_words(net, &cause(why), text)
}

/// Pushes the answer to a feed.
pub(crate) fn push_fed(net: &Network, answer: Fed, text: &mut String) -> Result<(), Fail> {
    match answer {
        Fed::Acts => Ok(text.push_str("acts")?),
        Fed::Refused(why) => push_cause(net, "refused ", why, text),
        Fed::Ended(why) => push_cause(net, "ended ", why, text),
    }
}

/// Pushes the answer to the end.
pub(crate) fn push_finished(
    net: &Network,
    answer: Finished,
    text: &mut String,
) -> Result<(), Fail> {
    match answer {
        Finished::Complete => Ok(text.push_str("complete")?),
        Finished::Unfinished(point) => {
            text.push_str("unfinished")?;
            push_point(net, point, text)
        }
        Finished::Ended(why) => push_cause(net, "ended ", why, text),
    }
}

/// Pushes a blank and a moment, or `-` for none.
fn push_maybe(moment: Option<u64>, text: &mut String) -> Result<(), Fail> {
    match moment {
        Some(moment) => push_moment(moment, text),
        None => Ok(text.push_str(" -")?),
    }
}

fn push_acts(net: &Network, live: &Live, text: &mut String) -> Result<(), Fail> {
    for act in live.acts() {
        push_moment(act.moment, text)?;
        push_point(net, act.point, text)?;
    }
    Ok(())
}

fn push_moments(net: &Network, live: &Live, text: &mut String) -> Result<(), Fail> {
    for point in 0..net.points().len() as u32 {
        push_maybe(live.moment_of(PointId(point)), text)?;
    }
    Ok(())
}

/// Pushes the last acts, the next due moment, and the moment of each point, in order of number.
pub(crate) fn push_state(net: &Network, live: &Live, text: &mut String) -> Result<(), Fail> {
    text.push_str(":")?;
    push_acts(net, live, text)?;
    text.push_str(", due")?;
    push_maybe(live.next_due(), text)?;
    text.push_str(", at")?;
    push_moments(net, live, text)
}
