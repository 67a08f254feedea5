//! Answers at a desk as words.

use execution_model::{Fed, Finished};
use net_model::PointId;
use sensor_desk::{Closing, Followed};
use std::alloc::Global;
use std::test::Fail;

/// An answer: a word, the number of a point or a link, and a moment.
#[derive(Clone, Copy, Debug)]
pub(crate) struct AnswerWords {
    word: &'static str,
    number: Option<u32>,
    moment: Option<u64>,
}

impl AnswerWords {
    pub(crate) fn word(word: &'static str) -> AnswerWords {
        AnswerWords {
            word,
            number: None,
            moment: None,
        }
    }

    pub(crate) fn at(word: &'static str, moment: u64) -> AnswerWords {
        AnswerWords {
            word,
            number: None,
            moment: Some(moment),
        }
    }

    fn of(word: &'static str, number: u32) -> AnswerWords {
        AnswerWords {
            word,
            number: Some(number),
            moment: None,
        }
    }
}

/// The word, and the numbers after it.
pub(crate) fn push_answer_words(
    alloc: Global,
    text: &mut String,
    reported: AnswerWords,
) -> Result<(), Fail> {
    text.push_str(reported.word)?;
    if let Some(number) = reported.number {
        push_number(alloc, text, u64::from(number))?;
    }
    if let Some(moment) = reported.moment {
        push_number(alloc, text, moment)?;
    }
    Ok(())
}

fn push_number(alloc: Global, text: &mut String, number: u64) -> Result<(), Fail> {
    text.push_str(format!(in alloc; " {number}")?.as_str())?;
    Ok(())
}

pub(crate) fn words_of_followed(followed: Followed) -> AnswerWords {
    match followed {
        Followed::Late(PointId(point), moment) => AnswerWords {
            word: "late",
            number: Some(point),
            moment: Some(moment),
        },
        Followed::Fed(Fed::Acts) => AnswerWords::word("acts"),
        Followed::Fed(Fed::Refused(_)) => AnswerWords::word("refused"),
        Followed::Fed(Fed::Ended(_)) => AnswerWords::word("ended"),
    }
}

pub(crate) fn words_of_finished(finished: Finished) -> AnswerWords {
    match finished {
        Finished::Complete => AnswerWords::word("complete"),
        Finished::Unfinished(point) => AnswerWords::of("unfinished", point.0),
        Finished::Ended(_) => AnswerWords::word("ended"),
    }
}

pub(crate) fn words_of_closing(closing: Closing) -> AnswerWords {
    match closing {
        Closing::Agreed => AnswerWords::word("agreed"),
        Closing::Differs(link) => AnswerWords::of("differs", link.0),
    }
}
