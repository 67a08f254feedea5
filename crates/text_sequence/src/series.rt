//! A series of texts, and how far it was read.

ghost use Rattle.text_sequence.specs.Series.{series_reader};

use crate::read_texts::Done;
use crate::separators::{Separator, Separators};
use command_engine::{Parse, Stop, Text};
use plan_port::MOST_LINE;
use std::alloc::{AllocError, Global};

/// A series of texts, and how far it was read, with what reads the lines between them.
#[derive(Drop)]
pub enum Series<O, K, V, S> {
    /// These were read, each under its key, and more are to come.
    Between(O, Done<(K, V)>),
    /// These were read, and one is read under this key.
    Within(O, Done<(K, V)>, K, S),
}

impl<O: Separators> Text for Series<O, O::Key, <O::Text as Text>::Value, O::Text> {
    type Value = Done<(O::Key, <O::Text as Text>::Value)>;

    type Fault = <O::Text as Text>::Fault;

    ghost reader = { series_reader O.between O.Text.reader O.initial_text };

    fn longest(&self) -> u32 {
        match self {
            Series::Between(..) => MOST_LINE,
            Series::Within(_, _, _, text) => text.longest(),
        }
    }

    fn read_line(
        self,
        alloc: Global,
        number: u32,
        line: &[u8],
    ) -> Result<Parse<Self, Self::Value, Self::Fault>, AllocError> {
        match self {
            Series::Between(separators, done) => {
                match separators.open(alloc, done.as_slice(), number, line)? {
                    Separator::Passes => Ok(Parse::Continue(Series::Between(separators, done))),
                    Separator::Opens(key) => {
                        let text = separators.initial(alloc);
                        Ok(Parse::Continue(Series::Within(separators, done, key, text)))
                    }
                    Separator::Closes => Ok(Parse::Parsed(done)),
                    Separator::Refuses(fault) => Ok(Parse::Refused(fault)),
                }
            }
            Series::Within(separators, mut done, key, text) => {
                match text.read_line(alloc, number, line)? {
                    Parse::Continue(text) => Ok(Parse::Continue(Series::Within(
                        separators, done, key, text,
                    ))),
                    Parse::Parsed(value) => {
                        done.push((key, value))?;
                        Ok(Parse::Continue(Series::Between(separators, done)))
                    }
                    Parse::Refused(fault) => Ok(Parse::Refused(fault)),
                }
            }
        }
    }

    fn stop(&self, number: u32, stop: Stop) -> Self::Fault {
        match self {
            Series::Between(separators, done) => separators.stop(done.as_slice(), number, stop),
            Series::Within(_, _, _, text) => text.stop(number, stop),
        }
    }
}
