//! The header of a fleet.

ghost use Rattle.std.specs.Prelude.{◌≡◌};
ghost use Rattle.texts.specs.Words.{words};
ghost use Rattle.fleet_command.specs.FleetHeader.{are_header, initial_header, header_reader};
ghost use Rattle.fleet_command.specs.FleetHeader.{header_texts};

use command_engine::{InGrammar, Parse, Stop, Text};
use common_answers::{Fault, stop_fault};
use net_model::FormatKind;
use plan_port::MOST_LINE;
use std::alloc::{AllocError, Global};
use texts::{first_word, next_word};

/// The header of a fleet: the first line that is not passed over is `fleet 1`.
#[derive(Clone, Copy, Debug, PartialEq, Eq)]
pub struct FleetHeader;

/// Whether the words of a line are those of the header.
fn is_header(line: &[u8]) -> bool
    ensures { result ≡ are_header (words line.now) }
{
    let Some((first, rest)) = next_word(line) else {
        return false;
    };
    let Some((second, rest)) = next_word(rest) else {
        return false;
    };
    if next_word(rest).is_some() {
        return false;
    }
    first == b"fleet".as_slice() && second == b"1".as_slice()
}

impl Text for FleetHeader {
    type Value = ();

    type Fault = Fault;

    ghost reader = { header_reader };

    fn longest(&self) -> u32 {
        MOST_LINE
    }

    fn read_line(
        self,
        _alloc: Global,
        number: u32,
        line: &[u8],
    ) -> Result<Parse<FleetHeader, (), Fault>, AllocError> {
        if first_word(line).is_none() {
            return Ok(Parse::Continue(self));
        }
        if is_header(line) {
            return Ok(Parse::Parsed(()));
        }
        Ok(Parse::Refused(Fault::Format(number, FormatKind::NoHeader)))
    }

    fn stop(&self, number: u32, stop: Stop) -> Fault {
        stop_fault(number, stop, FormatKind::NoHeader)
    }
}

impl InGrammar for FleetHeader {
    ghost initial_text = { initial_header };

    ghost grammar = { header_texts };

    fn reads_by_grammar() {}
}
