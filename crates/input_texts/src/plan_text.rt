//! The text of a plan: the delay and the parts that it declares, and the network that they build.

ghost use Rattle.std.specs.Prelude.{◌≡◌};
ghost use Rattle.input_texts.specs.PlanText.{parts_reader, initial_plan};
ghost use Rattle.input_texts.specs.PlanTexts.{parts_tests, parts_texts};

use crate::plan_network::PlanNetwork;
use command_engine::{InGrammar, Parse, Stop, Test, Text};
use common_answers::{Fault, stop_fault};
use net_model::{Part, WordFault};
use plan_format::{DeclarationFault, PlanLine, PlanReader};
use plan_port::MOST_LINE;
use std::alloc::{AllocError, Global};
use std::marker::Model;

/// A plan text, and how far it was read. It says the delay and the parts that it declares.
#[derive(Drop)]
pub struct PlanText {
    reader: PlanReader,
}

/// The delay and the parts that a plan text declares, and the number of the line of each part in
/// the input.
#[derive(Drop)]
pub struct Declarations {
    reader: PlanReader,
}

impl Model for Declarations {
    ghost use Rattle.input_texts.specs.BuiltPlans.{DeclaredParts};

    ghost Value = { DeclaredParts };

    ghost view = { λ declared. record {
      delay = declared.reader.delay;
      parts = declared.reader.parts;
      lines = declared.reader.lines;
    } };
}

impl Declarations {
    ghost use Rattle.std.specs.Prelude.{IfOk};
    ghost use Rattle.input_texts.specs.BuiltPlans.{network_of_parts};

    /// The parts, in their order.
    pub fn parts(&self) -> &[Part]
        ensures { result.now ≡ self.now.parts }
    {
        self.reader.parts()
    }

    /// The number of the line of each part.
    pub fn lines(&self) -> &[u32]
        ensures { result.now ≡ self.now.lines }
    {
        self.reader.lines()
    }

    /// The network of the delay and the parts, or the first part that is refused, reported by the
    /// number of its line. `AllocError` comes only for want of memory.
    pub fn build(&self, alloc: Global) -> Result<Result<PlanNetwork, Fault>, AllocError>
        ensures { IfOk result (λ made. made ≡ network_of_parts self.now) }
    {
        match self.reader.build(alloc) {
            Ok(net) => Ok(Ok(PlanNetwork::new(net))),
            Err(DeclarationFault::Refused(line, fault)) => Ok(Err(Fault::Part(line, fault))),
            Err(DeclarationFault::OutOfMemory) => Err(AllocError),
        }
    }
}

impl PlanText {
    /// Before the first line.
    pub fn new(alloc: Global) -> PlanText
        ensures { result ≡ initial_plan }
    {
        PlanText {
            reader: PlanReader::new(alloc),
        }
    }

    /// What was declared.
    fn into_declarations(self) -> Declarations
        ensures { result ≡ record {
          delay = self.reader.delay;
          parts = self.reader.parts;
          lines = self.reader.lines;
        } }
    {
        let PlanText { reader } = self;
        Declarations { reader }
    }
}

impl Text for PlanText {
    type Value = Declarations;

    type Fault = Fault;

    ghost reader = { parts_reader };

    fn longest(&self) -> u32 {
        MOST_LINE
    }

    fn read_line(
        mut self,
        _alloc: Global,
        number: u32,
        line: &[u8],
    ) -> Result<Parse<PlanText, Declarations, Fault>, AllocError> {
        match self.reader.read_line(number, line) {
            Ok(PlanLine::End) => Ok(Parse::Parsed(self.into_declarations())),
            Ok(_) => Ok(Parse::Continue(self)),
            Err(WordFault::Kind(kind)) => Ok(Parse::Refused(Fault::Format(number, kind))),
            Err(WordFault::OutOfMemory) => Err(AllocError),
        }
    }

    fn stop(&self, number: u32, stop: Stop) -> Fault {
        stop_fault(number, stop, self.reader.missing())
    }
}

impl InGrammar for PlanText {
    ghost initial_text = { initial_plan };

    ghost grammar = { parts_texts };

    fn reads_by_grammar() {}
}

/// The test of what a plan text declares: that it builds a network.
#[derive(Clone, Copy, Debug, PartialEq, Eq)]
pub struct BuildPlan;

impl Test<Declarations, Fault> for BuildPlan {
    type Value = PlanNetwork;

    ghost tests = { parts_tests };

    fn test(
        &self,
        alloc: Global,
        value: Declarations,
        _number: u32,
    ) -> Result<Result<PlanNetwork, Fault>, AllocError> {
        value.build(alloc)
    }
}
