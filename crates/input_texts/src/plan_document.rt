//! A plan as a JSON document: its bytes, and the network that they declare.

ghost use Rattle.std.specs.Prelude.{◌≡◌, ◌<◌, ◌≤ℤ◌, ◌^◌, pos, unsigned_abs, length, IfOk, OnOk};
ghost use Rattle.net_model.specs.BuiltNetwork.{declared_net};
ghost use Rattle.net_model.specs.Limits.{most_delay};
ghost use Rattle.texts.specs.Words.{words};
ghost use Rattle.command_engine.specs.declared.machines.Stop.{Stop};
ghost use Rattle.input_texts.specs.DocumentTexts.{bytes_tests, bytes_texts};
ghost use Rattle.input_texts.specs.BuiltPlans.{placed_by};
ghost use Rattle.input_texts.specs.PlanDocument.{are_end, bytes_reader, initial_document};
ghost use Rattle.input_texts.specs.PlanDocument.{document_stop, with_line};

use crate::plan_network::PlanNetwork;
use command_engine::{InGrammar, Parse, Stop, Test, Text};
use common_answers::Fault;
use net_model::{FormatKind, Items, Network, Part, Weight};
use plan_json::{JsonFault, from_json};
use std::alloc::{AllocError, Global};
use std::marker::Model;

/// The greatest number of bytes of the lines of a document and of the line that ends it, line ends
/// not among them.
const MOST_DOCUMENT: usize = 67_108_864;

/// A plan as a JSON document, and how far it was read: up to the first line whose only word is
/// `end`. It says the bytes of the document.
#[derive(Drop)]
pub struct PlanDocument {
    bytes: Vec<u8>,
    started: bool,
    left: usize,
}

impl Model for PlanDocument {
    ghost use Rattle.std.specs.Prelude.{◌≡◌, ◌≤◌, false, []};
    ghost use Rattle.input_texts.specs.DocumentSoFar.{DocumentSoFar, most_document};

    ghost Value = { DocumentSoFar };

    ghost view = { λ d. record { bytes = d.bytes.items; started = d.started; left = d.left } };

    ghost invariant = { λ d. (d.left ≤ most_document) × (d.started ≡ false → d.bytes.items ≡ []) };
}

impl PlanDocument {
    /// Before the first line.
    pub fn new(alloc: Global) -> PlanDocument
        ensures { result ≡ initial_document }
    {
        PlanDocument {
            bytes: Vec::new(alloc),
            started: false,
            left: MOST_DOCUMENT,
        }
    }

    /// Takes a line of the document in.
    fn push(&mut self, line: &[u8]) -> Result<(), AllocError>
        ensures { OnOk result (self.new ≡ with_line self.old line.now) }
    {
        if self.started {
            self.bytes.push(b'\n')?;
        }
        self.bytes.extend_from_slice(line)?;
        self.started = true;
        self.left = self.left.saturating_sub(line.len());
        Ok(())
    }

    /// The bytes of the document.
    fn into_bytes(self) -> Items<u8>
        ensures { result ≡ self.bytes }
    {
        let PlanDocument {
            bytes,
            started: _,
            left: _,
        } = self;
        Items::new(bytes)
    }
}

/// Whether the only word of a line is `end`.
fn is_end(line: &[u8]) -> bool
    ensures { result ≡ are_end (words line.now) }
{
    match texts::next_word(line) {
        Some((word, rest)) => word == b"end".as_slice() && texts::next_word(rest).is_none(),
        None => false,
    }
}

impl Text for PlanDocument {
    type Value = Items<u8>;

    type Fault = Fault;

    ghost reader = { bytes_reader };

    fn longest(&self) -> u32 {
        self.left as u32
    }

    fn read_line(
        mut self,
        _alloc: Global,
        _number: u32,
        line: &[u8],
    ) -> Result<Parse<PlanDocument, Items<u8>, Fault>, AllocError> {
        if is_end(line) {
            return Ok(Parse::Parsed(self.into_bytes()));
        }
        self.push(line)?;
        Ok(Parse::Continue(self))
    }

    fn stop(&self, number: u32, stop: Stop) -> Fault {
        stop_fault(number, stop)
    }
}

fn stop_fault(number: u32, stop: Stop) -> Fault
    ensures { result ≡ document_stop number stop }
{
    match stop {
        Stop::LineTooLong => Fault::DocumentTooLong(number),
        Stop::InputTooMuch => Fault::InputTooMuch(number),
        Stop::InputEnded => Fault::Format(number, FormatKind::NoEnd),
    }
}

impl InGrammar for PlanDocument {
    ghost initial_text = { initial_document };

    ghost grammar = { bytes_texts };

    fn reads_by_grammar() {}
}

/// The test of the bytes of a document: that they are a document whose parts build a network.
#[derive(Clone, Copy, Debug, PartialEq, Eq)]
pub struct BuildDocument;

impl Test<Items<u8>, Fault> for BuildDocument {
    type Value = PlanNetwork;

    ghost tests = { bytes_tests };

    fn test(
        &self,
        alloc: Global,
        value: Items<u8>,
        _number: u32,
    ) -> Result<Result<PlanNetwork, Fault>, AllocError> {
        match from_json(alloc, value.as_slice()) {
            Ok(plan) => build(alloc, plan.delay, plan.parts.as_slice()),
            Err(JsonFault::OutOfMemory) => Err(AllocError),
            Err(fault) => Ok(Err(Fault::Document(fault))),
        }
    }
}

/// The network of the delay and the parts of a document, or the first part that is refused,
/// reported by its place.
fn build(
    alloc: Global,
    delay: Weight,
    parts: &[Part],
) -> Result<Result<PlanNetwork, Fault>, AllocError>
    requires few { length parts.now < 2 ^ 32 }
    requires from_nought { pos 0 ≤ℤ delay }
    requires short { delay ≤ℤ pos most_delay }
    ensures { IfOk result (λ made. made ≡ placed_by (declared_net (unsigned_abs delay) parts.now)) }
{
    match Network::build(alloc, parts) {
        Ok(net) => Ok(Ok(PlanNetwork::new(net.with_delay(delay)))),
        Err(fault) => match fault.place() {
            Some(place) => Ok(Err(Fault::Part(place, fault))),
            None => Err(AllocError),
        },
    }
}
