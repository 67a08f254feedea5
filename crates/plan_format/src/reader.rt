//! The lines of a plan text, one after another.

ghost use Rattle.std.specs.Prelude.{◌≡◌, ◌<◌, ◌+◌, ◌∷◌, ◌++◌, [], length, OnOk, OnErr};
ghost use Rattle.net_model.specs.Limits.{most_lines};
ghost use Rattle.texts.specs.Words.{words};
ghost use Rattle.plan_format.specs.PlanReading.{in_section, plan_line_in};
ghost use Rattle.plan_format.specs.declared.version.PlanStage.{PlanStage};
ghost use Rattle.plan_format.specs.declared.version.PlanVersion.{PlanVersion};

use crate::declaration::{DeclarationFault, build};
use crate::plan_line::{PlanLine, plan_line};
use crate::section::PlanSection;
use net_model::{FormatKind, MOST_LINES, Network, Part, Weight, WordFault, between_parts};
use std::alloc::{AllocError, Global};
use std::marker::Model;

/// A plan text of which lines are read one after another. Contracts see it as what was read: the
/// section that is reached, the parts, and the number of the line of each.
#[derive(Debug, Drop)]
pub struct PlanReader {
    section: PlanSection,
    delay: u32,
    parts: Vec<Part>,
    lines: Vec<u32>,
}

impl Model for PlanReader {
    ghost use Rattle.std.specs.Prelude.{◌≡◌, ◌≤◌, length};
    ghost use Rattle.net_model.specs.Limits.{most_delay, most_lines};
    ghost use Rattle.plan_format.specs.PlanReading.{PlanProgress};

    ghost Value = { PlanProgress };

    ghost view = { λ r. record {
      section = r.section;
      delay = r.delay;
      parts = r.parts.items;
      lines = r.lines.items;
    } };

    ghost invariant = { λ r. (length r.lines.items ≡ length r.parts.items)
        × (length r.parts.items ≤ most_lines) × (r.delay ≤ most_delay) };
}

impl PlanReader {
    ghost use Rattle.std.specs.Prelude.{◌≡◌, ◌+◌, ◌≤◌, ℕ, pos, List, ◌++◌, length, IfOk, OnErr};
    ghost use Rattle.std.specs.Prelude.{OnOk};
    ghost use Rattle.net_model.specs.Limits.{most_delay};
    ghost use Rattle.texts.specs.Words.{words};
    ghost use Rattle.net_model.specs.Network.{IsPlan, HasPlanNumbers};
    ghost use Rattle.plan_format.specs.PlanGrammar.{IsPlanText};
    ghost use Rattle.plan_format.specs.PlanFaults.{IsFirstPlanFault};
    ghost use Rattle.plan_format.specs.PlanReading.{PlanLineBrings, IsPrefix, IsLineWithin};
    ghost use Rattle.plan_format.specs.PlanReading.{SaysPlanLine, advanced_plan, initial};
    ghost use Rattle.plan_format.specs.PlanReading.{fault_after, plan_line_in, missing};
    ghost use Rattle.plan_format.specs.PlanNetwork.{AnswersDeclaration, BuildsParts};

    /// A reader that has read no line. It takes no memory.
    pub fn new(alloc: Global) -> PlanReader
        ensures initial { result ≡ initial }
        ensures nothing { IsPrefix [] result }
    {
        PlanReader {
            section: PlanSection::Header,
            delay: 0,
            parts: Vec::new(alloc),
            lines: Vec::new(alloc),
        }
    }

    /// The section that is reached.
    pub fn section(&self) -> PlanSection
        ensures { result ≡ self.now.section }
    {
        self.section
    }

    /// The delay that was read, in whole moments, or 0.
    pub fn delay(&self) -> Weight
        ensures stated { result ≡ pos self.now.delay }
        ensures short { self.now.delay ≤ most_delay }
    {
        Weight::from(self.delay)
    }

    /// The parts that were declared, in their order.
    pub fn parts(&self) -> &[Part]
        ensures { result.now ≡ self.now.parts }
    {
        self.parts.as_slice()
    }

    /// The number of the line of each part, from 1.
    pub fn lines(&self) -> &[u32]
        ensures { result.now ≡ self.now.lines }
    {
        self.lines.as_slice()
    }

    /// Reads the next line, which has this number, in its place and keeps what it declares. With
    /// `End` the plan has ended, and the caller reads nothing more. The fault of a line that cannot
    /// come is the first one of its text: `NoHeader` before the header, `UnknownWord` of a second
    /// one, and of a delay after another line that is not blank, and else that of `read_plan_line`
    /// in the version of the header. `OutOfMemory` comes only for want of memory, as which a part
    /// more than 2,147,483,648 counts. A refused line and want of memory change nothing. If the
    /// lines before were the prefix of a plan text, they are a longer prefix with this one, or at
    /// `End` a plan text, or this line has their first fault, whatever comes after it.
    pub fn read_line(&mut self, number: u32, line: &[u8]) -> Result<PlanLine, WordFault>
        ensures said { SaysPlanLine result (plan_line_in self.old.section (words line.now)) }
        ensures kept { IfOk result (λ said. self.new ≡ advanced_plan self.old number said) }
        ensures refused { OnErr result (self.new ≡ self.old) }
        ensures brings { (before : List (List ℕ)) → IsPrefix before self.old
            → number ≡ length before + 1 → PlanLineBrings before line.now result self.new }
    {
        let said = plan_line_in(self.section, line)?;
        self.keep(number, &said)?;
        Ok(said)
    }

    /// Keeps what a line states.
    fn keep(&mut self, number: u32, said: &PlanLine) -> Result<(), AllocError>
        requires { IsLineWithin said.now }
        ensures kept { OnOk result (self.new ≡ advanced_plan self.old number said.now) }
        ensures refused { OnErr result (self.new ≡ self.old) }
    {
        match said {
            PlanLine::Blank | PlanLine::End => {}
            PlanLine::Header(version) => self.section = PlanSection::opened(*version),
            PlanLine::Delay(moments) => {
                self.delay = moments.unsigned_abs() as u32;
                self.section = self.section.past_delay();
            }
            PlanLine::Part(part) => {
                push(&mut self.parts, &mut self.lines, *part, number)?;
                self.section = self.section.past_delay();
            }
            PlanLine::Between(name, from, low, high, to) => {
                let two = between_parts(name, *from, *low, *high, *to);
                push_two(&mut self.parts, &mut self.lines, two, number)?;
                self.section = self.section.past_delay();
            }
        }
        Ok(())
    }

    /// The fault if the lines end here, in the line after them: `NoHeader` before the header, else
    /// `NoEnd`. After the prefix of a plan text that is the first fault of its lines.
    pub fn missing(&self) -> FormatKind
        ensures missing { result ≡ missing self.now.section }
        ensures fault { (before : List (List ℕ)) → IsPrefix before self.now
            → IsFirstPlanFault before (fault_after before result) }
    {
        self.section.missing()
    }

    /// The network of the delay and the parts that were declared, or the first part that is
    /// refused, with the number of its line. If the lines were a plan text, that is what they
    /// declare. `OutOfMemory` comes only for want of memory.
    pub fn build(&self, alloc: Global) -> Result<Network, DeclarationFault>
        ensures builds { BuildsParts result self.now.delay self.now.parts self.now.lines }
        ensures declares { (plan rest : List (List ℕ))
            → IsPlanText plan self.now.delay self.now.parts self.now.lines
            → AnswersDeclaration result (plan ++ rest) rest }
        ensures sound { IfOk result IsPlan }
        ensures numbers { IfOk result HasPlanNumbers }
    {
        build(
            alloc,
            self.delay,
            self.parts.as_slice(),
            self.lines.as_slice(),
        )
    }

    /// The parts, and the number of the line of each.
    pub(crate) fn into_parts(self) -> (Vec<Part>, Vec<u32>)
        ensures parts { result.0.items ≡ self.parts }
        ensures lines { result.1.items ≡ self.lines }
    {
        let PlanReader {
            section: _,
            delay: _,
            parts,
            lines,
        } = self;
        (parts, lines)
    }
}

/// A line in a section.
fn plan_line_in(section: PlanSection, line: &[u8]) -> Result<PlanLine, FormatKind>
    ensures { result ≡ plan_line_in section (words line.now) }
{
    let said = plan_line(line, section.version(), section.stage());
    match section {
        PlanSection::Header => at_header(said),
        PlanSection::Started(_, _) => after_header(said),
    }
}

fn at_header(said: Result<PlanLine, FormatKind>) -> Result<PlanLine, FormatKind>
    ensures { result ≡ in_section PlanSection.Header said }
{
    match said {
        Ok(PlanLine::Blank) => Ok(PlanLine::Blank),
        Ok(PlanLine::Header(version)) => Ok(PlanLine::Header(version)),
        _ => Err(FormatKind::NoHeader),
    }
}

fn after_header(said: Result<PlanLine, FormatKind>) -> Result<PlanLine, FormatKind>
    ensures { (version : PlanVersion) → (stage : PlanStage)
        → result ≡ in_section (PlanSection.Started version stage) said }
{
    match said {
        Ok(PlanLine::Header(_)) => Err(FormatKind::UnknownWord),
        others => others,
    }
}

/// One part more, and the number of its line. Capacity is reserved first, so that want of memory
/// changes nothing.
fn push(
    parts: &mut Vec<Part>,
    lines: &mut Vec<u32>,
    part: Part,
    line: u32,
) -> Result<(), AllocError>
    ensures few { OnOk result (length parts.old.items < most_lines) }
    ensures parts { OnOk result (parts.new.items ≡ parts.old.items ++ part ∷ []) }
    ensures lines { OnOk result (lines.new.items ≡ lines.old.items ++ line ∷ []) }
    ensures parts_stay { OnErr result (parts.new.items ≡ parts.old.items) }
    ensures lines_stay { OnErr result (lines.new.items ≡ lines.old.items) }
{
    if parts.len() >= MOST_LINES as usize {
        return Err(AllocError);
    }
    parts.reserve(1)?;
    lines.reserve(1)?;
    parts.push_reserved(part);
    lines.push_reserved(line);
    Ok(())
}

/// Two parts more, and the number of their line for each, in the same way.
fn push_two(
    parts: &mut Vec<Part>,
    lines: &mut Vec<u32>,
    two: (Part, Part),
    line: u32,
) -> Result<(), AllocError>
    ensures few { OnOk result (length parts.old.items + 1 < most_lines) }
    ensures parts { OnOk result (parts.new.items ≡ parts.old.items ++ two.0 ∷ two.1 ∷ []) }
    ensures lines { OnOk result (lines.new.items ≡ lines.old.items ++ line ∷ line ∷ []) }
    ensures parts_stay { OnErr result (parts.new.items ≡ parts.old.items) }
    ensures lines_stay { OnErr result (lines.new.items ≡ lines.old.items) }
{
    if parts.len() >= MOST_LINES as usize - 1 {
        return Err(AllocError);
    }
    parts.reserve(2)?;
    lines.reserve(2)?;
    parts.push_reserved(two.0);
    parts.push_reserved(two.1);
    lines.push_reserved(line);
    lines.push_reserved(line);
    Ok(())
}
