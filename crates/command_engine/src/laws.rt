//! Laws about commands, each the contract of a function without parameters.

ghost use Rattle.std.specs.Prelude.{◌≡◌, ℕ, List, []};
ghost use Rattle.texts.specs.Lines.{InputLine, input_lines};
ghost use Rattle.command_engine.specs.Runs.{Here, Runs, begins};
ghost use Rattle.command_engine.specs.Single.{IsSingle, IsSingleAnswer, IsSingleAtLine, IsPrefix};
ghost use Rattle.command_engine.specs.Readers.{reading};
ghost use Rattle.command_engine.specs.AnswersOnce.{answers_once_machine, AnswersOutcome};
ghost use Rattle.command_engine.specs.Inputs.{AnswersLine};
ghost use Rattle.command_engine.specs.Pairs.{then_reader, then_reading};
ghost use Rattle.command_engine.specs.Phases.{WantsNone, text_then_phase_machine, FollowsOutcome};
ghost use Rattle.command_engine.specs.Breaks.{WithinReply, WantsMemory, BreaksForMemory};
ghost use Rattle.command_engine.specs.Bytes.{BytesAreExact};
ghost use Rattle.command_engine.specs.Serves.{Serves};
ghost use Rattle.plan_port.specs.Talk.{Piece, Seen};
ghost use Rattle.command_engine.specs.declared.endings.End.{End};
ghost use Rattle.command_engine.specs.declared.endings.Status.{Status};

use crate::line_texts::{InGrammar, Text};
use crate::machines::Command;
use crate::pairs::Then;
use crate::phases::{Begin, TextThenPhase};
use crate::questions::Question;

/// A command that has at most one reply has at most one run over an input.
pub fn law_single_runs<C: Command>()
    ensures { IsSingle C.machine → (start : C) (input a b : List ℕ) (x y : End)
        → Runs C.machine start input a x → Runs C.machine start input b y → (a ≡ b) × (x ≡ y) }
{}

/// What was put up to a failed put at a reply, and what was put up to a line at which there was no
/// memory, is a prefix of what the whole run puts, if the command has at most one reply.
pub fn law_broken_runs_are_prefixes<C: Command>()
    ensures put { IsSingle C.machine → (start : C) (input put whole : List ℕ) (end : End)
        → Runs C.machine start input whole end → WithinReply C.machine start input put
        → IsPrefix put whole }
    ensures memory { IsSingle C.machine
        → (start : C) (input put whole : List ℕ) (pieces : List Piece) (end : End)
        → Runs C.machine start input whole end → WantsMemory C.machine start input put pieces
        → IsPrefix put whole }
{}

/// Exactly this was put by a run of a command over a port that shows its bytes: what a run over the
/// input puts, if the command ended it; the answers to the whole lines taken and `error read`, if a
/// take failed; a prefix of either, if a put failed; and a prefix of the first, if there was no
/// memory. Each prefix is the answers to first lines, and a part of a reply to what comes then; if
/// the command has at most one reply, it is a prefix of all that a run puts.
pub fn law_bytes_are_exact<C: Command>()
    ensures { (start : C) (status : Status) (before after : Seen)
        → Serves C.machine start status before after
        → BytesAreExact C.machine start status before after }
{}

/// A command that answers once has at most one reply if its question has at most one answer.
pub fn law_answers_once_is_single<T: Text, Q: Question<T::Value>>()
    ensures { IsSingleAtLine Q.answers
        → IsSingle (answers_once_machine Q.answers T.reader T.Fault.refusing) }
{}

/// A command of a text and a phase has at most one reply if the phase begins in one way and has at
/// most one.
pub fn law_text_then_phase_is_single<T: Text, B: Begin<T::Value>>()
    ensures { IsSingleAnswer B.begins → IsSingle B.Phase.machine
        → IsSingle (text_then_phase_machine B.begins T.reader T.Fault.refusing B.Phase.machine) }
{}

/// A run of a command that reads a text puts the answer to what the text says, or the line of its
/// first fault.
pub fn law_answers_once_runs<T: Text, Q: Question<T::Value>>()
    ensures { (question : Q) (text : T) (input put : List ℕ) (end : End)
        → Runs (answers_once_machine Q.answers T.reader T.Fault.refusing)
        (record { question = question; text = text }) input put end
        → AnswersOutcome Q.answers T.reader T.Fault.refusing question
        (reading T.reader (begins text) (input_lines input)) put end }
{}

/// A command that reads a text and answers once puts, by the grammar of the text, the answer to
/// what the input declares, or the first refusal of the input.
pub fn law_answers_once_by_grammar<T: InGrammar, Q: Question<T::Value>>()
    ensures { (question : Q) (input put : List ℕ) (end : End)
        → Runs (answers_once_machine Q.answers T.reader T.Fault.refusing)
        (record { question = question; text = T.initial_text }) input put end
        → AnswersLine (T.grammar 0) T.Fault.refusing (Q.answers question) input put end }
{
    T::reads_by_grammar();
}

/// The reading of a text and another is that of the first, and then that of the second over the
/// lines that are left.
pub fn law_pair_reads<A: Text, B: Text<Fault = A::Fault>>()
    ensures { (first : A) (second : B) (lines : List InputLine)
        → reading (then_reader A.reader B.reader) (begins (Then.First first second)) lines
        ≡ then_reading A.reader B.reader second (reading A.reader (begins first) lines) }
{}

/// A run of a command that answers once, which breaks off for want of memory, has put nothing.
pub fn law_answers_once_wants<T: Text, Q: Question<T::Value>>()
    ensures { (question : Q) (text : T) (input untaken put : List ℕ) (pieces : List Piece)
        → BreaksForMemory (answers_once_machine Q.answers T.reader T.Fault.refusing)
        (record { question = question; text = text }) input untaken put pieces
        → put ≡ [] }
{}

/// A run of a command that reads a text and then serves a phase is the reading of the text, and
/// then a run of the phase over the lines that are left.
pub fn law_text_then_phase_runs<T: Text, B: Begin<T::Value>>()
    ensures { (start : B) (text : T) (input put : List ℕ) (end : End)
        → Runs (text_then_phase_machine B.begins T.reader T.Fault.refusing B.Phase.machine)
        (TextThenPhase.Reading start text) input put end
        → FollowsOutcome B.begins T.reader T.Fault.refusing B.Phase.machine start
        (reading T.reader (begins text) (input_lines input)) put end }
{}

/// If the phase wants no memory, a run that breaks off for want of it has put nothing.
pub fn law_text_then_phase_wants<T: Text, B: Begin<T::Value>>()
    ensures { WantsNone B.Phase.machine
        → (start : B) (text : T) (input untaken put : List ℕ) (pieces : List Piece)
        → BreaksForMemory (text_then_phase_machine B.begins T.reader T.Fault.refusing
        B.Phase.machine) (TextThenPhase.Reading start text) input untaken put pieces
        → put ≡ [] }
{}
