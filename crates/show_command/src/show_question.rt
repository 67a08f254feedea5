//! The command `show`: a plan, and then the same plan, as a plan text or as a JSON document.

ghost use Rattle.std.specs.Prelude.{◌≡◌, [], IfOk, OnOk, ◌++◌, ◌∷◌};
ghost use Rattle.texts.specs.PrintedLines.{printed_line};
ghost use Rattle.net_model.specs.Network.{HasPlanNumbers};
ghost use Rattle.plan_format.specs.PlanParts.{end_words};
ghost use Rattle.show_command.specs.ShowAnswers.{PutsPlan, ShowPromise, show_answers, show_request};
ghost use Rattle.show_command.specs.ShowAnswers.{show_syntax};

use command_contracts::{OneAnswer, PlanQuestion, Request};
use command_engine::{Answer, End, Question, Word};
use command_words::{Arguments, Syntax};
use input_texts::{Delay, Notation, PlanForm, PlanNetwork};
use net_model::Network;
use plan_format::print_plan;
use plan_json::laws::law_documents_stand_in_inputs;
use plan_json::to_json;
use std::alloc::{AllocError, Global};
use std::thread::Threads;

/// What plan an input declares: the command `show` reads a plan of one form, and puts it in one
/// notation: with `--print-json` as a JSON document. What it puts, read as an input in that
/// notation, declares the same network. It ends with 0. What it promises is `ShowPromise`.
#[derive(Clone, Copy)]
pub struct Show {
    form: PlanForm,
    print: Notation,
}

impl Question<PlanNetwork> for Show {
    ghost answers = { λ show net number. show_answers show net };

    fn answer<R: Threads + Sync>(
        self,
        _rt: &R,
        alloc: Global,
        answer: &mut Answer,
        value: PlanNetwork,
        _number: u32,
    ) -> Result<End, AllocError> {
        match self.print {
            Notation::Text => put_text(alloc, answer, value.network()),
            Notation::Json => put_document(alloc, answer, value.network()),
        }
    }
}

impl Request for Show {
    ghost syntax = { show_syntax };

    ghost query = { show_request };

    fn words() -> Syntax<'static> {
        Syntax {
            flags: &["json", "print-json"],
            options: &[],
            operands: &[],
        }
    }

    fn of(arguments: &Arguments<'_>) -> Option<Show> {
        let form = PlanForm::of(arguments.flag(0), Delay::Own);
        let print = Notation::of(arguments.flag(1));
        Some(Show { form, print })
    }

    fn workers_decide_nothing() {}
}

impl PlanQuestion for Show {
    ghost form = { λ show. show.form };

    ghost puts = { λ show net number. PutsPlan show.print net };

    ghost promised = { ShowPromise };

    fn plan_form(&self) -> PlanForm {
        self.form
    }

    fn puts_the_answer() {}

    fn answers_keep_it() {}

    fn ends_by_an_answer() {}
}

impl OneAnswer for Show {
    fn answers_once() {}
}

/// Puts the plan text of a network in place of what stood in the buffer.
#[tactic(auto, using(crate::proofs::ShowLemmas::text_put))]
fn put_text(alloc: Global, answer: &mut Answer, net: &Network) -> Result<End, AllocError>
    requires numbers { HasPlanNumbers net.now }
    ensures { IfOk result (λ end. PutsPlan Notation.Text net.now answer.new.text end) }
{
    net.sound();
    let text = print_plan(alloc, net)?;
    answer.clear();
    answer.push_text(text.as_slice())?;
    Ok(End::Done)
}

/// Puts the document of a network and a line `end` in place of what stood in the buffer.
fn put_document(alloc: Global, answer: &mut Answer, net: &Network) -> Result<End, AllocError>
    requires numbers { HasPlanNumbers net.now }
    ensures { IfOk result (λ end. PutsPlan Notation.Json net.now answer.new.text end) }
{
    law_documents_stand_in_inputs();
    net.sound();
    let document = to_json(alloc, net)?;
    push_document(answer, document.as_slice())?;
    Ok(End::Done)
}

/// Puts a document and a line `end` in place of what stood in the buffer.
fn push_document(answer: &mut Answer, document: &[u8]) -> Result<(), AllocError>
    ensures { OnOk result (answer.new.text ≡ (document.now ++ 10 ∷ []) ++ printed_line end_words) }
{
    answer.clear();
    answer.push_text(document)?;
    answer.push_text(b"\n")?;
    answer.push_line(&[Word::Text("end")])
}
