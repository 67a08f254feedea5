//! The command `strong`: a plan, and its least strong schedule, or a certificate that it has none.

ghost use Rattle.std.specs.Prelude.{◌≡◌, ◌++◌, IfOk};
ghost use Rattle.net_model.specs.Network.{HasPlanNumbers};
ghost use Rattle.cert_format.specs.StrongWords.{HasStrongWeights, OfOneKind, printed_strong};
ghost use Rattle.strong_command.specs.StrongAnswers.{PutsStrong, PutsStrongly, StrongPromise};
ghost use Rattle.strong_command.specs.StrongAnswers.{executable_names, not_strong_line};
ghost use Rattle.strong_command.specs.StrongAnswers.{strong_request, strong_line, strong_syntax};
ghost use Rattle.strong_command.specs.StrongAnswers.{times_text};

use crate::times::{executable_names, push_times};
use cert_format::{StrongCert, print_strong};
use command_contracts::{OneAnswer, PlanQuestion, Request};
use command_engine::{Answer, End, Question, Word};
use command_words::{Arguments, Syntax};
use input_texts::{Delay, PlanForm, PlanNetwork};
use net_model::Network;
use std::alloc::{AllocError, Global};
use std::thread::Threads;
use strong_plan::laws::{
    law_plan_numbers_are_shown, law_strong_answer_is_one, law_strong_is_controllable,
};
use strong_plan::{Strong, strong};

/// What strong schedule a network has, as it is stated: the command `strong` reads a plan, and puts
/// its least strong schedule, or that it has none and a certificate of that, the one of which
/// `IsStrongRefutation` tells. It ends with 0 if it has one, and with 1 if it has none. The delay
/// of the network decides nothing. What it promises is `StrongPromise`.
#[derive(Clone, Copy)]
pub struct StrongQuestion {
    form: PlanForm,
}

impl Question<PlanNetwork> for StrongQuestion {
    ghost answers = { λ query net number. PutsStrong net };

    fn answer<R: Threads + Sync>(
        self,
        _rt: &R,
        alloc: Global,
        answer: &mut Answer,
        value: PlanNetwork,
        _number: u32,
    ) -> Result<End, AllocError> {
        put_strong(alloc, answer, value.network())
    }
}

impl Request for StrongQuestion {
    ghost syntax = { strong_syntax };

    ghost query = { strong_request };

    fn words() -> Syntax<'static> {
        Syntax {
            flags: &["json"],
            options: &[],
            operands: &[],
        }
    }

    fn of(arguments: &Arguments<'_>) -> Option<StrongQuestion> {
        let form = PlanForm::of(arguments.flag(0), Delay::Own);
        Some(StrongQuestion { form })
    }

    fn workers_decide_nothing() {}
}

impl PlanQuestion for StrongQuestion {
    ghost form = { λ query. query.form };

    ghost puts = { λ query net number. PutsStrongly net };

    ghost promised = { StrongPromise };

    fn plan_form(&self) -> PlanForm {
        self.form
    }

    fn puts_the_answer() {
        law_strong_is_controllable();
    }

    fn answers_keep_it() {}

    fn ends_by_an_answer() {}
}

impl OneAnswer for StrongQuestion {
    fn answers_once() {
        law_strong_answer_is_one();
    }
}

/// Puts the least strong schedule of a network, or that it has none, in place of what stood in the
/// buffer.
fn put_strong(alloc: Global, answer: &mut Answer, net: &Network) -> Result<End, AllocError>
    requires numbers { HasPlanNumbers net.now }
    ensures { IfOk result (PutsStrong net.now answer.new.text) }
{
    law_plan_numbers_are_shown();
    match strong(alloc, net)? {
        Strong::Times(times) => put_schedule(alloc, answer, net, times.as_slice()),
        Strong::Refuted(cert) => put_refutation(alloc, answer, &cert),
    }
}

/// Puts the moments of the executable points of a network in place of what stood in the buffer.
fn put_schedule(
    alloc: Global,
    answer: &mut Answer,
    net: &Network,
    times: &[u64],
) -> Result<End, AllocError>
    ensures { IfOk result (λ end. (answer.new.text ≡ strong_line ++ times_text
        (executable_names net.now) times.now) × (end ≡ End.Done)) }
{
    let names = executable_names(alloc, net)?;
    answer.clear();
    answer.push_line(&[Word::Text("strongly controllable")])?;
    push_times(answer, names.as_slice(), times)?;
    Ok(End::Done)
}

/// Puts that a network has no strong schedule, and the certificate of that, in place of what stood
/// in the buffer.
fn put_refutation(alloc: Global, answer: &mut Answer, cert: &StrongCert) -> Result<End, AllocError>
    requires of_one_kind { OfOneKind cert.now }
    requires weights { HasStrongWeights cert.now }
    ensures { IfOk result (λ end. (answer.new.text ≡ not_strong_line ++ printed_strong cert.now)
        × (end ≡ End.Refused)) }
{
    let text = print_strong(alloc, cert)?;
    answer.clear();
    answer.push_line(&[Word::Text("not strongly controllable")])?;
    answer.push_text(text.as_slice())?;
    Ok(End::Refused)
}
