//! Commands that read a plan and answer it once.

ghost use Rattle.std.specs.Prelude.{◌≡◌, ℕ, List};
ghost use Rattle.net_model.specs.Network.{Plan, IsPlan};
ghost use Rattle.command_engine.specs.Inputs.{AnswersLine};
ghost use Rattle.command_engine.specs.Single.{IsSingleAtLine};
ghost use Rattle.command_engine.specs.declared.endings.End.{End};
ghost use Rattle.command_contracts.specs.Causes.{IsAnswer, text_causes};
ghost use Rattle.common_answers.specs.Faults.{refusing};
ghost use Rattle.command_contracts.specs.PlanQuestions.{initial_question};
ghost use Rattle.input_texts.specs.PlanInput.{plan_in};
ghost use Rattle.command_contracts.specs.Programs.{or_nothing};
ghost use Rattle.input_texts.specs.declared.plan_input.PlanForm.{PlanForm};

use crate::requests::Request;
use crate::specification::{OneRun, Specified};
use command_engine::{AnswersOnce, Question};
use input_texts::{PlanForm, PlanInput, PlanNetwork};
use std::alloc::Global;

/// A question about the network of a plan, as the words ask it. With the text of the plan it is a
/// command of the program. That the plan is read, and the first refusal of an input put, is shown
/// here once for all of them.
pub trait PlanQuestion: Question<PlanNetwork> + Request {
    /// The form of the plan that is read.
    ghost form: { Self → PlanForm };

    /// What is put for a network, which the line of this number ended, and how the run ends then,
    /// in the subject's words.
    ghost puts: { Self → Plan → ℕ → List ℕ → End → Type 0 };

    /// What is promised of an input, the bytes put for it, and how the run ends.
    ghost promised: { Self → (input put : List ℕ) → End → Type 0 };

    /// The form of the plan that is read.
    fn plan_form(&self) -> PlanForm
        ensures { result ≡ form self.now };

    /// The law that the answer to a network is what is put.
    fn puts_the_answer()
        ensures { (question : Self) (net : Plan) (number : ℕ) (put : List ℕ) (end : End)
            → IsPlan net → Self.answers question net number put end
            → puts question net number put end };

    /// The law that the promise is kept if the network of an input is answered so, or its first
    /// refusal is put.
    fn answers_keep_it()
        ensures { (question : Self) (input put : List ℕ) (end : End)
            → AnswersLine (plan_in (form question)) refusing (puts question) input put end
            → promised question input put end };

    /// The law that what is put for a network ends the run by an answer.
    fn ends_by_an_answer()
        ensures { (question : Self) (net : Plan) (number : ℕ) (put : List ℕ) (end : End)
            → puts question net number put end → IsAnswer end };
}

/// A question about the network of a plan to which a network has at most one answer.
pub trait OneAnswer: PlanQuestion {
    /// The law that a network has at most one answer.
    fn answers_once()
        ensures { IsSingleAtLine Self.answers };
}

impl<Q: PlanQuestion> Specified for Q {
    type Request = Q;

    type Served = AnswersOnce<Q, PlanInput>;

    ghost start = { λ question. initial_question Q.form question };

    ghost promise = { λ question. or_nothing (text_causes (plan_in (Q.form question)))
        (Q.promised question) };

    fn initial(alloc: Global, request: Q) -> AnswersOnce<Q, PlanInput> {
        let text = request.plan_form().initial(alloc);
        AnswersOnce {
            question: request,
            text,
        }
    }

    fn keeps_its_promise() {
        Q::puts_the_answer();
        Q::answers_keep_it();
    }

    fn ends_by_its_causes() {
        Q::puts_the_answer();
        Q::ends_by_an_answer();
    }

    fn keeps_it_without_memory() {}
}

impl<Q: OneAnswer> OneRun for Q {
    fn defines_one() {
        Q::answers_once();
    }
}
