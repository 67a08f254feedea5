//! What the words ask of a command that takes the form of a plan and a number of workers, and
//! nothing else.

ghost use Rattle.command_contracts.specs.PlanWords.{requested_form, plan_syntax};

use crate::forms::form_given;
use crate::requests::Request;
use crate::worker_count::WorkerCount;
use command_words::{Arguments, Syntax};
use input_texts::PlanForm;
use std::marker::Model;

/// The form of a plan, and the workers. Contracts see the form, which is the whole request.
#[derive(Drop)]
pub struct FormAndWorkers {
    pub form: PlanForm,
    pub workers: WorkerCount,
}

impl Model for FormAndWorkers {
    ghost use Rattle.input_texts.specs.declared.plan_input.PlanForm.{PlanForm};

    ghost Value = { PlanForm };

    ghost view = { λ query. query.form };
}

impl Request for FormAndWorkers {
    ghost syntax = { plan_syntax };

    ghost query = { requested_form };

    fn words() -> Syntax<'static> {
        Syntax {
            flags: &["json"],
            options: &["workers", "delay"],
            operands: &[],
        }
    }

    fn of(arguments: &Arguments<'_>) -> Option<FormAndWorkers> {
        let workers = WorkerCount::of(arguments.option(0))?;
        let form = form_given(arguments.flag(0), arguments.option(1))?;
        Some(FormAndWorkers { form, workers })
    }

    fn workers_decide_nothing() {}
}
