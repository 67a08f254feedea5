//! Reading a document.

ghost use Rattle.std.specs.Prelude.{◌≡◌, ◌≤◌, ◌≤ℤ◌, ◌⊎◌, pos, unsigned_abs, length, IfOk};
ghost use Rattle.std.specs.Prelude.{MatchResult, None, Some};
ghost use Rattle.net_model.specs.Limits.{most_delay, most_lines};
ghost use Rattle.serde_json.specs.View.{view};
ghost use Rattle.plan_json.specs.DocumentReading.{AnswersReading, declared, json_value};

use crate::document::document_plan;
use crate::fault::JsonFault;
use net_model::{Items, Part, Weight};
use serde_json::Value;
use std::alloc::Global;

/// What a document declares.
#[derive(Debug, Drop)]
pub struct JsonPlan {
    /// The parts, in their order.
    pub parts: Items<Part>,
    /// The delay, in whole moments, from 0 to `MOST_DELAY`.
    pub delay: Weight,
}

/// The delay and the parts that a document declares, or its first fault. A document is one object
/// of the members `stnu`, which is 1 or 2, `points`, a list of names, and, if they are there,
/// `bounds` and `links`: lists of objects of exactly `name`, `from`, `to` and `most`, and of
/// exactly `from`, `low`, `high` and `to`. If `stnu` is 2 it may also have `delay`, a whole number
/// from 0, and `between`, a list of objects of exactly `name`, `from`, `low`, `high` and `to`, each
/// of which declares two parts. `NotJson` comes exactly if the bytes have no reading as a JSON
/// text: they are not UTF-8, or `read` of `serde_json` refuses them. `Shape` of the top, with the
/// place 0, comes if the document is no object, has another member or lacks one, is of another
/// version, a list is no list, or the delay is none; of an item if its form is another, or a number
/// is not whole or does not fit 64 bits. `BadName` comes if a text is not a name, or that of two
/// bounds has more than 28 bytes; and `NumberLimit` if a number is beyond 1,000,000,000 in size,
/// and of the top if the delay is above `MOST_DELAY`. The first of them is answered: in the order
/// top, points, bounds, between, links, within a list item by item, and at the top and within an
/// item in this order. Of members of one name the last one counts. `OutOfMemory` comes only for
/// want of memory, as which a part more than 2,147,483,648 counts. That this is what the grammar of
/// documents says is a law, `law_documents_are_read_as_declared`.
pub fn from_json(alloc: Global, bytes: &[u8]) -> Result<JsonPlan, JsonFault>
    ensures says { AnswersReading (λ plan. record {
      delay = unsigned_abs plan.delay;
      parts = plan.parts;
    }) result (declared bytes.now) }
    ensures from_nought { IfOk result (λ plan. pos 0 ≤ℤ plan.delay) }
    ensures short { IfOk result (λ plan. plan.delay ≤ℤ pos most_delay) }
    ensures few { IfOk result (λ plan. length plan.parts ≤ most_lines) }
{
    let document = parsed(alloc, bytes)?;
    document_plan(alloc, &document)
}

/// The value of a JSON text.
#[tactic(auto, using(crate::proofs::ReadLemmas::value_read, crate::proofs::ReadLemmas::value_none))]
fn parsed(alloc: Global, bytes: &[u8]) -> Result<Value, JsonFault>
    ensures { MatchResult result (λ value. json_value bytes.now ≡ Some (view value))
        (λ fault. ((fault ≡ JsonFault.NotJson) × (json_value bytes.now ≡ None))
        ⊎ (fault ≡ JsonFault.OutOfMemory)) }
{
    match Value::from_slice(alloc, bytes) {
        Ok(value) => Ok(value),
        Err(error) => Err(if error.is_memory() {
            JsonFault::OutOfMemory
        } else {
            JsonFault::NotJson
        }),
    }
}
