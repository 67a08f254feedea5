//! The delay and the parts of a document.

ghost use Rattle.std.specs.Prelude.{◌≡◌, ◌<◌, ◌≤◌, ◌≤ℤ◌, ◌^◌, ◌+◌, pos, true, unsigned_abs, length};
ghost use Rattle.std.specs.Prelude.{map, option_map, codes, IfErr, IfOk, OnOk, ◌++◌, ◌∷◌, []};
ghost use Rattle.net_model.specs.Limits.{within_limit, most_delay, most_lines};
ghost use Rattle.net_model.specs.Names.{most_short};
ghost use Rattle.serde_json.specs.Find.{get};
ghost use Rattle.serde_json.specs.View.{view};
ghost use Rattle.plan_json.specs.Document.{between_form_at, bound_form_at, bound_parts, count_of};
ghost use Rattle.plan_json.specs.Document.{delay_in, document_plan, from_nought, has_members};
ghost use Rattle.plan_json.specs.Document.{is_of_version, is_version, item_parts, items_parts};
ghost use Rattle.plan_json.specs.Document.{known_members, link_form_at, link_parts, array_at};
ghost use Rattle.plan_json.specs.Document.{list_or_none, lists_parts, name_in, number_in};
ghost use Rattle.plan_json.specs.Document.{number_or_none, place_after, point_parts};
ghost use Rattle.plan_json.specs.Document.{second_members, short_name_in, text_at, top_of};
ghost use Rattle.plan_json.specs.Document.{two_parts, whole_at};
ghost use Rattle.plan_json.specs.DocumentReading.{Gives, with_prefix};

use crate::fault::{JsonFault, Member};
use crate::place::{PartList, Place};
use crate::read::JsonPlan;
use net_model::{
    Items, MOST_DELAY, MOST_LINES, MOST_NUMBER, Name, Part, Weight, between_parts, text,
};
use serde_json::Value;
use std::alloc::Global;

/// The delay and the lists of a document.
#[derive(Clone, Copy)]
struct Lists<'a> {
    delay: u64,
    points: &'a [Value],
    bounds: &'a [Value],
    between: &'a [Value],
    links: &'a [Value],
}

/// What an item has whose form is that of a bound.
#[derive(Clone, Copy)]
struct BoundForm<'a> {
    name: &'a str,
    from: &'a str,
    to: &'a str,
    most: Weight,
}

/// What an item has whose form is that of two bounds that belong together.
#[derive(Clone, Copy)]
struct BetweenForm<'a> {
    name: &'a str,
    from: &'a str,
    low: Weight,
    high: Weight,
    to: &'a str,
}

/// What an item has whose form is that of a link.
#[derive(Clone, Copy)]
struct LinkForm<'a> {
    from: &'a str,
    low: Weight,
    high: Weight,
    to: &'a str,
}

/// The delay and the parts of a document.
#[tactic(auto, unfolding(crate::specs::Document::lists_plan))]
pub(crate) fn document_plan(alloc: Global, document: &Value) -> Result<JsonPlan, JsonFault>
    ensures plan { Gives (λ plan. record { delay = unsigned_abs plan.delay; parts = plan.parts })
        result (document_plan (view document.now)) }
    ensures from_nought { IfOk result (λ plan. pos 0 ≤ℤ plan.delay) }
    ensures short { IfOk result (λ plan. plan.delay ≤ℤ pos most_delay) }
    ensures few { IfOk result (λ plan. length plan.parts ≤ most_lines) }
{
    let lists = top_of(document)?;
    let delay = delay_in(lists.delay)?;
    let mut parts = Vec::new(alloc);
    push_lists(&mut parts, lists)?;
    Ok(JsonPlan {
        parts: Items::new(parts),
        delay,
    })
}

/// A delay within its limit.
fn delay_in(delay: u64) -> Result<Weight, JsonFault>
    ensures read { Gives (λ delay. tt) result (delay_in delay) }
    ensures same { IfOk result (λ read. read ≡ pos delay) }
    ensures short { IfOk result (λ read. delay ≤ most_delay) }
{
    if delay > u64::from(MOST_DELAY) {
        return Err(JsonFault::NumberLimit(Member::Top, 0));
    }
    Ok(delay as Weight)
}

/// The delay and the lists of a document whose form is right.
#[tactic(auto, unfolding(crate::specs::Document::top_of))]
fn top_of(document: &Value) -> Result<Lists<'_>, JsonFault>
    ensures { Gives (λ lists. record {
      delay = lists.delay;
      points = map view lists.points.now;
      bounds = map view lists.bounds.now;
      between = map view lists.between.now;
      links = map view lists.links.now;
    }) result (top_of (view document.now)) }
{
    let wrong = JsonFault::Shape(Member::Top, 0);
    if !has_members(document, known_members(document)) {
        return Err(wrong);
    }
    if !is_version(document) {
        return Err(wrong);
    }
    let points = array_at(document, "points").ok_or(wrong)?;
    let bounds = list_or_none(document.get("bounds")).ok_or(wrong)?;
    let between = list_or_none(document.get("between")).ok_or(wrong)?;
    let links = list_or_none(document.get("links")).ok_or(wrong)?;
    let delay = number_or_none(document.get("delay")).ok_or(wrong)?;
    Ok(Lists {
        delay,
        points,
        bounds,
        between,
        links,
    })
}

/// How many of the members that a document of its version may have it has.
fn known_members(document: &Value) -> usize
    ensures { result ≡ known_members (view document.now) }
{
    let first = count_of(document.get("stnu"))
        + count_of(document.get("points"))
        + count_of(document.get("bounds"))
        + count_of(document.get("links"));
    if is_of_version(document, 2) {
        return first + second_members(document);
    }
    first
}

/// How many of the members that version 2 has more a document has.
fn second_members(document: &Value) -> usize
    ensures count { result ≡ second_members (view document.now) }
    ensures few { result ≤ 2 }
{
    count_of(document.get("between")) + count_of(document.get("delay"))
}

fn count_of(found: Option<&Value>) -> usize
    ensures count { result ≡ count_of (option_map (λ v. view v.now) found.entry) }
    ensures few { result ≤ 1 }
{
    usize::from(found.is_some())
}

/// Whether a value is an object of so many members.
#[tactic(auto, using(crate::proofs::ViewLemmas::counted))]
fn has_members(value: &Value, count: usize) -> bool
    ensures { result ≡ has_members count (view value.now) }
{
    match value.as_object() {
        Some(members) => members.len() == count,
        None => false,
    }
}

fn is_version(document: &Value) -> bool
    ensures { result ≡ is_version (view document.now) }
{
    is_of_version(document, 1) || is_of_version(document, 2)
}

fn is_of_version(document: &Value, number: u64) -> bool
    ensures { result ≡ is_of_version number (view document.now) }
{
    match document.get("stnu").and_then(Value::as_u64) {
        None => false,
        Some(n) => n == number,
    }
}

/// The member of this name, if it is a list.
#[tactic(auto, using(crate::proofs::ViewLemmas::list_found))]
fn array_at<'a>(document: &'a Value, name: &str) -> Option<&'a [Value]>
    ensures { option_map (λ list. map view list.now) result ≡ array_at name.now
        (view document.now) }
{
    let list = document.get(name).and_then(Value::as_array)?;
    Some(list.as_slice())
}

/// The items of a list, which may be absent; `None` if it is no list.
#[tactic(auto, using(crate::proofs::ViewLemmas::list_found))]
fn list_or_none(found: Option<&Value>) -> Option<&[Value]>
    ensures { option_map (λ list. map view list.now) result ≡ list_or_none
        (option_map (λ v. view v.now) found.entry) }
{
    match found {
        None => Some(&[]),
        Some(value) => match value.as_array() {
            Some(list) => Some(list.as_slice()),
            None => None,
        },
    }
}

/// The whole number from 0 that a value is, which may be absent; `None` if it is another.
fn number_or_none(found: Option<&Value>) -> Option<u64>
    ensures { result ≡ number_or_none (option_map (λ v. view v.now) found.entry) }
{
    match found {
        None => Some(0),
        Some(value) => from_nought(value.as_i64()?),
    }
}

fn from_nought(number: Weight) -> Option<u64>
    ensures { result ≡ from_nought number }
{
    if number < 0 {
        return None;
    }
    Some(number as u64)
}

/// The parts of the points, of the bounds, of the pairs of bounds and of the links.
#[tactic(auto, unfolding(crate::specs::Document::lists_parts))]
fn push_lists(parts: &mut Vec<Part>, lists: Lists<'_>) -> Result<(), JsonFault>
    requires { length parts.old.items ≤ most_lines }
    ensures parts { Gives (λ _. parts.new.items) result
        (with_prefix parts.old.items (lists_parts
        (record {
          delay = lists.entry.delay;
          points = map view lists.entry.points.now;
          bounds = map view lists.entry.bounds.now;
          between = map view lists.entry.between.now;
          links = map view lists.entry.links.now;
        }))) }
    ensures few { OnOk result (length parts.new.items ≤ most_lines) }
{
    push_items(parts, PartList::Points, lists.points)?;
    push_items(parts, PartList::Bounds, lists.bounds)?;
    push_items(parts, PartList::Between, lists.between)?;
    push_items(parts, PartList::Links, lists.links)
}

/// The parts of the items of a list, after those that are there.
fn push_items(parts: &mut Vec<Part>, list: PartList, items: &[Value]) -> Result<(), JsonFault>
    requires { length parts.old.items ≤ most_lines }
    ensures parts { Gives (λ _. parts.new.items) result
        (with_prefix parts.old.items (items_parts list 0 (map view items.now))) }
    ensures few { OnOk result (length parts.new.items ≤ most_lines) }
{
    for (count, item) in items.iter().enumerate() {
        push_item(parts, Place::after(list, count), item)?;
    }
    Ok(())
}

/// One part more.
fn push_part(parts: &mut Vec<Part>, part: Part) -> Result<(), JsonFault>
    ensures pushed { OnOk result (parts.new.items ≡ parts.old.items ++ part ∷ []) }
    ensures few { OnOk result (length parts.old.items < most_lines) }
    ensures memory { IfErr result (λ fault. fault ≡ JsonFault.OutOfMemory) }
{
    if parts.len() >= MOST_LINES as usize {
        return Err(JsonFault::OutOfMemory);
    }
    parts.push(part)?;
    Ok(())
}

/// The parts of an item, after those that are there.
fn push_item(parts: &mut Vec<Part>, place: Place, item: &Value) -> Result<(), JsonFault>
    requires { length parts.old.items ≤ most_lines }
    ensures parts { Gives (λ _. parts.new.items) result
        (with_prefix parts.old.items (item_parts place (view item.now))) }
    ensures more { OnOk result (length parts.old.items < length parts.new.items) }
    ensures few { OnOk result (length parts.new.items ≤ most_lines) }
{
    match place.list {
        PartList::Points => push_part(parts, point_part(place, item)?),
        PartList::Bounds => push_part(parts, bound_part(place, item)?),
        PartList::Between => {
            let two = two_parts(place, item)?;
            push_part(parts, two.0)?;
            push_part(parts, two.1)
        }
        PartList::Links => push_part(parts, link_part(place, item)?),
    }
}

#[tactic(auto, unfolding(crate::specs::Document::point_parts))]
fn point_part(place: Place, item: &Value) -> Result<Part, JsonFault>
    ensures { Gives (λ part. part ∷ []) result (point_parts place (view item.now)) }
{
    let text = item.as_str().ok_or(place.shape())?;
    Ok(Part::Point(name_in(place, text)?))
}

#[tactic(auto, unfolding(crate::specs::Document::bound_parts))]
fn bound_part(place: Place, item: &Value) -> Result<Part, JsonFault>
    ensures { Gives (λ part. part ∷ []) result (bound_parts place (view item.now)) }
{
    let form = bound_form_at(place, item)?;
    let name = name_in(place, form.name)?;
    let from = name_in(place, form.from)?;
    let to = name_in(place, form.to)?;
    number_in(place, form.most)?;
    Ok(Part::Bound(name, from, to, form.most))
}

#[tactic(auto, unfolding(crate::specs::Document::bound_form_at))]
fn bound_form_at(place: Place, item: &Value) -> Result<BoundForm<'_>, JsonFault>
    ensures { Gives (λ form. record {
      name = form.name.now;
      from = form.from.now;
      to = form.to.now;
      most = form.most;
    }) result (bound_form_at place (view item.now)) }
{
    if !has_members(item, 4) {
        return Err(place.shape());
    }
    let name = text_at(item, "name").ok_or(place.shape())?;
    let from = text_at(item, "from").ok_or(place.shape())?;
    let to = text_at(item, "to").ok_or(place.shape())?;
    let most = whole_at(item, "most").ok_or(place.shape())?;
    Ok(BoundForm {
        name,
        from,
        to,
        most,
    })
}

#[tactic(auto, unfolding(crate::specs::Document::two_parts))]
fn two_parts(place: Place, item: &Value) -> Result<(Part, Part), JsonFault>
    ensures { Gives (λ two. two.0 ∷ two.1 ∷ []) result (two_parts place (view item.now)) }
{
    let form = between_form_at(place, item)?;
    let name = short_name_in(place, form.name)?;
    let from = name_in(place, form.from)?;
    let to = name_in(place, form.to)?;
    number_in(place, form.low)?;
    number_in(place, form.high)?;
    Ok(between_parts(&name, from, form.low, form.high, to))
}

#[tactic(auto, unfolding(crate::specs::Document::between_form_at))]
fn between_form_at(place: Place, item: &Value) -> Result<BetweenForm<'_>, JsonFault>
    ensures { Gives (λ form. record {
      name = form.name.now;
      from = form.from.now;
      low = form.low;
      high = form.high;
      to = form.to.now;
    }) result (between_form_at place (view item.now)) }
{
    if !has_members(item, 5) {
        return Err(place.shape());
    }
    let name = text_at(item, "name").ok_or(place.shape())?;
    let from = text_at(item, "from").ok_or(place.shape())?;
    let low = whole_at(item, "low").ok_or(place.shape())?;
    let high = whole_at(item, "high").ok_or(place.shape())?;
    let to = text_at(item, "to").ok_or(place.shape())?;
    Ok(BetweenForm {
        name,
        from,
        low,
        high,
        to,
    })
}

#[tactic(auto, unfolding(crate::specs::Document::link_parts))]
fn link_part(place: Place, item: &Value) -> Result<Part, JsonFault>
    ensures { Gives (λ part. part ∷ []) result (link_parts place (view item.now)) }
{
    let form = link_form_at(place, item)?;
    let from = name_in(place, form.from)?;
    let to = name_in(place, form.to)?;
    number_in(place, form.low)?;
    number_in(place, form.high)?;
    Ok(Part::Link(from, form.low, form.high, to))
}

#[tactic(auto, unfolding(crate::specs::Document::link_form_at))]
fn link_form_at(place: Place, item: &Value) -> Result<LinkForm<'_>, JsonFault>
    ensures { Gives (λ form. record {
      from = form.from.now;
      low = form.low;
      high = form.high;
      to = form.to.now;
    }) result (link_form_at place (view item.now)) }
{
    if !has_members(item, 4) {
        return Err(place.shape());
    }
    let from = text_at(item, "from").ok_or(place.shape())?;
    let low = whole_at(item, "low").ok_or(place.shape())?;
    let high = whole_at(item, "high").ok_or(place.shape())?;
    let to = text_at(item, "to").ok_or(place.shape())?;
    Ok(LinkForm {
        from,
        low,
        high,
        to,
    })
}

/// The member of this name, if it is a text.
fn text_at<'a>(value: &'a Value, name: &str) -> Option<&'a str>
    ensures { option_map (λ text. text.now) result ≡ text_at name.now (view value.now) }
{
    value.get(name).and_then(Value::as_str)
}

/// The member of this name, if it is a whole number that fits 64 bits.
fn whole_at(value: &Value, name: &str) -> Option<Weight>
    ensures { result ≡ whole_at name.now (view value.now) }
{
    value.get(name).and_then(Value::as_i64)
}

fn name_in(place: Place, text: &str) -> Result<Name, JsonFault>
    ensures { Gives (λ name. name) result (name_in place text.now) }
{
    match Name::new(text.as_bytes()) {
        Ok(name) => Ok(name),
        Err(_) => Err(place.bad_name()),
    }
}

fn short_name_in(place: Place, text: &str) -> Result<Name, JsonFault>
    ensures name { Gives (λ name. name) result (short_name_in place text.now) }
    ensures short { IfOk result (λ name. length name ≤ most_short) }
{
    match text::short_name(text.as_bytes()) {
        Ok(name) => Ok(name),
        Err(_) => Err(place.bad_name()),
    }
}

fn number_in(place: Place, number: Weight) -> Result<(), JsonFault>
    ensures read { Gives (λ done. done) result (number_in place number) }
    ensures within { OnOk result (within_limit number ≡ true) }
{
    if number.unsigned_abs() > MOST_NUMBER {
        return Err(place.number_limit());
    }
    Ok(())
}
