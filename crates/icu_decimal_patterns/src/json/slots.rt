//! Patterns and slots from JSON.

ghost use Rattle.std.specs.Prelude.{◌≡◌, ◌↔◌, IfErr, IfOk, IsErrOf, None, Some, false, map, option_map};
ghost use Rattle.std.specs.List.{list_all, list_any};
ghost use Rattle.std.specs.Option.{option_map_or};
ghost use Rattle.serde_json.specs.View.{view};
ghost use Rattle.icu_decimal_symbols.specs.declared.error.DataError.{DataError};
ghost use Rattle.icu_decimal_patterns.specs.SlotsJson.{IsCustomOrMemory, elements_in, elements_with, has_count, is_named, is_slot, is_slot_name, pattern_in, pattern_named, repeats_name, slot_name, slot_pattern, slots_of, texts_in};

use crate::borrowed::{BorrowedPattern, owned_elements};
use crate::elements::PluralElements;
use crate::pattern::Pattern;
use icu_decimal_symbols::error::DataError;
use serde_json::Value;
use std::alloc::Global;

// The pattern of one text, or of two.
fn texts_in(items: &[Value]) -> Option<BorrowedPattern<'_>>
    ensures { result ≡ texts_in (map view items.now) }
{
    match items {
        [text] => {
            let text = text.as_str()?;
            Some(BorrowedPattern::literal(text))
        }
        [before, after] => {
            let before = before.as_str()?;
            let after = after.as_str()?;
            Some(BorrowedPattern::around(before, after))
        }
        _ => None,
    }
}

// The pattern that a value is.
#[tactic(auto, using(crate::proofs::SlotsLemmas::listed_items))]
fn pattern_in(value: &Value) -> Option<BorrowedPattern<'_>>
    ensures { result ≡ pattern_in (view value.now) }
{
    let items = value.as_array()?;
    texts_in(items.as_slice())
}

// Whether a value is an array of so many items.
#[tactic(auto, using(crate::proofs::SlotsLemmas::count_items))]
pub(crate) fn has_count(value: &Value, count: usize) -> bool
    ensures { result ≡ has_count count (view value.now) }
{
    match value.as_array() {
        Some(items) => items.len() == count,
        None => false,
    }
}

// The name of a slot.
fn slot_name(slot: &Value) -> Option<&str>
    ensures { option_map (λ name. name.now) result ≡ slot_name (view slot.now) }
{
    slot.get(0)?.as_str()
}

// The pattern of a slot.
fn slot_pattern(slot: &Value) -> Option<BorrowedPattern<'_>>
    ensures { result ≡ slot_pattern (view slot.now) }
{
    let pattern = slot.get(1)?;
    pattern_in(pattern)
}

fn is_slot_name(name: &str) -> bool
    ensures { result ≡ is_slot_name name.now }
{
    name == "0"
        || name == "1"
        || name == "zero"
        || name == "one"
        || name == "two"
        || name == "few"
        || name == "many"
        || name == "other"
}

fn has_slot_name(slot: &Value) -> bool
    ensures { result ≡ option_map_or is_slot_name (slot_name (view slot.now)) false }
{
    match slot_name(slot) {
        Some(name) => is_slot_name(name),
        None => false,
    }
}

// Whether a value is a known name with a pattern.
fn is_slot(slot: &Value) -> bool
    ensures { result ≡ is_slot (view slot.now) }
{
    has_count(slot, 2) && has_slot_name(slot) && slot_pattern(slot).is_some()
}

// Whether all items are so.
fn are_slots(slots: &[Value]) -> bool
    ensures { result ≡ list_all is_slot (map view slots.now) }
{
    for slot in slots {
        if !is_slot(slot) {
            return false;
        }
    }
    true
}

// Whether a slot has this name.
fn is_named(slot: &Value, name: &str) -> bool
    ensures { result ≡ is_named name.now (view slot.now) }
{
    match slot_name(slot) {
        Some(other) => other == name,
        None => false,
    }
}

// Whether one of the slots has this name.
fn has_named(slots: &[Value], name: &str) -> bool
    ensures { result ≡ list_any (is_named name.now) (map view slots.now) }
{
    for slot in slots {
        if is_named(slot, name) {
            return true;
        }
    }
    false
}

// Whether the first slot's name is in the others too.
fn is_repeated(first: &Value, others: &[Value]) -> bool
    ensures { result
        ≡ option_map_or (λ name. list_any (is_named name) (map view others.now)) (slot_name (view first.now)) false }
{
    match slot_name(first) {
        Some(name) => has_named(others, name),
        None => false,
    }
}

// Whether a name is twice.
fn repeats_name(slots: &[Value]) -> bool
    ensures { result ≡ repeats_name (map view slots.now) }
{
    let mut left = slots;
    while let [first, others @ ..] = left {
        if is_repeated(first, others) {
            return true;
        }
        left = others;
    }
    false
}

// The pattern of the slot of this name.
fn pattern_named<'a>(slots: &'a [Value], name: &str) -> Option<BorrowedPattern<'a>>
    ensures { result ≡ pattern_named name.now (map view slots.now) }
{
    for slot in slots {
        if is_named(slot, name) {
            return slot_pattern(slot);
        }
    }
    None
}

// The pattern of `other`, where the items are slots of known names and none is twice.
fn other_in(slots: &[Value]) -> Option<BorrowedPattern<'_>>
    ensures { option_map (elements_with (map view slots.now)) result ≡ elements_in (map view slots.now) }
{
    if !are_slots(slots) || repeats_name(slots) {
        return None;
    }
    pattern_named(slots, "other")
}

// The patterns of all slots.
fn elements_in(slots: &[Value]) -> Option<PluralElements<BorrowedPattern<'_>>>
    ensures { result ≡ elements_in (map view slots.now) }
{
    let other = other_in(slots)?;
    Some(PluralElements {
        explicit_zero: pattern_named(slots, "0"),
        explicit_one: pattern_named(slots, "1"),
        zero: pattern_named(slots, "zero"),
        one: pattern_named(slots, "one"),
        two: pattern_named(slots, "two"),
        few: pattern_named(slots, "few"),
        many: pattern_named(slots, "many"),
        other,
    })
}

// The patterns of the slots that a value is.
#[tactic(auto, using(crate::proofs::SlotsLemmas::listed_items))]
pub(crate) fn slots_of(value: &Value) -> Option<PluralElements<BorrowedPattern<'_>>>
    ensures { result ≡ slots_of (view value.now) }
{
    let slots = value.as_array()?;
    elements_in(slots.as_slice())
}

impl PluralElements<Pattern> {
    /// The patterns that a JSON value says: an array of a slot's name and its pattern each, which is an array of one
    /// text, or of the two texts around a placeholder. `[["one",["","K"]],["other",["","Ks"]]]` is the pattern `{0}K`
    /// for the category `one`, and `{0}Ks` for others.
    ///
    /// The names are `0`, `1`, `zero`, `one`, `two`, `few`, `many` and `other`, which must be there. `Custom`: any
    /// other value, also one where a name occurs twice. `Memory`: out of memory.
    pub fn from_json(alloc: Global, value: &Value) -> Result<Self, DataError>
        ensures custom { IsErrOf result DataError.Custom ↔ (slots_of (view value.now) ≡ None) }
        ensures only { IfErr result IsCustomOrMemory }
        ensures value { IfOk result (λ elements. slots_of (view value.now) ≡ Some elements) }
    {
        let Some(patterns) = slots_of(value) else {
            return Err(DataError::Custom);
        };
        match owned_elements(alloc, &patterns) {
            Ok(patterns) => Ok(patterns),
            Err(_) => Err(DataError::Memory),
        }
    }
}
