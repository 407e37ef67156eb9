//! The slots of a type.

ghost use Rattle.std.specs.Prelude.{◌≡◌, None, IfOk, if◌then◌else◌, option_and_then, option_map};
ghost use Rattle.serde_json.specs.View.{items_view, view};
ghost use Rattle.icu_decimal.specs.Elements.{only_other};
ghost use Rattle.locale_numbers_compact_amounts.specs.AmountSlots.{added, added_from, patterns_in, patterns_said, patterns_with, rank, slot_in};
ghost use Rattle.locale_numbers_tables.specs.Entries.{field_at};

use crate::patterns::patterns_of;
use icu_decimal::plurals::{PluralCategory, PluralElements};
use icu_dimension::UnitPatterns;
use icu_dimension_compact::AmountPatterns;
use locale_numbers_tables::fields::has_count;
use locale_numbers_words::slots::{array_at, category};
use serde_json::Value;
use std::alloc::{AllocError, Global};

// The category and the patterns of a slot.
fn slot(alloc: Global, slot: &Value) -> Result<Option<(PluralCategory, UnitPatterns)>, AllocError>
    ensures { IfOk result (λ found. found ≡ slot_in (view slot.now)) }
{
    if !has_count(slot, 3) {
        return Ok(None);
    }
    let Some(category) = category(slot) else {
        return Ok(None);
    };
    match patterns_of(alloc, slot)? {
        Some(patterns) => Ok(Some((category, patterns))),
        None => Ok(None),
    }
}

// The place of a category in slots.
fn rank(category: PluralCategory) -> u8
    ensures { result ≡ rank category }
{
    match category {
        PluralCategory::Other => 0,
        PluralCategory::Zero => 1,
        PluralCategory::One => 2,
        PluralCategory::Two => 3,
        PluralCategory::Few => 4,
        PluralCategory::Many => 5,
    }
}

// These with the patterns of another category than `other`.
fn added(
    elements: PluralElements<UnitPatterns>,
    category: PluralCategory,
    patterns: UnitPatterns,
) -> PluralElements<UnitPatterns>
    ensures { result ≡ added elements category patterns }
{
    match category {
        PluralCategory::Zero => elements.with_zero_value(Some(patterns)),
        PluralCategory::One => elements.with_one_value(Some(patterns)),
        PluralCategory::Two => elements.with_two_value(Some(patterns)),
        PluralCategory::Few => elements.with_few_value(Some(patterns)),
        PluralCategory::Many => elements.with_many_value(Some(patterns)),
        PluralCategory::Other => elements,
    }
}

// Adds the patterns of another category than `other`.
fn add(held: &mut AmountPatterns, category: PluralCategory, patterns: UnitPatterns)
    ensures { held.new ≡ option_map (λ s. added s category patterns) held.old }
{
    if let Some(elements) = held.take() {
        drop(held.replace(added(elements, category, patterns)));
    }
}

// Adds the patterns of further slots; false where one is none, or they are not in their order.
fn add_all(alloc: Global, slots: &[Value], held: &mut AmountPatterns) -> Result<bool, AllocError>
    ensures { IfOk result
        (λ good. (if good then held.new else None)
        ≡ option_and_then (λ s. added_from 1 s (items_view slots.now)) held.old) }
{
    let mut least = 1;
    for item in slots {
        match slot(alloc, item) {
            Ok(Some((category, patterns))) => {
                let place = rank(category);
                if place < least {
                    drop(patterns);
                    return Ok(false);
                }
                least = place + 1;
                add(held, category, patterns);
            }
            Ok(None) => return Ok(false),
            Err(refused) => return Err(refused),
        }
    }
    Ok(true)
}

// The patterns of these for `other` and of further slots.
fn with_others(
    alloc: Global,
    other: UnitPatterns,
    slots: &[Value],
) -> Result<Option<AmountPatterns>, AllocError>
    ensures { IfOk result
        (λ found. found ≡ option_map patterns_with (added_from 1 (only_other other) (items_view slots.now))) }
{
    let mut held = Some(PluralElements::new(other));
    match add_all(alloc, slots, &mut held) {
        Ok(true) => match held {
            Some(elements) => Ok(Some(Some(elements))),
            None => Ok(None),
        },
        Ok(false) => {
            drop(held);
            Ok(None)
        }
        Err(refused) => {
            drop(held);
            Err(refused)
        }
    }
}

// The patterns that slots say.
fn patterns(alloc: Global, slots: &[Value]) -> Result<Option<AmountPatterns>, AllocError>
    ensures { IfOk result (λ found. found ≡ patterns_said (items_view slots.now)) }
{
    let Some((first, rest)) = slots.split_first() else {
        return Ok(Some(None));
    };
    match slot(alloc, first)? {
        Some((category, patterns)) => {
            if rank(category) == 0 {
                with_others(alloc, patterns, rest)
            } else {
                Ok(None)
            }
        }
        None => Ok(None),
    }
}

// The patterns at a place of a type.
pub(crate) fn patterns_at(
    alloc: Global,
    row: &Value,
    place: usize,
) -> Result<Option<AmountPatterns>, AllocError>
    ensures { IfOk result (λ found. found ≡ field_at patterns_in place (view row.now)) }
{
    match array_at(row, place) {
        Some(slots) => patterns(alloc, slots),
        None => Ok(None),
    }
}
