//! Entries of plural rules.

ghost use Rattle.std.specs.Prelude.{◌≡◌, true, IfOk, Some, None, is_some, option_map};
ghost use Rattle.serde_json.specs.Find.{as_array};
ghost use Rattle.serde_json.specs.View.{view, items_view};
ghost use Rattle.icu_decimal.specs.Reading.{is_same, pairs_of};
ghost use Rattle.locale_numbers_tables.specs.Entries.{field_at};
ghost use Rattle.locale_numbers_tables.specs.Keys.{table_at, table_in};
ghost use Rattle.locale_numbers_tables.specs.RulesEntries.{category_in, condition_in, conditions_in};

use crate::BookError;
use crate::entry::Entry;
use crate::fields::{has_count, is_text_at, locale, text_at};
use icu_decimal::plurals::{PluralCategory, PluralRules};
use icu_decimal::provider::DataError;
use icu_locale_core::DataLocale;
use serde_json::Value;
use std::alloc::{AllocError, Global};

// The category that a pair names.
fn category(pair: &Value) -> Option<PluralCategory>
    ensures { result ≡ field_at category_in 0 (view pair.now) }
{
    let word = text_at(pair, 0)?;
    PluralCategory::get_for_cldr_bytes(word.as_bytes())
}

// A category and its condition.
fn condition(pair: &Value) -> Option<(PluralCategory, &str)>
    ensures { option_map (λ found. (found.0, found.1.now)) result ≡ condition_in (view pair.now) }
{
    if !has_count(pair, 2) {
        return None;
    }
    let category = category(pair)?;
    let text = text_at(pair, 1)?;
    Some((category, text))
}

// Whether two categories are the same one.
fn is_same(category: PluralCategory, other: PluralCategory) -> bool
    ensures { result ≡ is_same category other }
{
    category == other
}

// Whether a category is among these.
fn has_category(list: &[(PluralCategory, &str)], category: PluralCategory) -> bool
    ensures { result ≡ is_some (table_at is_same category (pairs_of list.now)) }
{
    for (other, _text) in list {
        if is_same(category, *other) {
            return true;
        }
    }
    false
}

// The categories and conditions of an array, where each is one and no category is twice.
fn conditions(
    alloc: Global,
    items: &[Value],
) -> Result<Option<Vec<(PluralCategory, &str)>>, AllocError>
    ensures { IfOk result
        (λ found. option_map (λ list. pairs_of list.items) found
        ≡ table_in is_same condition_in (items_view items.now)) }
{
    let mut list: Vec<(PluralCategory, &str)> = Vec::new(alloc);
    for item in items {
        let Some((category, text)) = condition(item) else {
            return Ok(None);
        };
        if has_category(list.as_slice(), category) {
            return Ok(None);
        }
        list.push((category, text))?;
    }
    Ok(Some(list))
}

/// The items of the array at a place of an entry.
pub fn array_at(entry: &Value, place: usize) -> Option<&[Value]>
    ensures { option_map (λ items. items_view items.now) result ≡ field_at as_array place (view entry.now) }
{
    let items = entry.get(place)?.as_array()?;
    Some(items.as_slice())
}

// The categories and conditions of an entry.
fn entry_conditions(
    alloc: Global,
    entry: &Value,
) -> Result<Option<Vec<(PluralCategory, &str)>>, AllocError>
    ensures { IfOk result
        (λ found. option_map (λ list. pairs_of list.items) found ≡ field_at conditions_in 1 (view entry.now)) }
{
    match array_at(entry, 1) {
        Some(items) => conditions(alloc, items),
        None => Ok(None),
    }
}

impl Entry for PluralRules {
    ghost use Rattle.locale_numbers_tables.specs.Faults.{rules_fault};
    ghost use Rattle.locale_numbers_tables.specs.Allocation.{rules_may_grow};
    ghost use Rattle.locale_numbers_tables.specs.RulesEntries.{rules_entry, rules_key};

    type Key = DataLocale;

    ghost meaning = { rules_entry };

    ghost key_in = { rules_key };

    ghost fault_in = { rules_fault };

    // An entry that has not two fields, or whose first is no text, is never reported as out of memory.
    ghost may_grow = { rules_may_grow };

    #[tactic(auto, using(crate::proofs::FaultLemmas::rules_sound))]
    fn read(alloc: Global, entry: &Value) -> Result<(DataLocale, PluralRules), BookError> {
        if !has_count(entry, 2) || !is_text_at(entry, 0) {
            return Err(BookError::Shape);
        }
        let Ok(found) = entry_conditions(alloc, entry) else {
            return Err(BookError::Memory);
        };
        let Some(list) = found else {
            return Err(BookError::Shape);
        };
        let Ok(found) = locale(alloc, entry, 0) else {
            return Err(BookError::Memory);
        };
        let Some(locale) = found else {
            return Err(BookError::Tag);
        };
        match PluralRules::new(alloc, list.as_slice()) {
            Ok(rules) => Ok((locale, rules)),
            Err(fault) => match fault {
                DataError::Memory => Err(BookError::Memory),
                _ => Err(BookError::Condition),
            },
        }
    }
}
