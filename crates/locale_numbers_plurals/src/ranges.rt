//! Entries of the categories of ranges.

ghost use Rattle.std.specs.Prelude.{◌≡◌, IfOk, option_map};
ghost use Rattle.serde_json.specs.Find.{as_array};
ghost use Rattle.serde_json.specs.View.{view, items_view};
ghost use Rattle.locale_numbers_tables.specs.Entries.{all_of, field_at};
ghost use Rattle.locale_numbers_tables.specs.RulesEntries.{category_in};
ghost use Rattle.locale_numbers_plurals.specs.RangesEntries.{range_in, ranges_in};

use icu_decimal::plurals::PluralCategory;
use icu_locale_core::DataLocale;
use icu_plurals::PluralRange;
use locale_numbers_tables::fields::{has_count, is_text_at, locale, text_at};
use locale_numbers_tables::{BookError, Entry};
use serde_json::Value;
use std::alloc::{AllocError, Global};
use std::marker::Model;

/// The categories of the ranges of a locale, of which the first for two ends counts: in English that of `other` and
/// `one` is `other`.
#[derive(Drop)]
pub struct PluralRanges {
    /// The ranges, in their order.
    pub ranges: Vec<PluralRange>,
}

impl Model for PluralRanges {
    ghost use Rattle.std.specs.Prelude.{List};
    ghost use Rattle.icu_plurals.specs.declared.PluralRange.{PluralRange};

    ghost Value = { List PluralRange };

    ghost view = { λ r. r.ranges.items };
}

// The category that the word at a place is.
fn category(item: &Value, place: usize) -> Option<PluralCategory>
    ensures { result ≡ field_at category_in place (view item.now) }
{
    let word = text_at(item, place)?;
    PluralCategory::get_for_cldr_bytes(word.as_bytes())
}

// The categories of two ends, and that of their range.
fn range(item: &Value) -> Option<PluralRange>
    ensures { result ≡ range_in (view item.now) }
{
    if !has_count(item, 3) {
        return None;
    }
    let start = category(item, 0)?;
    let end = category(item, 1)?;
    let result = category(item, 2)?;
    Some(PluralRange { start, end, result })
}

// The ranges of an array, where each is one.
fn ranges(alloc: Global, items: &[Value]) -> Result<Option<Vec<PluralRange>>, AllocError>
    ensures { IfOk result
        (λ found. option_map (λ list. list.items) found ≡ all_of range_in (items_view items.now)) }
{
    let mut list: Vec<PluralRange> = Vec::new(alloc);
    for item in items {
        let Some(range) = range(item) else {
            return Ok(None);
        };
        list.push(range)?;
    }
    Ok(Some(list))
}

// The items of the array that is the second field of an entry.
fn second_array(entry: &Value) -> Option<&[Value]>
    ensures { option_map (λ items. items_view items.now) result ≡ field_at as_array 1 (view entry.now) }
{
    let items = entry.get(1)?.as_array()?;
    Some(items.as_slice())
}

// The ranges of an entry.
fn entry_ranges(alloc: Global, entry: &Value) -> Result<Option<PluralRanges>, AllocError>
    ensures { IfOk result (λ found. found ≡ field_at ranges_in 1 (view entry.now)) }
{
    let Some(items) = second_array(entry) else {
        return Ok(None);
    };
    match ranges(alloc, items)? {
        Some(ranges) => Ok(Some(PluralRanges { ranges })),
        None => Ok(None),
    }
}

impl Entry for PluralRanges {
    ghost use Rattle.locale_numbers_tables.specs.Allocation.{rules_may_grow};
    ghost use Rattle.locale_numbers_tables.specs.RulesEntries.{rules_key};
    ghost use Rattle.locale_numbers_plurals.specs.RangesEntries.{ranges_entry, ranges_fault};

    type Key = DataLocale;

    ghost meaning = { ranges_entry };

    ghost key_in = { rules_key };

    ghost fault_in = { ranges_fault };

    // As of plural rules.
    ghost may_grow = { rules_may_grow };

    #[tactic(auto, using(crate::proofs::RangesLemmas::ranges_sound))]
    fn read(alloc: Global, entry: &Value) -> Result<(DataLocale, PluralRanges), BookError> {
        if !has_count(entry, 2) || !is_text_at(entry, 0) {
            return Err(BookError::Shape);
        }
        let Ok(found) = entry_ranges(alloc, entry) else {
            return Err(BookError::Memory);
        };
        let Some(ranges) = found else {
            return Err(BookError::Shape);
        };
        match locale(alloc, entry, 0) {
            Ok(Some(locale)) => Ok((locale, ranges)),
            Ok(None) => Err(BookError::Tag),
            Err(_) => Err(BookError::Memory),
        }
    }
}
