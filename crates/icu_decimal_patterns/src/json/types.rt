//! The types of a table from JSON.

ghost use Rattle.std.specs.Prelude.{◌≡◌, ◌↔◌, IsTrue, None, is_some, map, option_map};
ghost use Rattle.serde_json.specs.View.{view};
ghost use Rattle.icu_decimal_patterns.specs.Elements.{without_one};
ghost use Rattle.icu_decimal_patterns.specs.KeptEntries.{NeverFalls, first_fault, of_type};
ghost use Rattle.icu_decimal_patterns.specs.KeptSteps.{kept_of, repeats};
ghost use Rattle.icu_decimal_patterns.specs.SlotsJson.{slots_of};
ghost use Rattle.icu_decimal_patterns.specs.TableJson.{all_types, field_at, rise_from, size_in, type_in, types_of};
ghost use Rattle.icu_decimal_patterns.specs.TableSteps.{known_types};

use super::slots::{has_count, slots_of};
use crate::borrowed::BorrowedPattern;
use crate::elements::PluralElements;
use crate::kept::fault_of;
use icu_decimal_compact_value::CompactEntry;
use icu_decimal_symbols::error::DataError;
use serde_json::Value;

// The patterns of a type, whose texts are borrowed.
type BorrowedPatterns<'a> = PluralElements<BorrowedPattern<'a>>;

// The number at a place of a row, from 0 to 255.
fn size_at(row: &Value, place: usize) -> Option<u8>
    ensures { result ≡ field_at size_in place (view row.now) }
{
    let number = row.get(place)?.as_u64()?;
    if number < 256 {
        Some(number as u8)
    } else {
        None
    }
}

// The patterns at a place of a row.
fn slots_at(row: &Value, place: usize) -> Option<BorrowedPatterns<'_>>
    ensures { result ≡ field_at slots_of place (view row.now) }
{
    let slots = row.get(place)?;
    slots_of(slots)
}

// The type that a row is, with its exponent and its patterns.
pub(crate) fn type_in(row: &Value) -> Option<(u8, (u8, BorrowedPatterns<'_>))>
    ensures { option_map of_type result ≡ type_in (view row.now) }
{
    if !has_count(row, 3) {
        return None;
    }
    let log10_type = size_at(row, 0)?;
    let exponent = size_at(row, 1)?;
    let patterns = slots_at(row, 2)?;
    Some((log10_type, (exponent, patterns)))
}

// Whether all rows are types.
fn are_types(rows: &[Value]) -> bool
    ensures { result ≡ is_some (all_types (map view rows.now)) }
{
    for row in rows {
        if type_in(row).is_none() {
            return false;
        }
    }
    true
}

// Whether the types rise strictly.
fn types_rise(rows: &[Value]) -> bool
    ensures { result ≡ rise_from 0 (known_types (map view rows.now)) }
{
    let mut least: u16 = 0;
    for row in rows {
        let Some((log10_type, _)) = type_in(row) else {
            continue;
        };
        if (log10_type as u16) < least {
            return false;
        }
        least = log10_type as u16 + 1;
    }
    true
}

// The rows of an array of types that rise.
pub(crate) fn rows_of(value: &Value) -> Option<&[Value]>
    ensures { option_map (λ rows. known_types (map view rows.now)) result ≡ types_of (view value.now) }
{
    let rows = value.as_array()?.as_slice();
    if are_types(rows) && types_rise(rows) {
        Some(rows)
    } else {
        None
    }
}

// Whether no exponent is below the one before it.
pub(crate) fn never_falls(rows: &[Value]) -> bool
    ensures { IsTrue result ↔ NeverFalls 0 (known_types (map view rows.now)) }
{
    let mut least = 0;
    for row in rows {
        let Some((_, (exponent, _))) = type_in(row) else {
            continue;
        };
        if exponent < least {
            return false;
        }
        least = exponent;
    }
    true
}

// Whether a type with these patterns adds nothing to the one that was kept last.
fn is_repeat(kept: Option<&BorrowedPatterns<'_>>, patterns: &BorrowedPatterns<'_>) -> bool
    ensures { result ≡ repeats (option_map (λ k. without_one k.now) kept.entry) patterns.now }
{
    match kept {
        Some(kept) => patterns.is_without_one(kept),
        None => false,
    }
}

// What is wrong with the least type that is kept and has a fault.
pub(crate) fn first_fault(rows: &[Value]) -> Option<DataError>
    ensures { result ≡ first_fault (kept_of None (known_types (map view rows.now))) }
{
    let mut kept: Option<BorrowedPatterns<'_>> = None;
    for row in rows {
        let Some((log10_type, (exponent, patterns))) = type_in(row) else {
            continue;
        };
        if is_repeat(kept.as_ref(), &patterns) {
            continue;
        }
        let fault = fault_of(CompactEntry {
            log10_type,
            exponent,
        });
        if fault.is_some() {
            return fault;
        }
        kept = Some(patterns);
    }
    None
}
