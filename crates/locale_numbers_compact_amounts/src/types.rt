//! The types of an entry.

ghost use Rattle.std.specs.Prelude.{◌≡◌, None, Some, [], IfErr, IfOk, OnOk, if◌then◌else◌, length, option_and_then};
ghost use Rattle.serde_json.specs.View.{items_view, view};
ghost use Rattle.locale_numbers_compact_amounts.specs.AmountEntries.{amounts_said, has_types, made, said_fault, type_in, types_fault, types_said};
ghost use Rattle.locale_numbers_tables.specs.Telling.{IsTold};

use crate::slots::patterns_at;
use icu_dimension_compact::{
    AmountPatterns, CompactEntry, ShortCurrencyCompact, ShortCurrencyCompactError,
};
use locale_numbers_tables::BookError;
use locale_numbers_tables::fields::{has_count, size};
use locale_numbers_words::slots::array_at;
use serde_json::Value;
use std::alloc::{AllocError, Global};

// The type that a row is.
fn type_of(alloc: Global, row: &Value) -> Result<Option<(CompactEntry, AmountPatterns)>, AllocError>
    ensures { IfOk result (λ found. found ≡ type_in (view row.now)) }
{
    if !has_count(row, 3) {
        return Ok(None);
    }
    let Some(log10_type) = size(row, 0) else {
        return Ok(None);
    };
    let Some(exponent) = size(row, 1) else {
        return Ok(None);
    };
    match patterns_at(alloc, row, 2)? {
        Some(patterns) => {
            let entry = CompactEntry {
                log10_type,
                exponent,
            };
            Ok(Some((entry, patterns)))
        }
        None => Ok(None),
    }
}

// Adds the types of rows to empty lists; false where one is none.
#[tactic(auto, using(crate::proofs::AmountLemmas::filled_more, crate::proofs::AmountLemmas::filled_none, crate::proofs::AmountLemmas::filled_all))]
fn fill(
    alloc: Global,
    rows: &[Value],
    entries: &mut Vec<CompactEntry>,
    patterns: &mut Vec<AmountPatterns>,
) -> Result<bool, AllocError>
    requires entries { entries.old.items ≡ [] }
    requires patterns { patterns.old.items ≡ [] }
    ensures { IfOk result
        (λ good. (if good then Some (record { entries = entries.new.items; patterns = patterns.new.items }) else None)
        ≡ types_said (items_view rows.now)) }
{
    for row in rows {
        match type_of(alloc, row)? {
            Some((entry, typed)) => {
                entries.push(entry)?;
                patterns.push(typed)?;
            }
            None => return Ok(false),
        }
    }
    Ok(true)
}

// The table of entries and as many patterns, or what is wrong with them.
#[tactic(auto, using(crate::proofs::AmountLemmas::made_sound, crate::proofs::AmountLemmas::no_fault, crate::proofs::AmountLemmas::types_told, crate::proofs::AmountLemmas::exponents_told, crate::proofs::AmountLemmas::lengths_told))]
fn table_of(
    entries: Vec<CompactEntry>,
    patterns: Vec<AmountPatterns>,
) -> Result<ShortCurrencyCompact, BookError>
    requires { length entries.items ≡ length patterns.items }
    ensures value { IfOk result
        (λ table. made (record { entries = entries.items; patterns = patterns.items }) ≡ Some table) }
    ensures sound { OnOk result
        (said_fault (Some (record { entries = entries.items; patterns = patterns.items })) ≡ None) }
    ensures fault { IfErr result
        (λ fault. IsTold (said_fault (Some (record { entries = entries.items; patterns = patterns.items }))) fault) }
{
    match ShortCurrencyCompact::try_new(entries, patterns) {
        Ok(table) => Ok(table),
        Err(fault) => match fault {
            ShortCurrencyCompactError::Lengths => Err(BookError::Shape),
            ShortCurrencyCompactError::Types => Err(BookError::Types),
            ShortCurrencyCompactError::Exponents => Err(BookError::Exponents),
        },
    }
}

// The table of rows, or what is wrong with them.
#[tactic(auto, using(crate::proofs::AmountLemmas::filled_alike))]
fn table(alloc: Global, rows: &[Value]) -> Result<ShortCurrencyCompact, BookError>
    ensures value { IfOk result (λ table. option_and_then made (types_said (items_view rows.now)) ≡ Some table) }
    ensures sound { OnOk result (said_fault (types_said (items_view rows.now)) ≡ None) }
    ensures fault { IfErr result (λ fault. IsTold (said_fault (types_said (items_view rows.now))) fault) }
{
    let mut entries = Vec::new(alloc);
    let mut patterns = Vec::new(alloc);
    match fill(alloc, rows, &mut entries, &mut patterns) {
        Ok(true) => table_of(entries, patterns),
        Ok(false) => {
            drop((entries, patterns));
            Err(BookError::Shape)
        }
        Err(_) => {
            drop((entries, patterns));
            Err(BookError::Memory)
        }
    }
}

// The table of an entry, or what is wrong with its types.
pub(crate) fn entry_table(alloc: Global, entry: &Value) -> Result<ShortCurrencyCompact, BookError>
    ensures value { IfOk result (λ table. amounts_said (view entry.now) ≡ Some table) }
    ensures sound { OnOk result (types_fault (view entry.now) ≡ None) }
    ensures fault { IfErr result (λ fault. IsTold (types_fault (view entry.now)) fault) }
{
    match array_at(entry, 2) {
        Some(rows) => table(alloc, rows),
        None => Err(BookError::Shape),
    }
}

// Whether types are in an entry.
pub(crate) fn has_types(alloc: Global, entry: &Value) -> Result<bool, AllocError>
    ensures { IfOk result (λ holds. holds ≡ has_types (view entry.now)) }
{
    match entry_table(alloc, entry) {
        Ok(table) => {
            drop(table);
            Ok(true)
        }
        Err(BookError::Memory) => Err(AllocError),
        Err(BookError::Shape) => Ok(false),
        Err(_) => Ok(true),
    }
}
