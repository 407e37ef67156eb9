//! Entries of compact patterns.

ghost use Rattle.std.specs.Prelude.{◌≡◌, true, IfOk, IfErr, OnOk, Some, None, is_some, map, option_map};
ghost use Rattle.std.specs.BTreeMap.{insert_entry};
ghost use Rattle.std.specs.Ordering.{nat_cmp};
ghost use Rattle.serde_json.specs.View.{view, items_view};
ghost use Rattle.icu_decimal.specs.KeptEntries.{of_type};
ghost use Rattle.icu_decimal.specs.SlotsJson.{slots_of};
ghost use Rattle.locale_numbers_tables.specs.CompactEntries.{row_in, rows_in, zero_in, rise_from, table_made, compact_of};
ghost use Rattle.locale_numbers_tables.specs.CompactSteps.{has_table_shape, key_or_text_fault, table_fault, types_fault};
ghost use Rattle.locale_numbers_tables.specs.Entries.{all_of, field_at, entry_key};
ghost use Rattle.locale_numbers_tables.specs.Telling.{IsTold};
ghost use Rattle.locale_numbers_tables.specs.Allocation.{compact_may_grow};

use crate::BookError;
use crate::entry::Entry;
use crate::fields::{has_count, is_text_at, locale, size, system_or_none};
use crate::rules::array_at;
use crate::texts::has_plain_patterns;
use icu_decimal::pattern::Pattern;
use icu_decimal::plurals::PluralElements;
use icu_decimal::provider::{CompactPatterns, DataError, DataIdentifier};
use serde_json::Value;
use std::alloc::{AllocError, Global};
use std::collections::BTreeMap;

// A type, its exponent and its patterns.
type TypeEntry = (u8, (u8, PluralElements<Pattern>));

// The patterns that slots are, or none.
fn slots(alloc: Global, value: &Value) -> Result<Option<PluralElements<Pattern>>, AllocError>
    ensures { IfOk result (λ found. found ≡ slots_of (view value.now)) }
{
    match PluralElements::from_json(alloc, value) {
        Ok(patterns) => Ok(Some(patterns)),
        Err(DataError::Custom) => Ok(None),
        Err(_) => Err(AllocError),
    }
}

// The patterns of the slots at a place, or none.
fn slots_at(
    alloc: Global,
    value: &Value,
    place: usize,
) -> Result<Option<PluralElements<Pattern>>, AllocError>
    ensures { IfOk result (λ found. found ≡ field_at slots_of place (view value.now)) }
{
    match value.get(place) {
        Some(value) => slots(alloc, value),
        None => Ok(None),
    }
}

// The type that a row is, or none.
fn row(alloc: Global, value: &Value) -> Result<Option<TypeEntry>, AllocError>
    ensures { IfOk result (λ found. found ≡ row_in (view value.now)) }
{
    if !has_count(value, 3) {
        return Ok(None);
    }
    let Some(log10_type) = size(value, 0) else {
        return Ok(None);
    };
    let Some(exponent) = size(value, 1) else {
        return Ok(None);
    };
    match slots_at(alloc, value, 2)? {
        Some(patterns) => Ok(Some((log10_type, (exponent, patterns)))),
        None => Ok(None),
    }
}

// The types of an array, where each item is one.
fn rows(alloc: Global, items: &[Value]) -> Result<Option<Vec<TypeEntry>>, AllocError>
    ensures { IfOk result (λ found. option_map (λ list. list.items) found ≡ all_of row_in (items_view items.now)) }
{
    let mut list: Vec<TypeEntry> = Vec::new(alloc);
    for item in items {
        let Some(row) = row(alloc, item)? else {
            return Ok(None);
        };
        list.push(row)?;
    }
    Ok(Some(list))
}

// The types of an entry, or none.
fn entry_rows(alloc: Global, entry: &Value) -> Result<Option<Vec<TypeEntry>>, AllocError>
    ensures { IfOk result (λ found. option_map (λ list. list.items) found ≡ field_at rows_in 2 (view entry.now)) }
{
    match array_at(entry, 2) {
        Some(items) => rows(alloc, items),
        None => Ok(None),
    }
}

// The zero patterns that a value is, which may be null, or none where it is neither.
fn zero(alloc: Global, value: &Value) -> Result<Option<Option<PluralElements<Pattern>>>, AllocError>
    ensures { IfOk result (λ found. found ≡ zero_in (view value.now)) }
{
    if value.is_null() {
        return Ok(Some(None));
    }
    match slots(alloc, value)? {
        Some(patterns) => Ok(Some(Some(patterns))),
        None => Ok(None),
    }
}

// The zero patterns of an entry.
fn entry_zero(
    alloc: Global,
    entry: &Value,
) -> Result<Option<Option<PluralElements<Pattern>>>, AllocError>
    ensures { IfOk result (λ found. found ≡ field_at zero_in 3 (view entry.now)) }
{
    match entry.get(3) {
        Some(value) => zero(alloc, value),
        None => Ok(None),
    }
}

// Whether types rise strictly.
fn types_rise(rows: &[TypeEntry]) -> bool
    ensures { result ≡ rise_from 0 rows.now }
{
    let mut least: u16 = 0;
    for (log10_type, _patterns) in rows {
        if (*log10_type as u16) < least {
            return false;
        }
        least = *log10_type as u16 + 1;
    }
    true
}

// Puts a type into a map.
fn put<V: Drop>(types: &mut BTreeMap<u8, V>, log10_type: u8, typed: V) -> Result<(), AllocError>
    ensures { OnOk result (types.new.entries ≡ insert_entry nat_cmp types.old.entries log10_type typed) }
{
    match types.insert(log10_type, typed) {
        Ok(_) => Ok(()),
        Err(_) => Err(AllocError),
    }
}

// Types that rise, as a map.
fn map_of(
    alloc: Global,
    rows: Vec<TypeEntry>,
) -> Result<BTreeMap<u8, (u8, PluralElements<Pattern>)>, AllocError>
    requires { rise_from 0 rows.items ≡ true }
    ensures { IfOk result (λ types. types.entries ≡ rows.items) }
{
    let mut types = BTreeMap::new(alloc);
    for (log10_type, typed) in rows {
        put(&mut types, log10_type, typed)?;
    }
    Ok(types)
}

// The table of types that rise, or none.
fn table(
    alloc: Global,
    rows: Vec<TypeEntry>,
    zero: Option<&PluralElements<Pattern>>,
) -> Result<Option<CompactPatterns>, AllocError>
    requires { rise_from 0 rows.items ≡ true }
    ensures { IfOk result
        (λ found. found ≡ table_made (option_map (λ patterns. patterns.now) zero.entry) (map of_type rows.items)) }
{
    let types = map_of(alloc, rows)?;
    match CompactPatterns::new(alloc, types, zero) {
        Ok(table) => Ok(Some(table)),
        Err(fault) => match fault {
            DataError::Memory => Err(AllocError),
            _ => Ok(None),
        },
    }
}

// The table of types and of the patterns below them, or what is wrong with them.
fn table_from(
    alloc: Global,
    rows: Vec<TypeEntry>,
    zero: Option<&PluralElements<Pattern>>,
) -> Result<CompactPatterns, BookError>
    ensures value { IfOk result
        (λ table. table_made (option_map (λ patterns. patterns.now) zero.entry) (map of_type rows.items) ≡ Some table) }
    ensures rise { OnOk result (rise_from 0 rows.items ≡ true) }
    ensures fault { IfErr result
        (λ fault. IsTold (types_fault (option_map (λ patterns. patterns.now) zero.entry) rows.items) fault) }
{
    if !types_rise(rows.as_slice()) {
        return Err(BookError::Types);
    }
    match table(alloc, rows, zero) {
        Ok(found) => match found {
            Some(table) => Ok(table),
            None => Err(BookError::Exponents),
        },
        Err(_) => Err(BookError::Memory),
    }
}

// The table of an entry with these types, or what is wrong with it.
fn table_with(
    alloc: Global,
    entry: &Value,
    rows: Vec<TypeEntry>,
) -> Result<CompactPatterns, BookError>
    requires { field_at rows_in 2 (view entry.now) ≡ Some rows.items }
    ensures value { IfOk result (λ table. compact_of (view entry.now) ≡ Some table) }
    ensures sound { OnOk result (table_fault (view entry.now) ≡ None) }
    ensures fault { IfErr result (λ fault. IsTold (table_fault (view entry.now)) fault) }
{
    match entry_zero(alloc, entry) {
        Ok(found) => match found {
            Some(zero) => {
                let made = table_from(alloc, rows, zero.as_ref());
                drop(zero);
                made
            }
            None => Err(BookError::Shape),
        },
        Err(_) => Err(BookError::Memory),
    }
}

// The table of an entry, or what is wrong with its types and patterns.
fn entry_table(alloc: Global, entry: &Value) -> Result<CompactPatterns, BookError>
    ensures value { IfOk result (λ table. compact_of (view entry.now) ≡ Some table) }
    ensures sound { OnOk result (table_fault (view entry.now) ≡ None) }
    ensures fault { IfErr result (λ fault. IsTold (table_fault (view entry.now)) fault) }
{
    match entry_rows(alloc, entry) {
        Ok(found) => match found {
            Some(rows) => table_with(alloc, entry, rows),
            None => Err(BookError::Shape),
        },
        Err(_) => Err(BookError::Memory),
    }
}

// Whether types are in an entry.
fn has_rows(alloc: Global, entry: &Value) -> Result<bool, AllocError>
    ensures { IfOk result (λ holds. holds ≡ is_some (field_at rows_in 2 (view entry.now))) }
{
    match entry_rows(alloc, entry) {
        Ok(found) => Ok(found.is_some()),
        Err(_) => Err(AllocError),
    }
}

// Whether patterns below all types are in an entry, or null.
fn has_zero(alloc: Global, entry: &Value) -> Result<bool, AllocError>
    ensures { IfOk result (λ holds. holds ≡ is_some (field_at zero_in 3 (view entry.now))) }
{
    match entry_zero(alloc, entry) {
        Ok(found) => {
            let holds = found.is_some();
            drop(found);
            Ok(holds)
        }
        Err(_) => Err(AllocError),
    }
}

// Whether types and patterns of an entry have their form.
fn has_table_shape(alloc: Global, entry: &Value) -> Result<bool, AllocError>
    ensures { IfOk result (λ holds. holds ≡ has_table_shape (view entry.now)) }
{
    Ok(has_rows(alloc, entry)? && has_zero(alloc, entry)?)
}

// The locale and the system of an entry of plain patterns, or what is wrong with them.
fn plain_key(alloc: Global, entry: &Value) -> Result<DataIdentifier, BookError>
    ensures key { IfOk result (λ key. entry_key (view entry.now) ≡ Some key) }
    ensures sound { OnOk result (key_or_text_fault (view entry.now) ≡ None) }
    ensures fault { IfErr result (λ fault. IsTold (key_or_text_fault (view entry.now)) fault) }
{
    let Ok(found) = locale(alloc, entry, 0) else {
        return Err(BookError::Memory);
    };
    let Some(locale) = found else {
        return Err(BookError::Tag);
    };
    let Some(asked) = system_or_none(entry, 1) else {
        return Err(BookError::System);
    };
    if !has_plain_patterns(entry) {
        return Err(BookError::Text);
    }
    Ok(DataIdentifier::for_marker_attributes_and_locale(asked, locale))
}

// Whether an entry has four fields, of which the first two are texts.
fn has_frame(entry: &Value) -> bool
    ensures { result ≡ compact_may_grow (view entry.now) }
{
    has_count(entry, 4) && is_text_at(entry, 0) && is_text_at(entry, 1)
}

impl Entry for CompactPatterns {
    ghost use Rattle.locale_numbers_tables.specs.CompactEntries.{compact_entry};
    ghost use Rattle.locale_numbers_tables.specs.Entries.{entry_key};
    ghost use Rattle.locale_numbers_tables.specs.Faults.{compact_fault};
    ghost use Rattle.locale_numbers_tables.specs.Allocation.{compact_may_grow};

    type Key = DataIdentifier;

    ghost meaning = { compact_entry };

    ghost key_in = { entry_key };

    ghost fault_in = { compact_fault };

    // An entry that has not four fields, or whose first two are no texts, is never reported as out of memory.
    ghost may_grow = { compact_may_grow };

    #[tactic(auto, using(crate::proofs::FaultLemmas::compact_sound, crate::proofs::CompactFaults::sound_whole, crate::proofs::CompactFaults::told_table, crate::proofs::CompactFaults::told_key, crate::proofs::CompactFaults::no_shape, crate::proofs::CompactFaults::no_frame))]
    fn read(alloc: Global, entry: &Value) -> Result<(DataIdentifier, CompactPatterns), BookError> {
        if !has_frame(entry) {
            return Err(BookError::Shape);
        }
        match plain_key(alloc, entry) {
            Ok(key) => match entry_table(alloc, entry) {
                Ok(table) => Ok((key, table)),
                Err(fault) => {
                    drop(key);
                    Err(fault)
                }
            },
            // A fault of the key comes after one of the form: only then are types and patterns read to see which it
            // is.
            Err(fault) => match has_table_shape(alloc, entry) {
                Ok(true) => Err(fault),
                Ok(false) => Err(BookError::Shape),
                Err(_) => Err(BookError::Memory),
            },
        }
    }
}
